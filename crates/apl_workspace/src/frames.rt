ghost use Rattle.std.specs.Prelude.{◌≡◌, ◌<◌, ◌≤◌, ◌+◌, None, MatchOption, OnOk, OnErr, IfOk, IfErr, IfSome, length, min, nat_le, reverse, sum_by};
ghost use Rattle.std.specs.Option.{option_copied};
ghost use Rattle.apl_workspace.specs.Workspace.{AreTooHeavy, IsInnermostAt, in_innermost, innermost};
ghost use Rattle.apl_workspace.specs.Limits.{most_weight};
ghost use Rattle.apl_workspace.specs.Meaning.{IsWhole, meaning_weight, table_weight};

use crate::Meaning;
use crate::local_names::LocalNames;
use apl_arrays::{Fail, Name};

/// What a name stands for in the innermost frame that has it: the last one.
#[tactic(auto, using(crate::proofs::Innermost::innermost_found, crate::proofs::Innermost::innermost_goes_on))]
pub fn innermost<'a>(frames: &'a [LocalNames], name: &Name) -> Option<&'a Meaning>
    ensures value { option_copied result ≡ innermost (reverse frames.entry.now) name.now }
    ensures whole { IfSome result (λ meaning. IsWhole name.now meaning.now) }
{
    let mut at = frames.len();
    while at > 0 {
        at -= 1;
        let table = &frames[at];
        if let Some(meaning) = table.get(name) {
            return Some(meaning);
        }
    }
    None
}

/// The place of the innermost frame that has the name.
#[tactic(auto, using(crate::proofs::Innermost::place_found, crate::proofs::Innermost::place_goes_on, crate::proofs::Innermost::no_place))]
pub fn innermost_place(frames: &[LocalNames], name: &Name) -> Option<usize>
    ensures inside { IfSome result (λ at. at < length frames.now) }
    ensures place { MatchOption result (innermost (reverse frames.now) name.now ≡ None) (IsInnermostAt frames.now name.now) }
{
    let mut at = frames.len();
    while at > 0 {
        at -= 1;
        let table = &frames[at];
        if table.get(name).is_some() {
            return Some(at);
        }
    }
    None
}

/// Puts what a name stands for into the frame at a place, the innermost that has the name, and answers what all frames
/// weigh then. `WsFull` where they would weigh more than they may; it leaves them as they were. It takes no memory.
pub fn put_innermost(
    frames: &mut [LocalNames],
    at: usize,
    weight: usize,
    name: Name,
    meaning: Meaning,
    most: usize,
) -> Result<usize, Fail>
    requires place { IsInnermostAt frames.old name at }
    requires inside { at < length frames.old }
    requires weight { weight ≡ sum_by table_weight frames.old }
    requires within { weight ≤ most }
    requires limit { most ≤ most_weight }
    requires whole { IsWhole name meaning }
    ensures ok { OnOk result (reverse frames.new ≡ in_innermost (reverse frames.old) name meaning) }
    ensures weight { IfOk result (λ weighs. weighs ≡ sum_by table_weight (in_innermost (reverse frames.old) name meaning)) }
    ensures fits { IfOk result (λ weighs. weighs ≤ most) }
    ensures err { OnErr result (frames.new ≡ frames.old) }
    ensures full { IfErr result (AreTooHeavy most (in_innermost (reverse frames.old) name meaning)) }
{
    let table = &mut frames[at];
    let others = weight - table.weight();
    match table.put(name, meaning, most - others) {
        Ok(()) => Ok(others + table.weight()),
        Err(fail) => Err(fail),
    }
}

/// Whether all frames weigh at most `most` once a name stands for something of this weight in the frame at a place, the
/// innermost that has the name.
pub fn fits_innermost(
    frames: &[LocalNames],
    at: usize,
    weight: usize,
    name: &Name,
    after: usize,
    most: usize,
) -> bool
    requires place { IsInnermostAt frames.now name.now at }
    requires inside { at < length frames.now }
    requires weight { weight ≡ sum_by table_weight frames.now }
    requires within { weight ≤ most }
    requires limit { most ≤ most_weight }
    requires after { after ≤ most_weight + 1 }
    ensures { (meaning : Meaning) → after ≡ min (meaning_weight meaning) (most_weight + 1) → result ≡ nat_le (sum_by table_weight (in_innermost (reverse frames.now) name.now meaning)) most }
{
    let table = &frames[at];
    let others = weight - table.weight();
    table.fits(name, after, most - others)
}
