ghost use Rattle.std.specs.Prelude.{◌≡◌, ◌↔◌, [], ℕ, IfOk, List, MatchOption, map, reverse};
ghost use Rattle.bundle_text.specs.Rules.{PlainBundle};
ghost use Rattle.bundle_text.specs.User.{plain_user};
ghost use Rattle.printed_text.specs.Departs.{DepartsAt};
ghost use Rattle.printed_text.specs.Printed.{plain_printed};
ghost use Rattle.printed_text.specs.Refused.{IsRefusal};
ghost use Rattle.sv_events.specs.Entry.{plain_entry};
ghost use Rattle.sv_rules.specs.Journal.{journal_of};
ghost use Rattle.check_rules.specs.Fits.{IsFirstUnfit};
ghost use Rattle.aplsv_check.specs.Followed.{IsFollowed, IsSomeRun};
ghost use Rattle.check_rules.specs.Verdict.{IsLegalOutput, IsVerdict, TellsOutput, users_named};

use crate::follower::Follower;
use apl_arrays::WantOfMemory;
use bundle_text::{Bundle, BundleUser};
use check_rules::Verdict;
use party_turns::numbers_of;
use printed_text::{Printed, PrintedRefused, PrintedTranscript, read};
use std::alloc::Global;
use sv_events::Entry;

/// What is found of a text that is said to be the output of a run of this bundle over its own files and readings and empty
/// shelves: `Yes` exactly where it is, else the first of the other verdicts that applies, in their order. It takes the memory of
/// the text's lines and entries and of the run.
pub fn check(alloc: Global, bundle: &Bundle, text: &[u8]) -> Result<Verdict, WantOfMemory>
    ensures verdict { IfOk result (λ verdict. IsVerdict bundle.now text.now verdict) }
    ensures yes { IfOk result (λ verdict. (verdict ≡ Verdict.Yes) ↔ IsLegalOutput bundle.now text.now) }
    ensures only { (verdict : Verdict) → IsVerdict bundle.now text.now verdict → IfOk result (λ found. found ≡ verdict) }
{
    let users = bundle.users();
    find(alloc, bundle, users, text)
}

// What is found of a text.
fn find(
    alloc: Global,
    bundle: &Bundle,
    users: &[BundleUser],
    text: &[u8],
) -> Result<Verdict, WantOfMemory>
    requires { map plain_user users.now ≡ bundle.now.users }
    ensures { IfOk result (λ verdict. IsVerdict bundle.now text.now verdict) }
{
    let numbers = numbers_of(alloc, users)?;
    match read(alloc, Some(&numbers), text) {
        Ok(printed) => {
            let found = judge(alloc, bundle, &printed);
            drop(printed);
            found
        }
        Err(why) => refused_by(why),
    }
}

// What is found of a text that was refused.
fn refused_by(why: PrintedRefused) -> Result<Verdict, WantOfMemory>
    ensures { IfOk result (λ verdict. (bundle : PlainBundle) (text : List ℕ) → IsRefusal why (DepartsAt (users_named bundle) text) → IsVerdict bundle text verdict) }
{
    match why {
        PrintedRefused::Departs(offset) => Ok(Verdict::Text(offset)),
        PrintedRefused::WantOfMemory => Err(WantOfMemory),
    }
}

// What is found of an output.
fn judge(alloc: Global, bundle: &Bundle, printed: &Printed) -> Result<Verdict, WantOfMemory>
    ensures { IfOk result (λ verdict. (text : List ℕ) → TellsOutput bundle.now text printed.now.transcripts printed.now.journal → IsVerdict bundle.now text verdict) }
{
    let mut follower = Follower::new(alloc, bundle)?;
    let found = judge_from(&mut follower, printed);
    drop(follower);
    found
}

// What is found of an output, where no entry was followed before.
fn judge_from(follower: &mut Follower, printed: &Printed) -> Result<Verdict, WantOfMemory>
    requires run { IsSomeRun follower.old }
    requires empty { follower.old.core.journal ≡ [] }
    ensures { IfOk result (λ verdict. (bundle : PlainBundle) (text : List ℕ) → IsFollowed bundle follower.old → TellsOutput bundle text printed.now.transcripts printed.now.journal → IsVerdict bundle text verdict) }
{
    match first_unfit(follower, printed.journal())? {
        Some(place) => Ok(Verdict::Entry(place)),
        None => Ok(verdict_behind(follower, printed.transcripts())),
    }
}

// The number, from 1, of the first of these entries that does not fit, where no entry was followed before.
fn first_unfit(follower: &mut Follower, journal: &[Entry]) -> Result<Option<u64>, WantOfMemory>
    requires run { IsSomeRun follower.old }
    requires empty { follower.old.core.journal ≡ [] }
    ensures { IfOk result (λ found. (bundle : PlainBundle) → IsFollowed bundle follower.old
        → MatchOption found (IsFollowed bundle follower.new × (follower.new.core.journal ≡ journal_of journal.now)) (λ place. IsFirstUnfit bundle (map plain_entry journal.now) place)) }
{
    for (i, entry) in journal.iter().enumerate() {
        if !follower.follow(entry)? {
            return Ok(Some(i as u64 + 1));
        }
    }
    Ok(None)
}

// What is found where all entries fit.
fn verdict_behind(follower: &Follower, printed: &[PrintedTranscript]) -> Verdict
    ensures { (bundle : PlainBundle) (text : List ℕ) → IsFollowed bundle follower.now → TellsOutput bundle text (map plain_printed printed.now) (reverse follower.now.core.journal) → IsVerdict bundle text result }
{
    match follower.first_there() {
        Some(user) => Verdict::Unfinished(user),
        None => match follower.first_difference(printed) {
            Some((user, line)) => Verdict::Line { user, line },
            None => Verdict::Yes,
        },
    }
}
