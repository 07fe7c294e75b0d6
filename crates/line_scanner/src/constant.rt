ghost use Rattle.std.specs.Prelude.{◌≡◌, ◌+◌, ◌≤◌, IfOk, length};
ghost use Rattle.line_scanner.specs.Number.{next_numbers, number_with_more};

use crate::number::next_number;
use apl_arrays::{Glyph, NumberList, WantOfMemory};
use std::alloc::Global;

/// The numbers of a constant whose first is known, and how many glyphs they take.
#[tactic(auto, using(crate::proofs::Numbers::reads_on, crate::proofs::Numbers::reads_all))]
pub fn numbers_from(
    alloc: Global,
    first: i64,
    taken: usize,
    glyphs: &[Glyph],
) -> Result<(NumberList, usize), WantOfMemory>
    requires { taken ≤ length glyphs.now }
    ensures value { IfOk result (λ found. (found.0.items, found.1) ≡ number_with_more (first, taken) (next_numbers taken glyphs.now)) }
    ensures within { IfOk result (λ found. (taken ≤ found.1) × (found.1 ≤ length glyphs.now)) }
{
    let mut numbers = NumberList::one(first);
    let mut end = taken;
    while let Some((next, taken)) = next_number(&glyphs[end..]) {
        numbers.push(alloc, next)?;
        end += taken;
    }
    Ok((numbers, end))
}

/// How many glyphs the numbers of a constant take whose first takes some.
#[tactic(auto, using(crate::proofs::Passed::begins_numbers, crate::proofs::Passed::passes_number, crate::proofs::Passed::passes_numbers))]
pub fn numbers_end(taken: usize, glyphs: &[Glyph]) -> usize
    requires { taken ≤ length glyphs.now }
    ensures value { result ≡ taken + (next_numbers taken glyphs.now).1 }
    ensures within { (taken ≤ result) × (result ≤ length glyphs.now) }
{
    let mut end = taken;
    while let Some((_, more)) = next_number(&glyphs[end..]) {
        end += more;
    }
    end
}
