ghost use Rattle.std.specs.Prelude.{◌≡◌, ◌↔◌, All, IsTrue, List, MatchOption, map, slice_get};
ghost use Rattle.apl_arrays.specs.List.{glyphs_in};
ghost use Rattle.bundle_text.specs.User.{PlainUser};
ghost use Rattle.printed_text.specs.Printed.{plain_printed};
ghost use Rattle.sv_rules.specs.Entries.{Entries, has_left};
ghost use Rattle.aplsv_check.specs.Followed.{AreSeatsOf};
ghost use Rattle.check_rules.specs.Saw.{AllSaw, DifferAt, IsFirstDifference};

use crate::same::same_line;
use apl_arrays::Line;
use apl_io::MemoryShelf;
use party_turns::UserSeat;
use printed_text::PrintedTranscript;

// Whether lines and others have the same at a place, from 0: equal lines, or none.
fn same_at(lines: &[Line], others: &[Line], at: usize) -> bool
    ensures { IsTrue result ↔ (slice_get (map glyphs_in lines.now) at ≡ slice_get (map glyphs_in others.now) at) }
{
    match (lines.get(at), others.get(at)) {
        (None, None) => true,
        (Some(one), Some(other)) => same_line(one, other),
        _ => false,
    }
}

// The number, from 1, of the first line in which lines and others differ.
fn difference(lines: &[Line], others: &[Line]) -> Option<u64>
    ensures { MatchOption result (map glyphs_in lines.now ≡ map glyphs_in others.now) (λ number. DifferAt (map glyphs_in lines.now) (map glyphs_in others.now) number) }
{
    let most = lines.len().max(others.len());
    for at in 0..most {
        let same = same_at(lines, others, at);
        if !same {
            return Some(at as u64 + 1);
        }
    }
    None
}

/// The first of these users, all of whom have left, of whom other lines are printed than it saw, and the number, from 1, of the
/// first of these lines.
pub(crate) fn first_difference(
    seats: &[UserSeat<MemoryShelf>],
    printed: &[PrintedTranscript],
) -> Option<(u32, u64)>
    ensures { (journal : Entries) (users : List PlainUser) → AreSeatsOf journal users seats.now → All (λ user. IsTrue (has_left journal user.number)) users
        → map (λ transcript. transcript.user) (map plain_printed printed.now) ≡ map (λ user. user.number) users
        → MatchOption result (AllSaw journal users (map plain_printed printed.now)) (λ found. IsFirstDifference journal users (map plain_printed printed.now) found.0 found.1) }
{
    let (seat, others) = seats.split_first()?;
    let (first, rest) = printed.split_first()?;
    let found = difference(first.lines.as_slice(), seat.session.transcript());
    match found {
        Some(line) => Some((seat.user(), line)),
        None => first_difference(others, rest),
    }
}
