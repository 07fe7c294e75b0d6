ghost use Rattle.std.specs.Prelude.{◌≡◌, ◌+◌, ◌≤◌, ◌++◌, List, All, IfSome, map, not, vec_capacity, vec_len};
ghost use Rattle.apl_arrays.specs.Ascending.{AscendBy};
ghost use Rattle.session_rules.specs.Auxiliaries.{some_stay};
ghost use Rattle.party_turns.specs.Seats.{HasPrinted, end_by, none_lost, seat_numbers, transcript_of};
ghost use Rattle.party_turns.specs.Sittings.{Sitting, seats_in};

use crate::seat::UserSeat;
use apl_io::Shelf;
use apl_session::{Ended, SessionParts, Transcript, Transcripts};
use std::alloc::Global;
use sv_core::Core;
use sv_events::Journal;

/// The end of a run in which all users have left, where the transcripts are there and memory ran out for nobody. It
/// takes no memory.
pub fn end_of(transcripts: Option<Transcripts>, journal: Journal, is_whole: bool) -> Ended
    ensures { result ≡ end_by transcripts journal is_whole }
{
    let Some(transcripts) = transcripts else {
        return Ended::WantOfMemory;
    };
    if is_whole {
        Ended::Whole {
            transcripts,
            journal,
        }
    } else {
        Ended::WantOfMemory
    }
}

/// Whether memory ran out for none of these users.
pub fn none_is_lost<K>(seats: &[UserSeat<K>]) -> bool
    ensures { result ≡ none_lost seats.now }
{
    seats.iter().all(|seat| !seat.is_lost)
}

/// Whether all of these users have left.
pub fn all_have_left<K: Shelf>(core: &Core, seats: &[UserSeat<K>]) -> bool
    ensures { result ≡ not (some_stay (seat_numbers seats.now) core.now.journal) }
{
    seats.iter().all(|seat| core.has_left(seat.user()))
}

/// The users' transcripts, and their shelves back at the front of those that were left. The list of shelves has room for
/// them. It takes memory for the list of transcripts; none where that runs out.
pub fn take_apart<K: Shelf>(
    alloc: Global,
    seats: Vec<UserSeat<K>>,
    shelves: &mut Vec<K>,
) -> Option<Transcripts>
    requires ascending { AscendBy (λ seat. seat.session.user) seats.items }
    requires room { vec_len seats + vec_len shelves.old ≤ vec_capacity shelves.old }
    ensures transcripts { IfSome result (λ transcripts. (sittings : List (Sitting K)) → seats_in sittings ≡ seats.items → All (HasPrinted K.told K.faults) sittings → transcripts.items ≡ map transcript_of sittings) }
    ensures shelves { shelves.new.items ≡ map (λ seat. seat.session.shelf) seats.items ++ shelves.old.items }
{
    let left = shelves.len();
    let mut seats = seats;
    let mut transcripts = Transcripts::new(alloc);
    let mut is_whole = true;
    while !seats.is_empty() {
        let UserSeat {
            session,
            is_lost: _,
        } = seats.remove(0);
        let user = session.user();
        let SessionParts { transcript, shelf } = session.into_parts();
        shelves.push_reserved(shelf);
        let kept = transcripts.push(Transcript {
            user,
            lines: transcript,
        });
        is_whole = is_whole && kept.is_ok();
    }
    seats.destroy_empty();
    shelves.rotate_left(left);
    if is_whole { Some(transcripts) } else { None }
}
