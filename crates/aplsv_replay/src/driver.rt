ghost use Rattle.std.specs.Prelude.{◌≡◌, ◌+◌, ◌≤◌, ◌++◌, length, map, vec_capacity, vec_len};
ghost use Rattle.apl_arrays.specs.Ascending.{AscendBy};
ghost use Rattle.apl_io.specs.Content.{KeepsPlaces};
ghost use Rattle.auxiliaries.specs.Run.{CameTo};
ghost use Rattle.party_turns.specs.GivenBack.{ClockCame, ComeBack, TextCame};
ghost use Rattle.party_turns.specs.Serving.{CameBehind};
ghost use Rattle.apl_session.specs.Ended.{IfWhole};
ghost use Rattle.aplsv_replay.specs.Replayed.{IsDeviceRun, IsRunInTurns};
ghost use Rattle.aplsv_replay.specs.Endings.{ComesOf, RunIsWhole};
ghost use Rattle.aplsv_replay.specs.Together.{AreOfSomeBundle};

use crate::parties::Parties;
use apl_io::{Clock, Devices, Shelf, TextStore};
use apl_session::{Ended, FinishedRun, RunOf};
use aux_parties::{CLOCK_PARTY, TEXT_PARTY};
use auxiliaries::{ClockAux, Replier, TextAux};
use bundle_text::{Bundle, BundleParts};
use party_turns::{Auxiliary, core_of, end_of, fill, room_for, take_apart};
use std::alloc::Global;

/// Runs a bundle on one thread over a text store, a clock, and a shelf for each user: first the turns of the order, then
/// rounds over 10, 20 and the users, ascending, until all users have left. The k-th user takes the k-th shelf, and all come
/// back in their order. A command calls its user's shelf with that user's number; what the shelves were asked and answered are
/// the dealings of the run. Where the files are and where the shelves are is said before: a run gives no place. No more rounds
/// are taken than the journal may have entries and the users have lines and leaves. It takes the memory of the run; where
/// that runs out for a party, the run ends as `WantOfMemory` when all users have left.
pub fn replay<T: TextStore, C: Clock, K: Shelf>(
    alloc: Global,
    bundle: Bundle,
    devices: Devices<T, C, K>,
) -> FinishedRun<T, C, K>
    requires shelves { length bundle.users ≤ vec_len devices.shelves }
    ensures run { IfWhole result.ended (λ transcripts journal. IsDeviceRun C.told C.faults T.told T.faults K.told K.faults bundle journal transcripts devices.clock result.devices.clock devices.text result.devices.text
        devices.shelves.items result.devices.shelves.items) }
    ensures places { IfWhole result.ended (λ transcripts journal. KeepsPlaces (T.told devices.text) (T.told result.devices.text)) }
    ensures clock { ClockCame C.told C.faults devices.clock result.devices.clock }
    ensures text { TextCame T.told T.faults devices.text result.devices.text }
    ensures shelves { ComeBack (length bundle.users) devices.shelves.items result.devices.shelves.items }
{
    let Devices {
        text,
        clock,
        shelves,
    } = devices;
    let RunOf {
        ended,
        ten,
        twenty,
        shelves,
    } = replay_with(
        alloc,
        bundle,
        ClockAux::new(clock),
        TextAux::new(alloc, text),
        shelves,
    );
    FinishedRun {
        ended,
        devices: Devices {
            text: twenty.into_store(),
            clock: ten.into_clock(),
            shelves,
        },
    }
}

/// Runs a bundle as `replay` does, with these two auxiliaries in the place of those over a clock and a text store.
#[tactic(auto, using(party_turns::proofs::GivenBack::stays_here, party_turns::proofs::GivenBack::stay_back))]
pub fn replay_with<X: Replier, Y: Replier, K: Shelf>(
    alloc: Global,
    bundle: Bundle,
    ten: X,
    twenty: Y,
    shelves: Vec<K>,
) -> RunOf<X, Y, K>
    requires shelves { length bundle.users ≤ vec_len shelves }
    ensures run { IfWhole result.ended (λ transcripts journal. IsRunInTurns X.forgets X.replies Y.forgets Y.replies K.told K.faults bundle journal transcripts ten result.ten twenty result.twenty shelves.items result.shelves.items) }
    ensures ten { CameTo X.forgets X.replies X.wants ten result.ten }
    ensures twenty { CameTo Y.forgets Y.replies Y.wants twenty result.twenty }
    ensures shelves { ComeBack (length bundle.users) shelves.items result.shelves.items }
{
    let Ok(core) = core_of(alloc, bundle.users()) else {
        return not_begun(ten, twenty, shelves);
    };
    let Ok(room) = room_for(alloc, bundle.users()) else {
        return not_begun(ten, twenty, shelves);
    };
    let mut shelves = shelves;
    let BundleParts {
        users,
        order,
        files: _files,
        clock: _clock,
    } = bundle.into_parts();
    let seats = fill(alloc, users.into_vec(), room, &mut shelves);
    let parties = Parties {
        core,
        ten: Auxiliary::new(CLOCK_PARTY, ten),
        twenty: Auxiliary::new(TEXT_PARTY, twenty),
        seats,
    };
    go_through(alloc, parties, order.as_slice(), shelves)
}

// Takes the turns of an order, and then rounds until all users have left.
fn go_through<X: Replier, Y: Replier, K: Shelf>(
    alloc: Global,
    parties: Parties<X, Y, K>,
    order: &[u32],
    shelves: Vec<K>,
) -> RunOf<X, Y, K>
    requires together { AreOfSomeBundle X.forgets X.replies Y.forgets Y.replies K.told K.faults parties }
    requires room { vec_len parties.seats + vec_len shelves ≤ vec_capacity shelves }
    ensures run { IfWhole result.ended (λ transcripts journal. ComesOf X.forgets X.replies Y.forgets Y.replies K.told K.faults order.now parties shelves.items transcripts journal result.ten result.twenty result.shelves.items) }
    ensures ten { (start : X) → CameBehind X.forgets X.replies X.wants start parties.ten → CameTo X.forgets X.replies X.wants start result.ten }
    ensures twenty { (start : Y) → CameBehind Y.forgets Y.replies Y.wants start parties.twenty → CameTo Y.forgets Y.replies Y.wants start result.twenty }
    ensures shelves { ComeBack (length parties.seats.items) (map (λ seat. seat.session.shelf) parties.seats.items ++ shelves.items) result.shelves.items }
{
    let mut parties = parties;
    parties.take_turns(order);
    parties.take_rounds();
    close(alloc, parties, shelves)
}

// A run for which there was no memory.
fn not_begun<X, Y, K>(ten: X, twenty: Y, shelves: Vec<K>) -> RunOf<X, Y, K>
    ensures { result ≡ record { ended = Ended.WantOfMemory; ten = ten; twenty = twenty; shelves = shelves } }
{
    RunOf {
        ended: Ended::WantOfMemory,
        ten,
        twenty,
        shelves,
    }
}

// Ends a run in which all users have left.
fn close<X: Replier, Y: Replier, K: Shelf>(
    alloc: Global,
    parties: Parties<X, Y, K>,
    shelves: Vec<K>,
) -> RunOf<X, Y, K>
    requires ascending { AscendBy (λ seat. seat.session.user) parties.seats.items }
    requires room { vec_len parties.seats + vec_len shelves ≤ vec_capacity shelves }
    ensures whole { IfWhole result.ended (λ transcripts journal. RunIsWhole K.told K.faults parties transcripts journal) }
    ensures ten { result.ten ≡ parties.ten.replier }
    ensures twenty { result.twenty ≡ parties.twenty.replier }
    ensures shelves { result.shelves.items ≡ map (λ seat. seat.session.shelf) parties.seats.items ++ shelves.items }
{
    let is_whole = parties.is_whole();
    let Parties {
        core,
        ten,
        twenty,
        seats,
    } = parties;
    let mut shelves = shelves;
    let transcripts = take_apart(alloc, seats, &mut shelves);
    RunOf {
        ended: end_of(transcripts, core.into_journal(), is_whole),
        ten: ten.into_replier(),
        twenty: twenty.into_replier(),
        shelves,
    }
}
