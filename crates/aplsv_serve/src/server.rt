ghost use Rattle.std.specs.Prelude.{◌≡◌, ◌+◌, ◌≤◌, ◌++◌, ◌&&◌, [], All, length, map, not, vec_capacity, vec_len};
ghost use Rattle.apl_io.specs.Content.{KeepsPlaces};
ghost use Rattle.apl_session.specs.Ended.{IfWhole};
ghost use Rattle.apl_arrays.specs.Ascending.{AscendBy};
ghost use Rattle.auxiliaries.specs.Run.{CameTo};
ghost use Rattle.party_turns.specs.GivenBack.{ClockCame, ComeBack, TextCame};
ghost use Rattle.party_turns.specs.Seats.{none_lost, seat_numbers};
ghost use Rattle.session_rules.specs.Auxiliaries.{some_stay};
ghost use Rattle.sv_core.specs.Histories.{members_of};
ghost use Rattle.sv_turn.specs.Seating.{BelongsTo, seats_given};
ghost use Rattle.aplsv_serve.specs.Ends.{EndsWhole};
ghost use Rattle.aplsv_serve.specs.Halls.{users_of_stile};
ghost use Rattle.aplsv_serve.specs.Runs.{IsRunOverDevices, IsSomeRun};
ghost use Rattle.aplsv_serve.specs.Tasks.{PartyStands, party_name};

use crate::boxed_core::BoxedCore;
use crate::ending::{Apart, take_all_apart};
use crate::hall::Hall;
use crate::party_task::PartyTask;
use crate::start::{Start, begin, seat_all};
use apl_io::{Clock, Devices, Gate, Shelf, TextStore};
use apl_session::{Ended, FinishedRun, RunOf};
use auxiliaries::{ClockAux, Replier, TextAux};
use bundle_text::{Bundle, BundleParts};
use party_turns::{Auxiliary, UserSeat, all_have_left, end_of, fill, none_is_lost, take_apart};
use std::alloc::Global;
use std::sync::Wait;
use std::thread::Threads;
use sv_core::Core;
use sv_turn::{Seats, Turnstile};
use task_workers::{Bell, work_all};

/// Runs a bundle on threads over a text store, a clock, and a shelf for each user. The parties are tasks: the clock, the text
/// files and the users, ascending; task k, counted from 0, stands with worker k modulo their number, and a worker gives each of
/// its tasks in turn one act. A party passes the gate each time before it takes its turn. The k-th user takes the k-th shelf.
/// No thread is started that would have no task, and one that can't be started leaves its tasks to the caller's. It takes the
/// memory of the run. Where the run is whole it is a run over these devices, which come back as it left them, the shelves in
/// their order. However it ends, the clock and the text store come back where their answers led them, behind which memory may
/// have run out over one more; and as many shelves come back as were given, those behind the users' as they were. Of a run that
/// ends as `WantOfMemory` no clause says more; it is tried that there all users leave, and that the users' shelves come back in
/// their order too. It may wait for ever.
pub fn serve<
    R: Threads + Wait + Sync,
    T: TextStore + Send + Drop,
    C: Clock + Send + Drop,
    K: Shelf + Send + Drop,
    G: Gate + Sync,
>(
    rt: &R,
    alloc: Global,
    bundle: Bundle,
    devices: Devices<T, C, K>,
    workers: u32,
    gate: &G,
) -> FinishedRun<T, C, K>
    requires shelves { length bundle.users ≤ vec_len devices.shelves }
    requires workers { (1 ≤ workers) × (workers ≤ 34) }
    ensures run { IfWhole result.ended (λ transcripts journal. IsRunOverDevices C.told C.faults T.told T.faults K.told K.faults bundle journal transcripts devices.clock result.devices.clock devices.text result.devices.text
        devices.shelves.items result.devices.shelves.items) }
    ensures places { IfWhole result.ended (λ transcripts journal. KeepsPlaces (T.told devices.text) (T.told result.devices.text)) }
    ensures clock { ClockCame C.told C.faults devices.clock result.devices.clock }
    ensures text { TextCame T.told T.faults devices.text result.devices.text }
    ensures shelves { ComeBack (length bundle.users) devices.shelves.items result.devices.shelves.items }
{
    let Devices {
        text,
        clock,
        shelves,
    } = devices;
    let RunOf {
        ended,
        ten,
        twenty,
        shelves,
    } = serve_with(
        rt,
        alloc,
        bundle,
        ClockAux::new(clock),
        TextAux::new(alloc, text),
        shelves,
        workers,
        gate,
    );
    FinishedRun {
        ended,
        devices: Devices {
            text: twenty.into_store(),
            clock: ten.into_clock(),
            shelves,
        },
    }
}

/// Runs a bundle as `serve` does, with these two auxiliaries in the place of those over a clock and a text store.
#[tactic(auto, using(party_turns::proofs::GivenBack::stays_here, party_turns::proofs::GivenBack::stay_back))]
pub fn serve_with<
    R: Threads + Wait + Sync,
    X: Replier + Send + Drop,
    Y: Replier + Send + Drop,
    K: Shelf + Send + Drop,
    G: Gate + Sync,
>(
    rt: &R,
    alloc: Global,
    bundle: Bundle,
    ten: X,
    twenty: Y,
    shelves: Vec<K>,
    workers: u32,
    gate: &G,
) -> RunOf<X, Y, K>
    requires shelves { length bundle.users ≤ vec_len shelves }
    requires workers { (1 ≤ workers) × (workers ≤ 34) }
    ensures run { IfWhole result.ended (λ transcripts journal. IsSomeRun X.forgets X.replies Y.forgets Y.replies K.told K.faults bundle journal transcripts ten result.ten twenty result.twenty shelves.items result.shelves.items) }
    ensures ten { CameTo X.forgets X.replies X.wants ten result.ten }
    ensures twenty { CameTo Y.forgets Y.replies Y.wants twenty result.twenty }
    ensures shelves { ComeBack (length bundle.users) shelves.items result.shelves.items }
{
    let Ok(start) = begin(alloc, bundle.users()) else {
        return not_begun(ten, twenty, shelves);
    };
    let mut shelves = shelves;
    let BundleParts { users, .. } = bundle.into_parts();
    let Start {
        stile,
        seats,
        numbers,
        users: room,
        tasks,
        users_back,
        seats_back,
    } = start;
    let users = fill(alloc, users.into_vec(), room, &mut shelves);
    let hall = Hall {
        stile,
        users: numbers,
        gate,
    };
    let tasks = seat_all(ten, twenty, users, seats, tasks);
    let tasks = serve_all(rt, alloc, &hall, tasks, workers);
    let apart = take_all_apart(tasks, users_back, seats_back);
    let Hall { stile, .. } = hall;
    close(alloc, stile, apart, shelves)
}

// The work of all workers on these tasks.
fn serve_all<
    R: Threads + Wait + Sync,
    X: Replier + Send + Drop,
    Y: Replier + Send + Drop,
    K: Shelf + Send + Drop,
    G: Gate + Sync,
>(
    rt: &R,
    alloc: Global,
    hall: &Hall<'_, G>,
    tasks: Vec<PartyTask<X, Y, K>>,
    workers: u32,
) -> Vec<PartyTask<X, Y, K>>
    requires stand { All (PartyStands X.forgets X.replies X.wants Y.forgets Y.replies Y.wants K.told K.faults hall.now) tasks.items }
    requires workers { 1 ≤ workers }
    ensures stand { All (PartyStands X.forgets X.replies X.wants Y.forgets Y.replies Y.wants K.told K.faults hall.now) result.items }
    ensures names { map party_name result.items ≡ map party_name tasks.items }
{
    let bell = Bell::new();
    match work_all(rt, alloc, hall, &bell, tasks, workers as usize) {
        Ok(tasks) => tasks,
        Err(tasks) => tasks,
    }
}

// A run for which there was no memory.
fn not_begun<X, Y, K>(ten: X, twenty: Y, shelves: Vec<K>) -> RunOf<X, Y, K>
    ensures { result ≡ record { ended = Ended.WantOfMemory; ten = ten; twenty = twenty; shelves = shelves } }
{
    RunOf {
        ended: Ended::WantOfMemory,
        ten,
        twenty,
        shelves,
    }
}

// Whether memory ran out for nobody.
fn nobody_is_lost<X: Replier, Y: Replier, K: Shelf>(
    ten: &Auxiliary<X>,
    twenty: &Auxiliary<Y>,
    users: &[UserSeat<K>],
) -> bool
    ensures { result ≡ (not ten.now.is_lost && not twenty.now.is_lost && none_lost users.now) }
{
    !ten.is_lost() && !twenty.is_lost() && none_is_lost(users)
}

// Whether memory ran out for nobody, and all users have left.
fn is_over<X: Replier, Y: Replier, K: Shelf>(
    ten: &Auxiliary<X>,
    twenty: &Auxiliary<Y>,
    users: &[UserSeat<K>],
    core: &Core,
) -> bool
    ensures { result ≡ ((not ten.now.is_lost && not twenty.now.is_lost && none_lost users.now) && not (some_stay (seat_numbers users.now) core.now.journal)) }
{
    nobody_is_lost(ten, twenty, users) && all_have_left(core, users)
}

// Ends a run whose tasks are back: the turnstile closes, and the run is whole where memory ran out for nobody and all users have
// left.
fn close<X: Replier, Y: Replier, K: Shelf>(
    alloc: Global,
    stile: Turnstile<BoxedCore>,
    apart: Apart<X, Y, K>,
    shelves: Vec<K>,
) -> RunOf<X, Y, K>
    requires all { length apart.seats.items ≡ seats_given stile }
    requires own { All (BelongsTo members_of stile) apart.seats.items }
    requires ascending { AscendBy (λ seat. seat.session.user) apart.users.items }
    requires room { vec_len apart.users + vec_len shelves ≤ vec_capacity shelves }
    ensures whole { IfWhole result.ended (λ transcripts journal. EndsWhole K.told K.faults (users_of_stile stile) apart transcripts journal) }
    ensures ten { result.ten ≡ apart.ten.replier }
    ensures twenty { result.twenty ≡ apart.twenty.replier }
    ensures shelves { result.shelves.items ≡ map (λ seat. seat.session.shelf) apart.users.items ++ shelves.items }
{
    let Apart {
        ten,
        twenty,
        users,
        seats,
    } = apart;
    let (core, _seats) = stile.close(Seats::of_vec(seats));
    let core = core.into_core();
    let is_whole = is_over(&ten, &twenty, &users, &core);
    let mut shelves = shelves;
    let transcripts = take_apart(alloc, users, &mut shelves);
    RunOf {
        ended: end_of(transcripts, core.into_journal(), is_whole),
        ten: ten.into_replier(),
        twenty: twenty.into_replier(),
        shelves,
    }
}
