//! A run on threads before its first turn.
ghost use Rattle.std.specs.Prelude.{◌≡◌, ◌+◌, ◌<◌, ◌≤◌, ◌∷◌, ◌++◌, [], All, AllPairs, IfOk, length, map, vec_capacity, vec_len};
ghost use Rattle.apl_arrays.specs.Ascending.{AscendBy};
ghost use Rattle.aux_parties.specs.Auxiliaries.{clock_party, text_party};
ghost use Rattle.sv_core.specs.Core.{ArePeople};
ghost use Rattle.sv_core.specs.Histories.{members_of};
ghost use Rattle.sv_turn.specs.Seating.{BelongsTo, known_of, seats_given, start_members};
ghost use Rattle.aplsv_serve.specs.Halls.{IsFreshSeat, Stile};
ghost use Rattle.aplsv_serve.specs.Starts.{AreNewTasks, AreSeatedBehind};

use crate::auxiliary_task::AuxiliaryTask;
use crate::boxed_core::BoxedCore;
use crate::party_task::PartyTask;
use crate::user_task::UserTask;
use apl_arrays::WantOfMemory;
use apl_io::Shelf;
use aux_parties::{CLOCK_PARTY, TEXT_PARTY};
use auxiliaries::Replier;
use bundle_text::BundleUser;
use party_turns::{UserSeat, core_of, numbers_of, room_for};
use std::alloc::Global;
use sv_core::{Core, EntrySeen};
use sv_turn::{Seat, Turnstile};

/// What a run begins with: the processor behind its turnstile, a seat for each party, the users' numbers, and room for the users
/// and for the tasks, before the run and behind it.
#[derive(Drop)]
pub struct Start<X, Y, K> {
    pub stile: Turnstile<BoxedCore>,
    pub seats: Vec<Seat<EntrySeen>>,
    pub numbers: Vec<u32>,
    pub users: Vec<UserSeat<K>>,
    pub tasks: Vec<PartyTask<X, Y, K>>,
    pub users_back: Vec<UserSeat<K>>,
    pub seats_back: Vec<Seat<EntrySeen>>,
}

// All parties: the auxiliaries, as their table has them, and the users.
fn parties_of(alloc: Global, users: &[u32]) -> Result<Vec<u32>, WantOfMemory>
    ensures { IfOk result (λ parties. parties.items ≡ clock_party ∷ text_party ∷ users.now) }
{
    let mut parties = Vec::new(alloc);
    parties.push(CLOCK_PARTY)?;
    parties.push(TEXT_PARTY)?;
    for user in users {
        parties.push(*user)?;
    }
    Ok(parties)
}

// The turnstile of a processor without entries, and a seat for each party.
fn open(
    alloc: Global,
    core: Core,
    parties: &[u32],
) -> Result<(Turnstile<BoxedCore>, Vec<Seat<EntrySeen>>), WantOfMemory>
    requires parties { (0 < length parties.now) × All (λ party. 0 < party) parties.now × AllPairs (λ party next. party < next) parties.now }
    requires empty { core.journal ≡ [] }
    ensures parties { IfOk result (λ made. map (λ seat. seat.party) made.1.items ≡ parties.now) }
    ensures seats { IfOk result (λ made. All (BelongsTo members_of made.0) made.1.items) }
    ensures places { IfOk result (λ made. All (λ seat. seat.mine.items ≡ []) made.1.items) }
    ensures known { IfOk result (λ made. All (λ seat. known_of seat ≡ []) made.1.items) }
    ensures given { IfOk result (λ made. seats_given made.0 ≡ length parties.now) }
    ensures members { IfOk result (λ made. start_members members_of made.0 ≡ core.users) }
{
    let core = BoxedCore::new(alloc, core)?;
    match Turnstile::new(alloc, core, parties) {
        Ok((stile, seats)) => Ok((stile, seats.into_vec())),
        Err(_) => Err(WantOfMemory),
    }
}

// Room for a first entry at each of these seats.
fn make_room(seats: Vec<Seat<EntrySeen>>) -> Result<Vec<Seat<EntrySeen>>, WantOfMemory>
    ensures parties { IfOk result (λ list. map (λ seat. seat.party) list.items ≡ map (λ seat. seat.party) seats.items) }
    ensures fresh { IfOk result (λ list. (stile : Stile) → All (BelongsTo members_of stile) seats.items → All (λ seat. seat.mine.items ≡ []) seats.items → All (λ seat. known_of seat ≡ []) seats.items → All (IsFreshSeat stile) list.items) }
{
    let mut seats = seats;
    for index in 0..seats.len() {
        if seats[index].reserve().is_err() {
            return Err(WantOfMemory);
        }
    }
    Ok(seats)
}

/// What a run of these users begins with. It takes memory for it.
pub fn begin<X: Drop, Y: Drop, K: Drop>(
    alloc: Global,
    users: &[BundleUser],
) -> Result<Start<X, Y, K>, WantOfMemory>
    requires people { ArePeople (map (λ user. user.number) users.now) }
    requires ascending { AscendBy (λ user. user.number) users.now }
    ensures members { IfOk result (λ start. start_members members_of start.stile ≡ map (λ user. user.number) users.now) }
    ensures numbers { IfOk result (λ start. start.numbers.items ≡ map (λ user. user.number) users.now) }
    ensures seats { IfOk result (λ start. All (IsFreshSeat start.stile) start.seats.items) }
    ensures parties { IfOk result (λ start. map (λ seat. seat.party) start.seats.items ≡ clock_party ∷ text_party ∷ map (λ user. user.number) users.now) }
    ensures given { IfOk result (λ start. seats_given start.stile ≡ length start.seats.items) }
    ensures users { IfOk result (λ start. (start.users.items ≡ []) × (length users.now ≤ vec_capacity start.users)) }
    ensures tasks { IfOk result (λ start. (start.tasks.items ≡ []) × (length users.now + 2 ≤ vec_capacity start.tasks)) }
    ensures users_back { IfOk result (λ start. (start.users_back.items ≡ []) × (length users.now ≤ vec_capacity start.users_back)) }
    ensures seats_back { IfOk result (λ start. (start.seats_back.items ≡ []) × (length users.now + 2 ≤ vec_capacity start.seats_back)) }
{
    let numbers = numbers_of(alloc, users)?;
    let parties = parties_of(alloc, &numbers)?;
    let users_back = room_for(alloc, users)?;
    let tasks = Vec::with_capacity(alloc, parties.len())?;
    let seats_back = Vec::with_capacity(alloc, parties.len())?;
    let (stile, seats) = open(alloc, core_of(alloc, users)?, &parties)?;
    Ok(Start {
        stile,
        seats: make_room(seats)?,
        numbers,
        users: room_for(alloc, users)?,
        tasks,
        users_back,
        seats_back,
    })
}

// The tasks of these users behind other tasks, in a list that has room for them; the k-th user takes the k-th seat.
fn seat_users<X, Y, K: Shelf + Drop>(
    users: Vec<UserSeat<K>>,
    seats: Vec<Seat<EntrySeen>>,
    tasks: Vec<PartyTask<X, Y, K>>,
) -> Vec<PartyTask<X, Y, K>>
    requires seats { vec_len users ≡ vec_len seats }
    requires room { vec_len tasks + vec_len users ≤ vec_capacity tasks }
    ensures { AreSeatedBehind tasks.items users.items [] seats.items result.items }
{
    let mut seats = seats;
    let mut tasks = tasks;
    for user in users {
        tasks.push_reserved(PartyTask::User(UserTask::new(user, seats.remove(0))));
    }
    tasks
}

/// The tasks of all parties, in a list that has room for them: the clock, the text files and the users, each at its seat.
pub fn seat_all<X: Replier, Y: Replier, K: Shelf + Drop>(
    ten: X,
    twenty: Y,
    users: Vec<UserSeat<K>>,
    seats: Vec<Seat<EntrySeen>>,
    room: Vec<PartyTask<X, Y, K>>,
) -> Vec<PartyTask<X, Y, K>>
    requires seats { vec_len seats ≡ vec_len users + 2 }
    requires room { (room.items ≡ []) × (vec_len users + 2 ≤ vec_capacity room) }
    ensures { AreNewTasks ten twenty users.items seats.items result.items }
{
    let mut seats = seats;
    let mut tasks = room;
    let first = seats.remove(0);
    tasks.push_reserved(PartyTask::Clock(AuxiliaryTask::new(CLOCK_PARTY, ten, first)));
    let second = seats.remove(0);
    tasks.push_reserved(PartyTask::TextFiles(AuxiliaryTask::new(TEXT_PARTY, twenty, second)));
    seat_users(users, seats, tasks)
}
