//! Turns of many threads, each with a seat of its own.
ghost use Rattle.std.specs.Prelude.{◌≡◌, ℕ, ◌+◌, ◌<◌, ◌≤◌, [], IfOk, All, AllPairs, true, length, vec_len};
ghost use Rattle.sv_turn.specs.Seating.{BelongsTo, seats_given, spare_of};
ghost use Rattle.turn_cases.specs.Logs.{nobody};

use crate::log::Log;
use std::alloc::{AllocError, Global};
use std::sync::Wait;
use std::thread;
use std::thread::Threads;
use sv_turn::{Seat, Seats, Turnstile, WantOfMemory};

/// How many seats there are, how many of them take turns, how many turns each, and whether every other turn is given back.
#[derive(Clone, Copy, Debug)]
pub struct Plan {
    pub seats: u32,
    pub entering: u32,
    pub turns: u32,
    pub gives_back: bool,
}

/// The journal has room for so many entries.
const ROOM: usize = 8_000;

// The numbers from 1 to the count.
fn numbers(alloc: Global, count: u32) -> Result<Vec<u32>, AllocError>
    ensures { IfOk result (λ numbers. (vec_len numbers ≡ count) × All (λ number. 0 < number) numbers.items × AllPairs (λ number next. number < next) numbers.items) }
{
    let mut numbers = Vec::with_capacity(alloc, count as usize)?;
    for number in 0..count {
        numbers.push_reserved(number + 1);
    }
    Ok(numbers)
}

// Room for two places more, which is asked for once more where memory was refused.
fn makes_room(seat: &mut Seat<u32>) -> bool
    ensures room { result ≡ true → 2 ≤ spare_of seat.new }
    ensures seat { (seat.new.badge ≡ seat.old.badge) × (seat.new.party ≡ seat.old.party) }
{
    match seat.reserve() {
        Ok(()) => true,
        Err(_) => seat.reserve().is_ok(),
    }
}

// A turn that is given back.
fn give_one_back<R: Wait>(rt: &R, stile: &Turnstile<Log>, seat: &mut Seat<u32>)
    requires { BelongsTo nobody stile.now seat.old }
    ensures { BelongsTo nobody stile.now seat.new }
{
    stile.enter(rt, seat).give_back();
}

// A turn with an entry, where the journal has room for it.
fn add_one<R: Wait>(rt: &R, stile: &Turnstile<Log>, seat: &mut Seat<u32>)
    requires { BelongsTo nobody stile.now seat.old × (1 ≤ spare_of seat.old) }
    ensures { BelongsTo nobody stile.now seat.new }
{
    let party = seat.party();
    let mut turn = stile.enter(rt, seat);
    if turn.state().add(party) {
        turn.finish();
    } else {
        turn.give_back();
    }
}

fn take_turn<R: Wait>(rt: &R, stile: &Turnstile<Log>, seat: &mut Seat<u32>, gives_back: bool)
    requires { BelongsTo nobody stile.now seat.old }
    ensures { BelongsTo nobody stile.now seat.new }
{
    if gives_back {
        give_one_back(rt, stile, seat);
    } else if makes_room(seat) {
        add_one(rt, stile, seat);
    }
}

// All turns of one seat.
fn work<R: Wait>(rt: &R, stile: &Turnstile<Log>, mut seat: Seat<u32>, plan: Plan) -> Seat<u32>
    requires { BelongsTo nobody stile.now seat }
    ensures { BelongsTo nobody stile.now result }
{
    makes_room(&mut seat);
    if seat.party() <= plan.entering {
        for turn in 0..plan.turns {
            take_turn(rt, stile, &mut seat, plan.gives_back && turn % 2 == 1);
        }
    }
    seat
}

fn work_all<R: Threads + Wait + Sync>(
    rt: &R,
    stile: &Turnstile<Log>,
    seats: Seats<u32>,
    plan: Plan,
) -> Result<Seats<u32>, WantOfMemory>
    requires { All (BelongsTo nobody stile.now) seats.list.items }
    ensures seats { IfOk result (λ back. All (BelongsTo nobody stile.now) back.list.items) }
    ensures all { IfOk result (λ back. length back.list.items ≡ length seats.list.items) }
{
    let back = thread::map_vec(
        rt,
        seats.into_vec(),
        &|seat: Seat<u32>| -> Seat<u32>
            requires { BelongsTo nobody stile.now seat }
            ensures { BelongsTo nobody stile.entry.now result }
        { work(rt, stile, seat, plan) },
    )?;
    Ok(Seats::of_vec(back))
}

/// The journal and the seats, once each seat has taken its turns in a thread of its own.
pub fn run<R: Threads + Wait + Sync>(
    rt: &R,
    alloc: Global,
    plan: Plan,
) -> Result<(Log, Seats<u32>), WantOfMemory>
    requires { 0 < plan.seats }
{
    let parties = numbers(alloc, plan.seats)?;
    let log = Log::with_room(alloc, ROOM)?;
    let (stile, seats) = Turnstile::new(alloc, log, &parties)?;
    let seats = work_all(rt, &stile, seats, plan)?;
    Ok(stile.close(seats))
}
