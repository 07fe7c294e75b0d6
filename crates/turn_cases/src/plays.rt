//! The turns that are played, and what is looked at behind them.
ghost use Rattle.std.specs.Prelude.{◌<◌};

use crate::log::Log;
use crate::looking::look_at;
use crate::turns::{Plan, run};
use anyhow::Result;
use case_tables::{Calls, Looks};
use std::alloc::Global;
use std::sync::Wait;
use std::thread::Threads;
use sv_turn::{Seats, WantOfMemory};

/// What came of a plan, and how many entries are wanted of each seat that takes turns.
#[derive(Drop)]
struct Play {
    plan: Plan,
    each: u32,
    log: Log,
    seats: Seats<u32>,
}

/// What came of all plans.
#[derive(Drop)]
pub struct Plays {
    list: Vec<Play>,
}

fn played_out<R: Threads + Wait + Sync>(
    rt: &R,
    alloc: Global,
    plan: Plan,
    each: u32,
) -> Result<Play, WantOfMemory>
    requires { 0 < plan.seats }
{
    let (log, seats) = run(rt, alloc, plan)?;
    Ok(Play {
        plan,
        each,
        log,
        seats,
    })
}

/// Plays all plans: seats that only make room, two threads with 1,000 turns each, and eight threads which give back every other
/// turn, beside a seat that never enters.
pub fn play_all<R: Threads + Wait + Sync>(rt: &R, alloc: Global) -> Result<Plays, WantOfMemory> {
    let quiet = Plan {
        seats: 2,
        entering: 2,
        turns: 0,
        gives_back: false,
    };
    let two = Plan {
        seats: 2,
        entering: 2,
        turns: 1000,
        gives_back: false,
    };
    let eight = Plan {
        seats: 9,
        entering: 8,
        turns: 1000,
        gives_back: true,
    };
    let mut list = Vec::with_capacity(alloc, 3)?;
    list.push_reserved(played_out(rt, alloc, quiet, 0)?);
    list.push_reserved(played_out(rt, alloc, two, 1000)?);
    list.push_reserved(played_out(rt, alloc, eight, 500)?);
    Ok(Plays { list })
}

impl Calls for Plays {
    fn make(&self, alloc: Global, looks: &mut Looks) -> Result<()> {
        for play in &self.list {
            let seats = play.seats.as_slice();
            look_at(alloc, &play.log, seats, play.plan, play.each, looks)?;
        }
        Ok(())
    }
}
