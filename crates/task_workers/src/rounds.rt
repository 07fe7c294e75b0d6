//! Rounds of turns, and the work of one worker.
ghost use Rattle.std.specs.Prelude.{◌≡◌, All, map};

use crate::{Bell, Progress, Task};
use std::sync::Wait;

/// A turn for each of these tasks.
pub fn take_round<R: Wait, H, T: Task<H>>(
    rt: &R,
    hall: &H,
    bell: &Bell,
    tasks: &mut [T],
) -> Progress
    requires { All (T.stands hall.now) tasks.old }
    ensures stand { All (T.stands hall.now) tasks.new }
    ensures names { map T.name tasks.new ≡ map T.name tasks.old }
{
    let mut went = Progress::Done;
    for index in 0..tasks.len() {
        went = went.beside(tasks[index].take_turn(rt, hall, bell));
    }
    went
}

/// Rounds until all of these tasks are done. It may wait for ever.
pub fn work<R: Wait, H, T: Task<H>>(rt: &R, hall: &H, bell: &Bell, tasks: &mut [T])
    requires { All (T.stands hall.now) tasks.old }
    ensures stand { All (T.stands hall.now) tasks.new }
    ensures names { map T.name tasks.new ≡ map T.name tasks.old }
{
    for _ in rt.forever() {
        let seen = bell.count();
        match take_round(rt, hall, bell, tasks) {
            Progress::Went => {}
            Progress::Waits => bell.wait_past(rt, seen),
            Progress::Done => return,
        }
    }
    unreachable!()
}
