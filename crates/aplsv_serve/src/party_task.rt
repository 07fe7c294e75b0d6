//! The tasks of all parties.
ghost use Rattle.aplsv_serve.specs.Tasks.{PartyStands, party_name};

use crate::auxiliary_task::AuxiliaryTask;
use crate::hall::Hall;
use crate::user_task::UserTask;
use apl_io::{Gate, Shelf};
use auxiliaries::Replier;
use party_turns::UserSeat;
use std::sync::Wait;
use task_workers::{Bell, Progress, Task};

/// What no turn changes of a party's task: what answered behind an auxiliary when the run began, and a user as it was then. No
/// value of it is made.
pub enum PartyName<X, Y, K> {
    Clock(X),
    TextFiles(Y),
    User(UserSeat<K>),
}

/// The task of a party.
#[derive(Drop)]
pub enum PartyTask<X, Y, K> {
    Clock(AuxiliaryTask<X>),
    TextFiles(AuxiliaryTask<Y>),
    User(UserTask<K>),
}

impl<'a, X: Replier, Y: Replier, K: Shelf, G: Gate> Task<Hall<'a, G>> for PartyTask<X, Y, K> {
    type Name = PartyName<X, Y, K>;

    ghost name = { party_name };

    ghost stands = { PartyStands X.forgets X.replies X.wants Y.forgets Y.replies Y.wants K.told K.faults };

    fn take_turn<R: Wait>(&mut self, rt: &R, hall: &Hall<'a, G>, bell: &Bell) -> Progress {
        match self {
            PartyTask::Clock(task) => task.take_turn(rt, hall, bell),
            PartyTask::TextFiles(task) => task.take_turn(rt, hall, bell),
            PartyTask::User(task) => task.take_turn(rt, hall, bell),
        }
    }
}
