//! A run on threads behind its last turn.
ghost use Rattle.std.specs.Prelude.{◌≡◌, ◌+◌, ◌<◌, ◌≤◌, ◌∷◌, ◌++◌, [], List, map, vec_capacity, vec_len};
ghost use Rattle.aplsv_serve.specs.Starts.{AreApart};
ghost use Rattle.aplsv_serve.specs.Tasks.{TaskRow};
ghost use Rattle.aplsv_serve.specs.declared.auxiliary_task.AuxiliaryTask.{AuxiliaryTask};
ghost use Rattle.aplsv_serve.specs.declared.user_task.UserTask.{UserTask};
ghost use Rattle.aplsv_serve.specs.declared.party_task.PartyTask.TheVariants as variant;

use crate::auxiliary_task::AuxiliaryTask;
use crate::party_task::PartyTask;
use crate::user_task::UserTask;
use party_turns::{Auxiliary, UserSeat};
use sv_core::EntrySeen;
use sv_turn::Seat;

/// Tasks that were taken apart: the auxiliaries, the users, and the seats of all in their order.
#[derive(Drop)]
pub struct Apart<X, Y, K> {
    pub ten: Auxiliary<X>,
    pub twenty: Auxiliary<Y>,
    pub users: Vec<UserSeat<K>>,
    pub seats: Vec<Seat<EntrySeen>>,
}

// Takes the task of the clock apart: its seat goes behind others, in a list that has room for it.
fn clock_apart<X: Drop, Y: Drop, K: Drop>(
    task: PartyTask<X, Y, K>,
    seats: &mut Vec<Seat<EntrySeen>>,
) -> Auxiliary<X>
    requires clock { (clock : AuxiliaryTask X) × (task ≡ variant.Clock clock) }
    requires room { vec_len seats.old < vec_capacity seats.old }
    ensures auxiliary { (clock : AuxiliaryTask X) → task ≡ variant.Clock clock → result ≡ clock.auxiliary }
    ensures seats { (clock : AuxiliaryTask X) → task ≡ variant.Clock clock → seats.new.items ≡ seats.old.items ++ clock.seat ∷ [] }
    ensures room { vec_capacity seats.new ≡ vec_capacity seats.old }
{
    let PartyTask::Clock(
        AuxiliaryTask {
            auxiliary,
            seat,
            ..
        },
    ) = task
    else {
        unreachable!();
    };
    seats.push_reserved(seat);
    auxiliary
}

// Takes the task of the text files apart in the same way.
fn files_apart<X: Drop, Y: Drop, K: Drop>(
    task: PartyTask<X, Y, K>,
    seats: &mut Vec<Seat<EntrySeen>>,
) -> Auxiliary<Y>
    requires files { (files : AuxiliaryTask Y) × (task ≡ variant.TextFiles files) }
    requires room { vec_len seats.old < vec_capacity seats.old }
    ensures auxiliary { (files : AuxiliaryTask Y) → task ≡ variant.TextFiles files → result ≡ files.auxiliary }
    ensures seats { (files : AuxiliaryTask Y) → task ≡ variant.TextFiles files → seats.new.items ≡ seats.old.items ++ files.seat ∷ [] }
    ensures room { vec_capacity seats.new ≡ vec_capacity seats.old }
{
    let PartyTask::TextFiles(
        AuxiliaryTask {
            auxiliary,
            seat,
            ..
        },
    ) = task
    else {
        unreachable!();
    };
    seats.push_reserved(seat);
    auxiliary
}

// Takes the tasks of users apart, behind others, into lists that have room for them.
fn take_users_apart<X: Drop, Y: Drop, K: Drop>(
    tasks: Vec<PartyTask<X, Y, K>>,
    users: &mut Vec<UserSeat<K>>,
    seats: &mut Vec<Seat<EntrySeen>>,
)
    requires tasks { (list : List (UserTask K)) × (tasks.items ≡ map (λ user. variant.User user) list) }
    requires users { vec_len users.old + vec_len tasks ≤ vec_capacity users.old }
    requires seats { vec_len seats.old + vec_len tasks ≤ vec_capacity seats.old }
    ensures users { (list : List (UserTask K)) → tasks.items ≡ map (λ user. variant.User user) list → users.new.items ≡ users.old.items ++ map (λ user. user.user) list }
    ensures seats { (list : List (UserTask K)) → tasks.items ≡ map (λ user. variant.User user) list → seats.new.items ≡ seats.old.items ++ map (λ user. user.seat) list }
{
    for task in tasks {
        let PartyTask::User(UserTask { user, seat, .. }) = task else {
            unreachable!();
        };
        users.push_reserved(user);
        seats.push_reserved(seat);
    }
}

/// Takes the tasks of a run apart, into lists that have room for its users and for the seats of its parties.
pub fn take_all_apart<X: Drop, Y: Drop, K: Drop>(
    tasks: Vec<PartyTask<X, Y, K>>,
    users: Vec<UserSeat<K>>,
    seats: Vec<Seat<EntrySeen>>,
) -> Apart<X, Y, K>
    requires row { TaskRow tasks.items }
    requires users { (users.items ≡ []) × (vec_len tasks ≤ vec_capacity users + 2) }
    requires seats { (seats.items ≡ []) × (vec_len tasks ≤ vec_capacity seats) }
    ensures { (row : TaskRow tasks.items) → AreApart row result }
{
    let mut tasks = tasks;
    let mut users = users;
    let mut seats = seats;
    let ten = clock_apart(tasks.remove(0), &mut seats);
    let twenty = files_apart(tasks.remove(0), &mut seats);
    take_users_apart(tasks, &mut users, &mut seats);
    Apart {
        ten,
        twenty,
        users,
        seats,
    }
}
