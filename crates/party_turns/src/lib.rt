//! The parties of a run, whatever gives them their turns: a user's turn, an auxiliary's turn, how far each party is, and how a
//! run begins and ends.
#![tactic(auto)]

mod auxiliary;
mod ending;
mod intent;
mod seat;
mod start;

pub use auxiliary::Auxiliary;
pub use ending::{all_have_left, end_of, none_is_lost, take_apart};
pub use intent::{Intent, TurnResult};
pub use seat::UserSeat;
pub use start::{core_of, fill, numbers_of, room_for};
