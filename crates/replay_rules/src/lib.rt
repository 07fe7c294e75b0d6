//! The turns of a replay, and how a user goes on in it: definitions over sessions and the rules of journals, and laws.
#![tactic(auto)]

mod laws;
mod serving_laws;
mod so_far_laws;
pub mod worked;

pub use laws::{one_journal_of_turns, users_take_turns};
pub use serving_laws::{
    auxiliaries_serve_their_work, controls_begin, other_work_tells_nothing, replies_answer,
    requests_are_what_the_last_use_got, waiters_are_answered,
};
pub use so_far_laws::{
    answers_are_heard, full_is_heard, held_users_wait, leavers_have_their_parts,
    others_change_nothing,
};
