//! The processor: it answers acts, and keeps the one legal journal of what happened.
#![tactic(auto)]

mod accessing;
mod acting;
mod asking;
mod history;
mod holding;
mod laws;
mod leaves;
mod opening;
mod processor;
mod telling;
mod threads;
mod updating;
mod working;

pub use history::EntrySeen;
pub use laws::{no_control_law, one_entry_more_is_appended};
pub use processor::Core;
pub use threads::cores_may_cross_threads;
