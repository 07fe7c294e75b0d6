//! The replay: all parties of a bundle on one thread, in turns.
#![tactic(auto)]

mod driver;
mod parties;

pub use driver::{replay, replay_with};
