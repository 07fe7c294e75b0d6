//! What answers behind a shared variable where it is chosen for a run: one of two, which it stays.
#![tactic(auto)]

mod choice;
mod chosen;
mod laws;
mod one_of;
mod threads;

pub use choice::Choice;
pub use chosen::Chosen;
pub use laws::choices_stay;
pub use one_of::OneOf;
pub use threads::choices_may_cross_threads;
