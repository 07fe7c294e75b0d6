//! Why an entry of a journal is what it is, in sentences: the offer and the coupling that it is about, the controls, the value
//! that is unseen, and the row of the access table that decided, each with the entry by which it came to be.
#![tactic(auto)]

mod ground;
mod laws;
mod names;
mod placed;
mod sentence;
mod story;
mod walk;
mod why;

pub use laws::{entries_that_are_named, what_is_named_is_what_the_rules_ask};
pub use why::why_lines;
