//! Which entries fit in a run of a bundle over its own files and readings and empty shelves, and what is found of a text that is
//! said to be its output: definitions, and their laws.
#![tactic(auto)]

mod laws;
mod verdict;
pub mod worked;

pub use laws::{a_run_fits, there_is_one_verdict};
pub use verdict::Verdict;
