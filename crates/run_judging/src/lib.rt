//! Judges the journal of a printed output by the rules alone: which entry is the first that may not follow those before it.
#![tactic(auto)]

mod judging;
mod making;
mod same;

pub use judging::first_illegal;
