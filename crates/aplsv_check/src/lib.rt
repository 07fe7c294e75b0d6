//! A checker of printed runs: whether a text is the output of a run of a bundle over its own files and readings and empty
//! shelves, and where it is not.
#![tactic(auto)]

mod difference;
mod follower;
mod judging;
mod same;
mod turns;

pub use check_rules::Verdict;
pub use judging::check;
