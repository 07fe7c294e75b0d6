//! The machine that evaluates a line, stops at its acts, and goes on with their answers.
#![tactic(auto)]

mod applying;
mod calls;
mod flow;
pub mod laws;
mod machine;
mod passing;
mod stepping;
mod threads;
mod verbs;

pub use apl_acts::{LineRead, hear_alone, read_line};
pub use flow::Stop;
pub use machine::{Machine, STATEMENT_LIMIT};
pub use threads::machines_may_cross_threads;
