//! Acts: those that a system function asks, a row each, and lines that are one act alone.
#![tactic(auto)]

mod alone;
mod asking;
mod controls;
mod queries;
mod reading;
mod sharing;

pub use alone::hear_alone;
pub use reading::{LineRead, read_line};
pub use sharing::{lent, system};
