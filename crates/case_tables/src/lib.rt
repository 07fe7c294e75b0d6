//! Tables of cases as text: a row a case, its fields, bytes written with escapes, how a run of them came out, calls that are
//! made one after another, and the end of a program that runs them.
#![tactic(auto)]

mod calls;
mod ending;
mod escapes;
mod table;
mod tally;

pub use calls::{Calls, Looks, run_calls};
pub use ending::conclude;
pub use escapes::{EscapeRefused, bytes_of};
pub use table::{Trial, run_table, run_tables};
pub use tally::Tally;
