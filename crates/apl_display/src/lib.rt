//! What an array looks like: the lines that show it, and the array of the characters of these lines.
#![tactic(auto)]

mod characters;
mod display;
mod matrices;
mod row;
mod table;
mod widths;
pub mod worked;

pub use characters::format;
pub use display::{add_lines, lines_of};
