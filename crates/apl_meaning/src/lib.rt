//! What a statement means.
#![tactic(auto)]

mod classes;
pub mod laws;
mod reports;
pub mod worked;

pub use classes::{argument_count, classes_of};
pub use reports::{function_line_shown, input_shown, report_line};
