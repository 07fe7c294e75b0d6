//! What a user works on, what is echoed and printed there, the lines that the editor takes, and what commands leave.
#![tactic(auto)]

mod commands;
mod definitions;
mod laws;
mod line_kind;
mod terminal;

pub use laws::{functions_opened_are_closed_by_the_next_line, refused_lines_print_alone};
pub use line_kind::{is_command, is_opening};
pub use terminal::Terminal;
