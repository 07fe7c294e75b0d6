//! The editor of functions: a definition that is opened, changed line by line, shown, and closed.
#![tactic(auto)]

mod asking;
mod bracket;
mod closing;
mod content;
mod editor;
mod laws;
mod number;
mod opening;
mod prompt;
mod showing;
mod threads;

pub use editor::{Editor, Fed};
pub use laws::{
    brackets_ask_what_is_written, functions_shut_at_once_are_the_same, lines_close_behind_a_del,
    lines_open_what_stands_there, numbers_go_on_in_tenths, whole_parts_are_as_defined,
};
pub use opening::Opened;
pub use prompt::Prompt;
pub use threads::editors_may_cross_threads;
