//! The words of the program's command line, and what they ask for.
#![tactic(auto)]

mod asked;
mod command_line;
mod laws;
mod look;
mod look_asked;
mod look_line;
mod look_written;
mod stray;
mod words;
mod written;

pub use asked::words_of;
pub use laws::{looks_have_one_meaning, words_have_one_meaning, worked_looks, worked_words};
pub use look::Look;
pub use look_asked::look_of;
pub use words::{Words, WordsRefused};
