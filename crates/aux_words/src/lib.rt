//! What the requests of auxiliaries are made of: words, fields with a blank between, numbers, and names of files.
#![tactic(auto)]

mod fields;
mod laws;
mod names;
mod number;

pub use fields::{behind_word, cut_at_blank};
pub use laws::{fields_are_as_written, numbers_are_as_written};
pub use names::file_name;
pub use number::number_of;
