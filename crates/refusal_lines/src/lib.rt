//! Lines for people, behind the one that says why the program ended: what is wrong in a bundle, at which place, and what is
//! wanted there; and the words that there are.
#![tactic(auto)]

mod finding;
mod form;
mod glyph;
mod heading;
mod likeness;
mod limit;
mod marked;
mod number;
mod party;
mod place;
mod scalar;
mod shown;
mod text;
mod usage;

pub use marked::{MarkedLine, marked_line};
pub use text::malformed_lines;
pub use usage::usage_lines;
