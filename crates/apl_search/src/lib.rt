//! The functions of APL that look items up, put them in order, and turn numbers into digits and back.
#![tactic(auto)]

mod classes;
mod counting;
mod decoding;
mod encoding;
mod firsts;
mod grade;
mod index;
pub mod laws;
mod lookup;
mod numbers;
mod places;
mod sides;
mod spans;

pub use decoding::decode;
pub use encoding::encode;
pub use grade::{grade_down, grade_up};
pub use lookup::{index_of, member};
