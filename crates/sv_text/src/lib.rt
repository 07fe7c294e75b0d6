//! The texts of values both ways: of numbers, characters, shapes and arrays. A reader takes what it reads from the front of a
//! line, and says where it stops, as all readers of texts do.
#![tactic(auto)]

mod chars;
mod numbers;
mod reading;
mod refused;
mod shape;
mod writing;

pub use reading::{read_array, read_value, value_of};
pub use refused::ValueRefused;
pub use writing::{a_text_tells_its_array, add_array, add_value, value_text};
