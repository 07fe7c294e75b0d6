//! A look at a printed output: a picture of its entries, or why one of them is what it is; from the words of the command line to
//! the bytes that are written.
#![tactic(auto)]

mod looking;
mod refused;
mod sights;
mod status;

pub use looking::aplsv_look_words;
pub use refused::LookRefused;
pub use sights::sight_of;
pub use status::LookStatus;
