//! The text of an output read back: what its users saw, and its journal; or where it departs from all outputs.
#![tactic(auto)]

mod draft;
mod heading;
mod printed;
mod refused;
mod text;
pub mod worked;

pub use printed::{Printed, PrintedParts, PrintedTranscript};
pub use refused::PrintedRefused;
pub use text::{outputs_are_read_in_one_way, read};
