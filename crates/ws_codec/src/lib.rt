//! Saved workspaces: the bytes of a workspace and its offers, both ways.
#![tactic(auto)]

mod codes;
mod cursor;
mod fields;
mod functions;
mod kind;
pub mod laws;
mod numbers;
mod objects;
mod offers;
mod reading;
mod saved;
mod unread;
mod values;
pub mod worked;
mod writing;
mod written_objects;
mod written_values;

pub use reading::read;
pub use saved::{CodecRefused, Saved, SavedRule};
pub use writing::bytes_of;
