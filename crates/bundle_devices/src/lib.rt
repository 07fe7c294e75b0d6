//! The devices of a bundle in memory: its files, its readings, and an empty shelf for each user. With lemmas: devices that tell
//! all that they keep reply in one way.
#![tactic(auto)]

mod memory;

pub use memory::{memory_clock, memory_devices, memory_shelves, memory_text};
