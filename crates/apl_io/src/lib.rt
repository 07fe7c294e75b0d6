//! Devices that may fail, each with a count of its faults, and their versions in memory: sources and sinks of bytes, text
//! stores, clocks and shelves.
#![tactic(auto)]

mod call_numbers;
mod clock;
mod devices;
mod failed;
mod gate;
mod kept;
mod memory_clock;
mod memory_shelf;
mod memory_sink;
mod memory_source;
mod memory_text;
mod places;
mod shelf;
mod sink;
mod source;
mod store_error;
mod text_store;
mod threads;
mod whole;

pub use apl_arrays::{Bytes, WantOfMemory};
pub use call_numbers::CallNumbers;
pub use clock::Clock;
pub use devices::Devices;
pub use failed::Failed;
pub use gate::Gate;
pub use memory_clock::MemoryClock;
pub use memory_shelf::MemoryShelf;
pub use memory_sink::MemorySink;
pub use memory_source::MemorySource;
pub use memory_text::MemoryText;
pub use shelf::Shelf;
pub use sink::Sink;
pub use source::Source;
pub use store_error::StoreError;
pub use text_store::TextStore;
pub use threads::memory_devices_may_cross_threads;
pub use whole::{ReadRefused, WriteFault, read_all, write_all};
