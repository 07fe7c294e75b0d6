//! Devices in memory may go to other threads.

use crate::{MemoryClock, MemoryShelf, MemoryText};

fn may_cross<T: Send>(_value: &T) {}

/// Text stores, clocks and shelves in memory may go to another thread. The call does nothing.
pub fn memory_devices_may_cross_threads(
    text: &MemoryText,
    clock: &MemoryClock,
    shelf: &MemoryShelf,
) {
    may_cross(text);
    may_cross(clock);
    may_cross(shelf);
}
