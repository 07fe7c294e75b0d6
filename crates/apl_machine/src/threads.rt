//! Machines may go to other threads.

use crate::{LineRead, Machine, Stop};

fn may_cross<T: Send>(_value: &T) {}

/// A machine, a line that was read for it, and what it stopped at may go to another thread. The call does nothing.
pub fn machines_may_cross_threads(machine: &Machine, read: &LineRead, stop: &Stop) {
    may_cross(machine);
    may_cross(read);
    may_cross(stop);
}
