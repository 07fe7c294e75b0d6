//! The processor may go to other threads.

use crate::Core;

fn may_cross<T: Send>(_value: &T) {}

/// The processor, with its log, its offers and what is kept of them, may go to another thread. The call does nothing.
pub fn cores_may_cross_threads(core: &Core) {
    may_cross(core);
}
