//! Functions by name may go to other threads.

use crate::Verb;

fn may_cross<T: Send + Sync>(_value: &T) {}

/// The name of a function may go to another thread, and several threads may read one at a time. The call does nothing.
pub fn verbs_may_cross_threads(verb: &Verb) {
    may_cross(verb);
}
