//! What answers behind shared variables may go to other threads.

use crate::{ClockAux, TextAux};

fn may_cross<T: Send>(_value: &T) {}

/// What answers behind the clock and behind text files may go to another thread where its device may. The call does nothing.
pub fn auxiliaries_may_cross_threads<C: Send, T: Send>(clock: &ClockAux<C>, text: &TextAux<T>) {
    may_cross(clock);
    may_cross(text);
}
