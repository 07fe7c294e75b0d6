//! What answers may cross threads.

use crate::{Choice, Chosen, OneOf};

fn may_cross<T: Send>(_value: &T) {}

/// One of two may go to another thread where both may, and so may the one that a choice says. The call does nothing.
pub fn choices_may_cross_threads<P: Choice + Send, X: Send, Y: Send>(
    one: &OneOf<X, Y>,
    chosen: &Chosen<P, X, Y>,
) {
    may_cross(one);
    may_cross(chosen);
}
