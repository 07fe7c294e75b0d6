//! A definition that is open may go to other threads.

use crate::Editor;

fn may_cross<T: Send>(_value: &T) {}

/// A definition that is open may go to another thread. The call does nothing.
pub fn editors_may_cross_threads(editor: &Editor) {
    may_cross(editor);
}
