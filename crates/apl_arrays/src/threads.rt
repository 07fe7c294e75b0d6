//! Values may go to other threads.

use crate::{Array, FileList, FileName, LineList, List, Name};

fn may_cross<T: Send + Sync>(_value: &T) {}

/// A list of items that may go to other threads may do so too. The call does nothing.
pub fn lists_may_cross_threads<T: Send + Sync>(list: &List<T>) {
    may_cross(list);
}

/// Values may go to another thread, and several threads may read one at a time. The call does nothing.
pub fn values_may_cross_threads(
    array: &Array,
    lines: &LineList,
    files: &FileList,
    name: &Name,
    file_name: &FileName,
) {
    may_cross(array);
    may_cross(lines);
    may_cross(files);
    may_cross(name);
    may_cross(file_name);
}
