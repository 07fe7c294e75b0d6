//! Sessions may go to other threads.

use crate::{Session, Wants};

fn may_cross<T: Send>(_value: &T) {}

/// A session, and what it asks of its driver, may go to another thread where its shelf may. The call does nothing.
pub fn sessions_may_cross_threads<K: Send>(session: &Session<K>, wants: &Wants) {
    may_cross(session);
    may_cross(wants);
}
