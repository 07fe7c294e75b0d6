use apl_session::Ended;

/// What came of a run: how it ended, and the devices as it left them.
#[derive(Debug, Drop)]
pub(crate) struct Ran<T, C, K> {
    pub ended: Ended,
    pub text: T,
    pub clock: C,
    pub shelves: Vec<K>,
}
