use crate::{Act, Answer};
use apl_arrays::List;

/// Two offers that were coupled, by their places; `a` is the lower one.
#[derive(Clone, Copy, Debug, PartialEq, Eq, Hash)]
pub struct Pair {
    pub a: u64,
    pub b: u64,
}

/// Pairs, in the order in which they were coupled.
pub type PairList = List<Pair>;

/// One event: whose act it was, the act, its answer, and the pairs that it coupled.
#[derive(Debug, Drop, PartialEq, Eq)]
pub struct Entry {
    pub party: u32,
    pub act: Act,
    pub answer: Answer,
    pub made: PairList,
}
