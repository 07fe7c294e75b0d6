//! The functions and operators of APL by name.
#![tactic(auto)]

mod arguments;
mod threads;
mod verb;

pub use arguments::{is_dyadic, verb_takes_axis};
pub use threads::verbs_may_cross_threads;
pub use verb::{Dyad, Mix1, Mix2, Monad, Verb};
