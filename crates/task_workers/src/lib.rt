//! Tasks on worker threads: each task stands with one worker, which gives its tasks turns, one after another, and waits for a
//! bell where none of them can go on.
#![tactic(auto)]

mod bell;
mod dealing;
mod post;
mod rounds;
mod task;
mod workers;

pub use bell::Bell;
pub use task::{Progress, Task};
pub use workers::work_all;
