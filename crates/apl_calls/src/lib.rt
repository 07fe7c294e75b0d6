//! Functions under way: how each is called, its lines are begun and read, and it is left; and how statements end.
#![tactic(auto)]

mod called;
mod calling;
mod ending;
mod entry;
mod seen;
mod straight;
mod waiting;

pub use called::call_here;
pub use calling::{begin_input, follow};
pub use ending::{end_by, end_statement};
pub use entry::{call, call_with};
pub use straight::follow_here;
