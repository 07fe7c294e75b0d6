//! The access table of shared variables: which set or use of a coupled variable is granted, and
//! which is held. Nothing here takes memory, and nothing is refused.
#![tactic(auto)]

mod access;
mod cases;
mod control;
mod law;
mod state;
mod table;
mod verdict;

pub use access::{Kind, Side};
pub use cases::{Case, Cases};
pub use control::{Control, NO_CONTROL, join, swap};
pub use law::table_is_the_stories_law;
pub use state::{AccessState, after, view};
pub use table::{decide, owners};
pub use verdict::{Owners, Verdict};
