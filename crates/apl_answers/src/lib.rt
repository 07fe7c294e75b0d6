//! What changes a workspace: assignments, own copies of shared names, and what the answer to an open act brings.
#![tactic(auto)]

mod answering;
mod assigning;
mod changing;
mod lists;
mod lone;

pub use answering::bring;
pub use assigning::{assign, assign_items, assign_unshared, is_seen_shared};
pub use lone::lone_number;
