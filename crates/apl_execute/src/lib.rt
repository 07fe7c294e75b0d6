//! Values that are executed as text, and names that one workspace takes over from another.
#![tactic(auto)]

pub mod laws;
mod merging;
mod text;
mod weighing;

pub use merging::{Merged, merge};
pub use text::text_of;
