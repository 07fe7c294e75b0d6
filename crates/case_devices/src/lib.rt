//! What the fields of tables of cases say of devices in memory: the calls that fail, a file, and a text store with it.
#![tactic(auto)]

mod calls;
mod files;

pub use calls::calls_of;
pub use files::{file_of, store_of};
