//! What control gives: the laws by which nothing that a side of a coupling sends is lost, but what its receiver sets over.
//! With worked stretches. The calls do nothing.
#![tactic(auto)]

mod laws;
pub mod worked;

pub use laws::{delivery_law, sent_law, stretch_law};
