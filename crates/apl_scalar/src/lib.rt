//! The scalar functions of APL, item by item.
#![tactic(auto)]

pub mod counting;
pub mod laws;
mod monad_rules;
mod reading;
pub mod rules;
mod scalar;
mod table;

pub use reading::read_all;
pub use scalar::{dyadic, monadic};
pub use table::{character_of, dyadic_items, identity_of, item_of, item_of_numbers};
