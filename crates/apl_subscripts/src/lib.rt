//! Subscripts that a statement still holds, which are lent and let go of.
#![tactic(auto)]

mod held;
mod selecting;

pub use held::{given_count, let_go_of_subs, places_at};
pub use selecting::{index_held, items_assigned, items_replaced};
