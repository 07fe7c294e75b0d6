//! The table of standing offers and of their couplings.
#![tactic(auto)]

mod addressed;
mod couplings;
mod ending;
mod index;
mod listing;
mod lists;
mod matching;
mod place_set;
mod placed;
mod places;
mod room;
mod senders;
mod slots;
mod standings;
mod table;

pub use standings::is_ended;
pub use table::Offers;
