//! The turn: one state with one journal, which one seat at a time enters.
#![tactic(auto)]

mod closing;
mod entering;
mod finishing;
mod history;
mod laws;
mod memory;
mod opening;
mod order;
mod seat;
mod seats;
mod sitting;
mod steps;
mod turn;
mod turnstile;
mod view;

pub use history::History;
pub use laws::{no_places_no_entries, places_law};
pub use memory::WantOfMemory;
pub use seat::Seat;
pub use seats::Seats;
pub use turn::Turn;
pub use turnstile::Turnstile;
