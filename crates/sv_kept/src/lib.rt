//! What is kept of a journal beside its entries: of each standing offer a cell, by its place, with its vector, what its party
//! knows or shares, and what an auxiliary has to do there; what two coupled offers share; and the entries themselves, with who
//! has left, who waits, and whether they are full.
#![tactic(auto)]

mod cell;
mod cells;
mod laws;
mod log;
mod member;
mod share;

pub use cell::{Cell, CellContent};
pub use cells::Cells;
pub use laws::shares_follow_stories;
pub use log::Log;
pub use member::Member;
pub use share::{Known, Share, alone};
