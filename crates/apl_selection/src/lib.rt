//! The functions of APL that select items of an array by their places along its axes, put items over them, or join two
//! arrays.
#![tactic(auto)]

mod assignment;
mod catenation;
mod compression;
mod expansion;
mod flagged;
mod flags;
mod indexing;
pub mod laws;
mod listing;
mod picks;
mod runs;
mod strides;
mod subscripts;

pub use assignment::index_assign;
pub use catenation::catenate;
pub use compression::compress;
pub use expansion::expand;
pub use indexing::index;
pub use picks::{Picks, filled, picked};
pub use strides::{length_of, scaled, stride_in, strides_of};
pub use subscripts::Subs;
