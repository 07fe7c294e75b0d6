//! The functions of APL that look at the shape of an array, or move its items.
#![tactic(auto)]

mod counting;
mod diagonals;
pub mod laws;
mod lengths;
mod moves;
mod plain;
mod reshaping;
mod reversal;
mod rotation;
mod runs;
mod taking;
mod transposition;

pub use apl_selection::{Subs, catenate, compress, expand, index, index_assign};
pub use counting::iota;
pub use diagonals::transpose_by;
pub use plain::{ravel, shape_of};
pub use reshaping::reshape;
pub use reversal::reverse;
pub use rotation::rotate;
pub use taking::{drop_items, take};
pub use transposition::transpose;
