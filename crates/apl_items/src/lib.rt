//! Functions by items: of several faults the first report, the item for each place, extension of an array with one item,
//! and items that move to other places.
#![tactic(auto)]

mod along;
mod axes;
mod axis;
mod extension;
pub mod laws;
mod loops;
mod moves;
mod rows;
mod shapes;

pub use along::{Along, moved_along};
pub use axes::{Axes, moved_by_axes};
pub use axis::{axis_of, lacks_axis};
pub use extension::{glyph_at, is_single, leader, number_at, ranks_differ, shapes_differ};
pub use loops::{by_place, each, glyph_pairs, pairs, room_for};
pub use moves::{Walk, item_at_source, moved};
pub use rows::{by_rows, lacks_by_rows};
pub use shapes::{Split, joined_shape, shape_report};
