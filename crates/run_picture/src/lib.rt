//! A picture of a run: the entries of a journal as an SVG, with a lane for each party and time downwards.
#![tactic(auto)]

mod figure;
mod label;
mod lane;
mod laws;
mod link;
mod picture;
mod row;
mod style;
mod tag;
mod window;

pub use laws::{
    a_picture_is_well_formed, a_picture_shows_each_entry_once, texts_are_read_back,
    things_stand_apart,
};
pub use picture::picture_of;
pub use window::{Window, window_of};
