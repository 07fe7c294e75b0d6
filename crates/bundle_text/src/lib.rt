//! The text in which a run's input is written: users and the lines of their input, an order of turns, files, and the
//! readings of a clock.
#![tactic(auto)]

mod bundle;
mod counts;
mod draft;
mod glyphs;
mod heading;
mod limits;
mod loads;
mod offset;
mod parties;
mod refused;
mod section;
mod text;
mod user;
pub mod worked;

pub use bundle::{Bundle, BundleParts};
pub use limits::{FILE_LIMIT, LINE_LIMIT, READING_LIMIT, TURN_LIMIT};
pub use loads::load;
pub use refused::{BundleRefused, BundleRule};
pub use text::{read, texts_are_of_one_bundle, texts_break_at_one_place};
pub use user::{BundleUser, UserList};
