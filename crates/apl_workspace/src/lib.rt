//! Workspaces: names with what they stand for, the frames of functions under way, and the headers of functions.
#![tactic(auto)]

mod args;
mod blanks;
pub mod call_laws;
mod few_names;
mod frame;
mod frames;
mod function;
mod header;
mod label;
pub mod laws;
mod limits;
mod local_names;
mod meaning;
mod remake;
mod room;
mod seen;
mod symbol;
mod table;
mod what;
mod workspace;

pub use args::Args;
pub use blanks::without_blanks;
pub use frame::labels_hide_names;
pub use function::Function;
pub use header::Header;
pub use label::{label_of, labels_stand_before_colons};
pub use limits::{
    DEPTH_LIMIT, FUNCTION_LINE_LIMIT, PRINTED_LIMIT, WEIGHT_LIMIT, limits_are_as_defined,
};
pub use meaning::Meaning;
pub use remake::{Remake, RemakeList, is_addressee};
pub use seen::Seen;
pub use what::What;
pub use workspace::Workspace;
