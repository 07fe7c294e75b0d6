//! Files of arrays behind shared variables: who names a file can count its components, get one of them, add one and replace
//! one. Each component is a line of the file.
#![tactic(auto)]

mod code;
mod components;
mod due;
mod file;
mod found;
mod laws;
mod request;
mod state;

pub use components::Components;
pub use laws::{
    changes_are_kept, components_are_told, files_are_read_in_one_way, requests_as_written,
    session_as_worked,
};
