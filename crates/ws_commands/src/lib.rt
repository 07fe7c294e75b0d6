//! Commands on a workspace and on a shelf of saved ones. A command is a row: its word, what may stand behind it, what it asks
//! of the shelf, what it changes and what it prints.
#![tactic(auto)]

mod arguments;
mod change_laws;
mod command;
mod copying;
mod erasing;
mod finishing;
mod identity;
mod lines;
mod listing;
mod loading;
mod mention;
mod preparing;
mod reading_laws;
mod saving;
mod todo;
mod word;
mod words;
mod worked;

pub use change_laws::{
    copies_change_the_copied_names, retracted_names_are_given_up, retractions_follow_each_other,
    workspaces_may_still_come_in,
};
pub use finishing::finish;
pub use preparing::prepare;
pub use reading_laws::lines_fall_into_words;
pub use todo::{Change, Todo};
pub use worked::{
    changes_as_worked, commands_as_written, copies_as_worked, lists_as_worked, loads_as_worked,
    names_as_worked, no_commands_as_written,
};
