//! What a machine holds: lines that were read as parts, values that no part has taken yet, rows of names, open acts, and what
//! an answer tells the line that asked.
#![tactic(auto)]

mod answers;
mod classing;
mod known;
mod naming;
mod part;
mod pending;
mod place;
mod reading;
mod rows;
mod values;

pub use answers::{report_of, value_in};
pub use classing::classes_for;
pub use known::KnownLine;
pub use naming::{Naming, names_all, naming_at, naming_count, namings_of};
pub use part::{Part, constant};
pub use pending::{ActPurpose, boxed, global_value};
pub use place::Place;
pub use reading::{LineReading, read, scanned, tree_of_tokens};
pub use rows::{Deed, NameRow, Rows, result_shape};
pub use values::{StackValue, array_of, owned, settle};
