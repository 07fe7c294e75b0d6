//! The text of a journal: entries both ways, and the output that a run writes, which is read in one way.
#![tactic(auto)]

mod act_reading;
mod act_text;
mod act_word;
mod answer_reading;
mod answer_text;
mod entry_reading;
mod entry_text;
mod hold_reading;
mod hold_text;
mod journal;
mod word;
pub mod worked;

pub use entry_reading::{EntryRefused, read};
pub use entry_text::{an_entry_is_read_in_one_way, text_of};
pub use journal::{add_journal, an_output_is_read_in_one_way};
pub use sv_text::{ValueRefused, value_of, value_text};
