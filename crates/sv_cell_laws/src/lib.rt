//! What is kept of standing offers is what the definitions say, and goes on with the journal.
#![tactic(auto)]

mod laws;

pub use laws::{
    cells_go_on_with_journals, cells_part_where_offers_end, entries_touch_what_they_name,
};
