//! What a journal says to those who read it: laws of each entry by the entries before it, and of each user's transcript.
//! The calls do nothing.
#![tactic(auto)]

mod laws;

pub use laws::{
    accesses_follow_the_table, full_journals_take_leaves_alone, transcripts_are_evaluated_alone,
    uses_give_the_last_value,
};
