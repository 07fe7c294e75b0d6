//! What a user's lines do, given the answers to their acts, and what a run of a bundle is: definitions, and their laws.
#![tactic(auto)]

mod run_laws;
mod session_laws;
pub mod worked;

pub use run_laws::{
    nothing_follows_the_last_leave, one_transcript_of_parts, others_change_no_auxiliary_part,
    others_change_no_user_part, shelves_keep_their_places,
};
pub use session_laws::{
    answers_are_taken_one_by_one, full_ends_its_line, more_answers_come_back, no_line_leaves,
    the_next_answer_is_taken, transcripts_grow,
};
