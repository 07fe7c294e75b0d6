//! The program, from the words of its command line to the bytes that it writes.
#![tactic(auto)]

mod bytes;
mod checking;
mod choices;
mod in_turns;
mod laws;
mod loads;
mod on_threads;
mod output;
mod printed;
mod program;
mod ran;
mod shelf_places;
mod status;
mod summaries;
mod top;
mod verdicts;

pub use bytes::replay_bytes;
pub use checking::aplsv_check_words;
pub use laws::{
    a_bundle_has_one_output, an_input_is_split_in_one_way, outputs_are_determined,
    own_outputs_are_one, printed_control_loses_nothing, replays_are_determined,
};
pub use printed::{
    outputs_are_printed, own_outputs_are_the_bundles, printed_accesses_follow_the_table,
    printed_journals_answer_full_past_their_limit, printed_transcripts_are_evaluated_alone,
    printed_uses_give_the_last_value, relayed_texts_arrive,
};
pub use program::aplsv;
pub use status::{Finish, Status};
pub use summaries::summary;
pub use top::aplsv_replay_words;
