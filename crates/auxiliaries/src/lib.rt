//! What answers behind shared variables: text files and a clock, each by a protocol of its own over a device.
#![tactic(auto)]

mod answer;
mod clock_aux;
mod file_text;
mod laws;
mod replier;
mod request;
mod text_aux;
mod text_state;
mod threads;

pub use clock_aux::ClockAux;
pub use laws::{
    files_are_read_in_one_way, lines_as_they_stand, repliers_come, requests_as_written,
    runs_give_no_place, runs_go_on, session_as_worked,
};
pub use replier::Replier;
pub use text_aux::TextAux;
pub use threads::auxiliaries_may_cross_threads;
