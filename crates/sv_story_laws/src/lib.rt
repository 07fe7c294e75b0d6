//! The laws of stories, control, waiting, work, steps, answers and questions. The calls do nothing.
#![tactic(auto)]

mod answers;
mod laws;

pub use answers::{answer_law, question_law};
pub use laws::{control_law, opening_law, step_law, story_law, wait_law, work_law};
