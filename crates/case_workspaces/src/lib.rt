//! What the tables of workspaces have in common: the steps that make a workspace, the questions that it is asked, functions
//! and offers as text, numbers, and values that are lent, kept and let go.
#![tactic(auto)]

mod conditions;
mod functions;
mod holding;
mod numbers;
mod questions;
mod scripts;
mod steps;

pub use conditions::{is_function, is_variable, takes};
pub use functions::{LINE_END, function_of, function_text};
pub use holding::{both, kept, lent};
pub use numbers::natural_of;
pub use questions::{answers, offers_text, seen_text};
pub use scripts::{STEP_END, script_text, workspace_of};
pub use steps::{Outcome, step};
