//! A user's lines: a session that does them one after another, its transcript, and how a run ended.
#![tactic(auto)]

mod alone;
mod commands;
mod errand;
mod lines;
mod outcome;
mod progress;
mod receipts;
mod session;
mod spare;
mod threads;
mod transcripts;
mod under_way;

pub use outcome::{Ended, FinishedRun, RunOf};
pub use receipts::{Receipt, Receipts};
pub use session::{Need, Session, SessionParts, SessionStage, Wants};
pub use threads::sessions_may_cross_threads;
pub use transcripts::{Transcript, Transcripts};
