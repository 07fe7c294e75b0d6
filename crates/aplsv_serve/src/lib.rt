//! The run on threads: each party of a bundle is a task, and workers give the tasks their turns.
#![tactic(auto)]

mod auxiliary_task;
mod boxed_core;
mod ending;
mod hall;
mod part;
mod party_task;
mod server;
mod start;
mod user_task;

pub use server::{serve, serve_with};
