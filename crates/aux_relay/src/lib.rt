//! A relay of texts between users: what one sends waits until the other takes it.
#![tactic(auto)]

mod laws;
mod queues;
mod relay;
mod request;

pub use laws::{
    replies_are_relayed, replies_as_worked, requests_as_written, what_is_taken_was_given,
};
pub use relay::Relay;
