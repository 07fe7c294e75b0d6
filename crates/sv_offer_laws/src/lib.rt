//! The laws of standing offers, couplings, offers that are made, legal journals, leaves and retractions. The calls do nothing.
#![tactic(auto)]

mod laws;

pub use laws::{coupling_law, ending_law, legal_law, offer_law, standing_law};
