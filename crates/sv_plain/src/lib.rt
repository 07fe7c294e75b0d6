//! The rules as a plain program: it goes over the entries anew for each question, and keeps no table. With worked
//! journals, that are legal or not by the definitions.
#![tactic(auto)]

mod asking;
mod couplings;
mod holding;
mod legal;
mod offers;
mod outcome;
mod room;
mod stories;
mod vectors;
mod waiting;
pub mod worked;
mod working;

pub use couplings::{couplings_of, made_by_ending};
pub use legal::is_legal;
pub use offers::{stand_after, standing_offers};
pub use outcome::{ActOutcome, outcome_of};
pub use room::is_full;
pub use waiting::{is_stuck, refused};
pub use working::work_of;
