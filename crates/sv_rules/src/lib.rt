//! Which entry may follow a journal. The definitions stand in `specs/`; here are the look-ups that compute them.
#![tactic(auto)]

mod control;
mod coupling;
mod entries;
mod limits;
mod listing;
mod standing;
mod story;
mod weight;
mod work;

pub use apl_arrays::OFFER_LIMIT;
pub use control::{control_on, hold_by_state, refusal_answer, side_at};
pub use coupling::{
    Coupling, Made, both_stand, coupling_at, degree_at, is_coupled, keep_couplings, open_match,
    pair_of, rejoined,
};
pub use entries::{has_left, is_abandoned, is_degree, is_granted, is_held, is_leave, is_value};
pub use limits::{ENTRY_LIMIT, HELD_LIMIT, limits_are_as_defined};
pub use listing::{names_of, parties_of};
pub use standing::{Standing, end_together, is_match, offer_count, own_offer};
pub use story::{kind_on, known_value, value_on};
pub use weight::capped_weight;
pub use work::tries;
