//! The auxiliary parties: a table.
#![tactic(auto)]

mod auxiliary;

pub use auxiliary::{
    AUXILIARIES, AuxiliaryKind, AuxiliaryRow, CLOCK_PARTY, TEXT_PARTY,
    auxiliaries_are_ten_and_twenty, auxiliary_at, is_auxiliary, most_counters,
};
