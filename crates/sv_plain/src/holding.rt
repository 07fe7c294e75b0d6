ghost use Rattle.std.specs.Prelude.{◌≡◌, Some, IfOk};
ghost use Rattle.sv_rules.specs.Control.{control_in_force, in_force_with, sharing_of, state_vector_of, state_vector};
ghost use Rattle.sv_rules.specs.Coupling.{couplings};
ghost use Rattle.sv_rules.specs.Journal.{journal_of};
ghost use Rattle.sv_rules.specs.Refused.{hold_on, hold_under};
ghost use Rattle.sv_rules.specs.Standing.{standing};

use crate::stories::{opening_state, story_state};
use crate::vectors::{partners_vector, vector_of};
use apl_arrays::WantOfMemory;
use std::alloc::Global;
use sv_access::{Control, Kind, NO_CONTROL, Side, join, view};
use sv_events::{Entry, Hold};
use sv_rules::{Coupling, Made, Standing, coupling_at, hold_by_state, side_at};

// What refuses an access of an offer's party, by its coupling.
fn hold_in(
    alloc: Global,
    entries: &[Entry],
    offer: &Standing,
    kind: Kind,
    coupling: Option<Coupling>,
) -> Result<Option<Hold>, WantOfMemory>
    ensures { IfOk result (λ hold. hold ≡ hold_under (sharing_of (journal_of entries.now) offer.now coupling) kind) }
{
    match coupling {
        None => {
            let opened = opening_state(alloc, entries, offer, Side::A)?;
            let own = vector_of(entries, offer);
            let alone = hold_by_state(own, NO_CONTROL, opened, Side::A, kind);
            Ok(alone)
        }
        Some(coupling) => {
            let shared = story_state(alloc, entries, &coupling)?;
            let of_a = vector_of(entries, &coupling.a);
            let of_b = vector_of(entries, &coupling.b);
            let side = side_at(&coupling, offer.place);
            let joint = hold_by_state(of_a, of_b, shared, side, kind);
            Ok(joint)
        }
    }
}

/// What refuses an access of its party on a standing offer, if anything does. It takes memory for the offers and the
/// couplings of each entry in turn.
pub fn hold_on(
    alloc: Global,
    entries: &[Entry],
    offers: &[Standing],
    coupled: &[Made],
    offer: &Standing,
    kind: Kind,
) -> Result<Option<Hold>, WantOfMemory>
    requires offers { offers.now ≡ standing (journal_of entries.now) }
    requires coupled { coupled.now ≡ couplings (journal_of entries.now) }
    ensures { IfOk result (λ hold. hold ≡ hold_on (journal_of entries.now) kind (Some offer.now)) }
{
    let coupling = coupling_at(offers, coupled, offer.place);
    hold_in(alloc, entries, offer, kind, coupling)
}

/// The control in force with a vector of the party's own, in its own view.
pub fn in_force_with(
    entries: &[Entry],
    offers: &[Standing],
    coupled: &[Made],
    own: Control,
    offer: &Standing,
) -> Control
    requires offers { offers.now ≡ standing (journal_of entries.now) }
    requires coupled { coupled.now ≡ couplings (journal_of entries.now) }
    ensures { result ≡ in_force_with (journal_of entries.now) own offer.now }
{
    let coupling = coupling_at(offers, coupled, offer.place);
    join(own, partners_vector(entries, offer.place, coupling))
}

/// The control in force, in the party's own view: none without an offer.
pub fn control_in_force(
    entries: &[Entry],
    offers: &[Standing],
    coupled: &[Made],
    own: Option<Standing>,
) -> Control
    requires offers { offers.now ≡ standing (journal_of entries.now) }
    requires coupled { coupled.now ≡ couplings (journal_of entries.now) }
    ensures { result ≡ control_in_force (journal_of entries.now) own }
{
    match own {
        None => NO_CONTROL,
        Some(offer) => in_force_with(entries, offers, coupled, vector_of(entries, &offer), &offer),
    }
}

/// The state vector, in the party's own view: none below degree 2. It takes memory for the offers and the couplings of
/// each entry in turn.
pub fn state_vector(
    alloc: Global,
    entries: &[Entry],
    offers: &[Standing],
    coupled: &[Made],
    own: Option<Standing>,
) -> Result<Control, WantOfMemory>
    requires offers { offers.now ≡ standing (journal_of entries.now) }
    requires coupled { coupled.now ≡ couplings (journal_of entries.now) }
    ensures { IfOk result (λ vector. vector ≡ state_vector (journal_of entries.now) own) }
{
    match own {
        None => Ok(NO_CONTROL),
        Some(offer) => {
            let coupling = coupling_at(offers, coupled, offer.place);
            state_of(alloc, entries, offer.place, coupling)
        }
    }
}

// The state vector of a coupling, in the view of the offer at a place.
fn state_of(
    alloc: Global,
    entries: &[Entry],
    place: u64,
    coupling: Option<Coupling>,
) -> Result<Control, WantOfMemory>
    ensures { IfOk result (λ vector. vector ≡ state_vector_of (journal_of entries.now) place coupling) }
{
    match coupling {
        None => Ok(NO_CONTROL),
        Some(coupling) => {
            let state = story_state(alloc, entries, &coupling)?;
            let side = side_at(&coupling, place);
            Ok(view(state, side))
        }
    }
}
