ghost use Rattle.std.specs.Prelude.{◌≡◌};
ghost use Rattle.sv_rules.specs.Control.{vector_of, partners_vector};
ghost use Rattle.sv_rules.specs.Journal.{journal_of};

use sv_access::{Control, NO_CONTROL};
use sv_events::Entry;
use sv_rules::{Coupling, Standing, control_on};

/// The vector of an offer, in its party's view: the last control that its party set on it since, else none.
pub fn vector_of(entries: &[Entry], offer: &Standing) -> Control
    ensures { result ≡ vector_of (journal_of entries.now) offer.now }
{
    let mut left = entries.len();
    while left > 0 {
        if offer.place >= left as u64 {
            return NO_CONTROL;
        }
        if let Some(control) = control_on(offer, &entries[left - 1]) {
            return control;
        }
        left -= 1;
    }
    NO_CONTROL
}

/// The vector of the partner of the offer at a place, in the partner's view: none while the offer is open.
pub fn partners_vector(entries: &[Entry], place: u64, coupling: Option<Coupling>) -> Control
    ensures { result ≡ partners_vector (journal_of entries.now) place coupling }
{
    match coupling {
        None => NO_CONTROL,
        Some(coupling) => {
            let partner = if coupling.a.place == place {
                coupling.b
            } else {
                coupling.a
            };
            vector_of(entries, &partner)
        }
    }
}
