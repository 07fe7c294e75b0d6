ghost use Rattle.std.specs.Prelude.{◌≡◌};
ghost use Rattle.sv_access.specs.Story.{Story, state_of_story};
ghost use Rattle.apl_arrays.specs.Array.{PlainArray};
ghost use Rattle.sv_events.specs.Answer.{plain_answer};
ghost use Rattle.sv_events.specs.Entry.{plain_entry};
ghost use Rattle.sv_rules.specs.Control.{control_on, control_to, side_at};
ghost use Rattle.sv_rules.specs.Outcome.{refusal_answer};
ghost use Rattle.sv_rules.specs.Refused.{hold_under};

use crate::{Coupling, Standing};
use apl_arrays::Name;
use sv_access::{AccessState, Control, Kind, Side, Verdict, decide, join, owners};
use sv_events::{Answer, Controlling, Entry, Hold};

// The control that is set on a local name, if one is.
fn control_to(local: &Name, set: Option<Controlling>) -> Option<Control>
    ensures { result ≡ control_to local.now set }
{
    let set = set?;
    if set.local == *local {
        Some(set.control)
    } else {
        None
    }
}

/// The control that an entry sets on an offer: its party's, on its local name.
pub fn control_on(offer: &Standing, entry: &Entry) -> Option<Control>
    ensures { result ≡ control_on offer.now (plain_entry entry.now) }
{
    if entry.party == offer.party {
        control_to(&offer.local, entry.act.row().controls)
    } else {
        None
    }
}

/// The side of the offer at a place.
pub fn side_at(coupling: &Coupling, place: u64) -> Side
    ensures { result ≡ side_at coupling.now place }
{
    if coupling.a.place == place {
        Side::A
    } else {
        Side::B
    }
}

/// What refuses an access, if anything does, by the vectors of sides A and B, each in its owner's view, by the state of the
/// story and by the side of the party.
pub fn hold_by_state(
    a: Control,
    b: Control,
    state: AccessState,
    side: Side,
    kind: Kind,
) -> Option<Hold>
    ensures { (told : Story PlainArray) → state_of_story told ≡ state → result ≡ hold_under (record { story = told; a = a; b = b; side = side }) kind }
{
    match decide(join(a, b), state, side, kind) {
        Verdict::Granted => None,
        Verdict::Held(element) => Some(Hold {
            element,
            owners: owners(a, b, side, element),
        }),
    }
}

/// The answer to a refused access: it is held, and given up where its party waits already.
pub fn refusal_answer(waits: bool, hold: Hold) -> Answer
    ensures { plain_answer result ≡ refusal_answer waits hold }
{
    if waits {
        Answer::Abandoned(hold)
    } else {
        Answer::Held(hold)
    }
}
