ghost use Rattle.std.specs.Prelude.{◌≡◌, Contains, None, Some, IsSome, IfSome};
ghost use Rattle.std.specs.Option.{option_copied};
ghost use Rattle.sv_access.specs.Story.{last_value, state_of_story};
ghost use Rattle.sv_rules.specs.Control.{in_force_with, partners_vector, state_vector, vector_of};
ghost use Rattle.sv_rules.specs.Coupling.{coupling_now};
ghost use Rattle.sv_rules.specs.Outcome.{value_for};
ghost use Rattle.sv_rules.specs.Refused.{hold_on};
ghost use Rattle.sv_rules.specs.Standing.{standing};
ghost use Rattle.sv_cell_laws.specs.Fits.{FitsShare};
ghost use Rattle.sv_kept.specs.Cell.{share_in};
ghost use Rattle.sv_core.specs.Core.{IsFound};
ghost use Rattle.sv_core.specs.Due.{is_partners_unseen};
ghost use Rattle.sv_rules.specs.Story.{known, opening, story};
ghost use Rattle.sv_rules.specs.Work.{has_unseen};
ghost use Rattle.sv_kept.specs.Share.{PlainShare};
ghost use Rattle.sv_story_laws.specs.StoryLaws.{offer_on};

use crate::Core;
use apl_arrays::Array;
use sv_access::{AccessState, Control, Kind, NO_CONTROL, Side, join, view};
use sv_events::Hold;
use sv_kept::{CellContent, Share, alone};
use sv_rules::{Coupling, Standing, hold_by_state, side_at};

impl Core {
    // The vector of a standing offer, in its party's view.
    pub(crate) fn vector(&self, offer: &Standing) -> Control
        requires { Contains (standing self.now.journal) offer.now }
        ensures { result ≡ vector_of self.now.journal offer.now }
    {
        match self.cells.get(offer.place) {
            None => NO_CONTROL,
            Some(cell) => cell.vector,
        }
    }

    // The coupling of the offer at a place, if it has one.
    pub(crate) fn coupling(&self, place: u64) -> Option<Coupling>
        ensures value { result ≡ coupling_now self.now.journal place }
        ensures found { IfSome result (IsFound self.now.journal place) }
    {
        self.offers.coupling(place)
    }

    // The coupling of a standing offer, if it has one.
    pub(crate) fn coupling_on(&self, offer: &Standing) -> Option<Coupling>
        requires { Contains (standing self.now.journal) offer.now }
        ensures value { result ≡ coupling_now self.now.journal offer.now.place }
        ensures found { IfSome result (IsFound self.now.journal offer.now.place) }
    {
        self.offers.coupling_on(offer)
    }

    // The value that is known of an open offer.
    fn known_alone(&self, offer: &Standing) -> Option<&Array>
        requires stands { Contains (standing self.now.journal) offer.now }
        requires open { coupling_now self.now.journal offer.now.place ≡ None }
        ensures { option_copied result ≡ known self.now.journal offer.now }
    {
        match self.cells.get(offer.place) {
            None => None,
            Some(cell) => cell.held.known(),
        }
    }

    // The vector of an open offer, in its party's view, and its state.
    fn opened(&self, offer: &Standing) -> VectorAndState
        requires stands { Contains (standing self.now.journal) offer.now }
        requires open { coupling_now self.now.journal offer.now.place ≡ None }
        ensures vector { result.vector ≡ vector_of self.now.journal offer.now }
        ensures state { result.state ≡ state_of_story (opening Side.A self.now.journal offer.now) }
    {
        match self.cells.get(offer.place) {
            None => unreachable!(),
            Some(cell) => VectorAndState {
                vector: cell.vector,
                state: alone(cell.held.known().is_some()),
            },
        }
    }

    // The share of a coupling.
    fn share(&self, coupling: &Coupling) -> Option<&Share>
        requires { coupling_now self.now.journal coupling.now.a.place ≡ Some coupling.now }
        ensures fits { IfSome (option_copied result) (FitsShare self.now.journal coupling.now) }
        ensures some { IsSome result }
    {
        match self.cells.get(coupling.a.place) {
            None => None,
            Some(cell) => cell.held.share(),
        }
    }

    // The state of a coupling.
    fn state(&self, coupling: &Coupling) -> AccessState
        requires { coupling_now self.now.journal coupling.now.a.place ≡ Some coupling.now }
        ensures { result ≡ state_of_story (story self.now.journal coupling.now) }
    {
        match self.share(coupling) {
            None => AccessState::Quiet,
            Some(share) => share.state(),
        }
    }

    // The value that a side of a coupling knows.
    fn known_to(&self, coupling: &Coupling, side: Side) -> Option<&Array>
        requires { coupling_now self.now.journal coupling.now.a.place ≡ Some coupling.now }
        ensures { option_copied result ≡ known self.now.journal (offer_on coupling.now side) }
    {
        match self.share(coupling) {
            None => None,
            Some(share) => share.known(side),
        }
    }

    // The value that was set last on either side of a coupling.
    fn last_value(&self, coupling: &Coupling) -> Option<&Array>
        requires { coupling_now self.now.journal coupling.now.a.place ≡ Some coupling.now }
        ensures { option_copied result ≡ last_value (story self.now.journal coupling.now) }
    {
        match self.share(coupling) {
            None => None,
            Some(share) => share.last(),
        }
    }

    // What the party of a standing offer knows.
    pub(crate) fn known(&self, offer: &Standing) -> Option<&Array>
        requires { Contains (standing self.now.journal) offer.now }
        ensures { option_copied result ≡ known self.now.journal offer.now }
    {
        match self.coupling_on(offer) {
            None => self.known_alone(offer),
            Some(coupling) => self.known_to(&coupling, side_at(&coupling, offer.place)),
        }
    }

    // What a use of a standing offer gives, by its coupling.
    pub(crate) fn value_for(&self, offer: &Standing, coupling: &Option<Coupling>) -> Option<&Array>
        requires stands { Contains (standing self.now.journal) offer.now }
        requires coupled { coupling.now ≡ coupling_now self.now.journal offer.now.place }
        requires found { IfSome coupling.now (IsFound self.now.journal offer.now.place) }
        ensures { option_copied result ≡ value_for self.now.journal offer.now (coupling_now self.now.journal offer.now.place) }
    {
        match coupling {
            None => self.known_alone(offer),
            Some(coupling) => self.last_value(coupling),
        }
    }

    // The vector of the lower offer of a coupling, in its party's view, and the state of the coupling.
    fn lower(&self, coupling: &Coupling) -> VectorAndState
        requires { coupling_now self.now.journal coupling.now.a.place ≡ Some coupling.now }
        ensures vector { result.vector ≡ vector_of self.now.journal coupling.now.a }
        ensures state { result.state ≡ state_of_story (story self.now.journal coupling.now) }
    {
        match self.cells.get(coupling.a.place) {
            None => unreachable!(),
            Some(cell) => VectorAndState {
                vector: cell.vector,
                state: state_held(&cell.held),
            },
        }
    }

    // What refuses an access on a standing offer, if anything does, by its coupling.
    pub(crate) fn hold_on(
        &self,
        offer: &Standing,
        coupling: &Option<Coupling>,
        kind: Kind,
    ) -> Option<Hold>
        requires stands { Contains (standing self.now.journal) offer.now }
        requires coupled { coupling.now ≡ coupling_now self.now.journal offer.now.place }
        requires found { IfSome coupling.now (IsFound self.now.journal offer.now.place) }
        ensures { result ≡ hold_on self.now.journal kind (Some offer.now) }
    {
        match coupling {
            None => {
                let open = self.opened(offer);
                hold_by_state(open.vector, NO_CONTROL, open.state, Side::A, kind)
            }
            Some(coupling) => {
                let lower = self.lower(coupling);
                let of_b = self.vector(&coupling.b);
                let side = side_at(coupling, offer.place);
                hold_by_state(lower.vector, of_b, lower.state, side, kind)
            }
        }
    }

    // The vector of the partner of a standing offer, in the partner's view: none while it is open.
    fn partners_vector(&self, offer: &Standing) -> Control
        requires { Contains (standing self.now.journal) offer.now }
        ensures { result ≡ partners_vector self.now.journal offer.now.place (coupling_now self.now.journal offer.now.place) }
    {
        match self.coupling_on(offer) {
            None => NO_CONTROL,
            Some(coupling) => {
                if coupling.a.place == offer.place {
                    self.vector(&coupling.b)
                } else {
                    self.vector(&coupling.a)
                }
            }
        }
    }

    // The control in force with a vector of the party's own, in its own view.
    pub(crate) fn in_force_with(&self, own: Control, offer: &Standing) -> Control
        requires { Contains (standing self.now.journal) offer.now }
        ensures { result ≡ in_force_with self.now.journal own offer.now }
    {
        join(own, self.partners_vector(offer))
    }

    // The state vector of a standing offer, in its party's view: none below degree 2.
    pub(crate) fn state_vector(&self, offer: &Standing) -> Control
        requires { Contains (standing self.now.journal) offer.now }
        ensures { result ≡ state_vector self.now.journal (Some offer.now) }
    {
        match self.coupling_on(offer) {
            None => NO_CONTROL,
            Some(coupling) => view(self.state(&coupling), side_at(&coupling, offer.place)),
        }
    }

    // Whether a set of the partner is unseen, on a coupled offer.
    pub(crate) fn has_unseen(&self, offer: &Standing, coupling: &Coupling) -> bool
        requires { coupling_now self.now.journal coupling.now.a.place ≡ Some coupling.now }
        ensures { result ≡ has_unseen self.now.journal offer.now coupling.now }
    {
        is_partners_unseen(self.state(coupling), side_at(coupling, offer.place))
    }
}

// What one cell tells of an access: the look-up is made once for both.
#[derive(Clone, Copy, Debug, PartialEq, Eq)]
struct VectorAndState {
    vector: Control,
    state: AccessState,
}

// The state of the share that is held.
fn state_held(held: &CellContent) -> AccessState
    ensures { (share : PlainShare) → share_in held.now ≡ Some share → result ≡ share.state }
{
    match held.share() {
        None => AccessState::Quiet,
        Some(share) => share.state(),
    }
}

// Whether a set of the other side is unseen, by the state.
fn is_partners_unseen(state: AccessState, side: Side) -> bool
    ensures { result ≡ is_partners_unseen state side }
{
    match side {
        Side::A => matches!(state, AccessState::UnseenB),
        Side::B => matches!(state, AccessState::UnseenA),
    }
}
