//! The single steps, as functions with a plain contract each.
ghost use Rattle.std.specs.Prelude.{◌≡◌, ℕ, ◌%◌, ◌^◌, ◌<◌, [], ◌∷◌, true, false, Some, None, length};
ghost use Rattle.sv_turn.specs.declared.view.SeatStage.TheVariants.{Away, Waits, Holds};
ghost use Rattle.sv_turn.specs.Journals.{AddsOne};
ghost use Rattle.sv_turn.specs.Views.{numbered_view, left_of, right_of, joined_view, ticket_of, at_stage, counted_view};
ghost use Rattle.sv_turn.specs.Plays.{IsHere};

use crate::History;
use crate::order::{Count, Draw, Gathered, Look, Number, Order, Release, Seated, Start};
use crate::view::View;
use atomic_table::{Seat, Shared};

// The words, and the slot.
const TICKET: usize = 0;

const SERVING: usize = 1;

const LENGTH: usize = 2;

const NUMBERS: usize = 3;

const STATE: usize = 0;

/// The maker takes the next party.
pub fn number<S: History>(
    shared: &Shared<Option<S>, View<S::Entry>, Start<S>, Order>,
    place: &mut Seat<Option<S>, View<S::Entry>>,
    party: u32,
)
    requires table { (place.old.table_id ≡ shared.now.table_id) × (shared.now.table_id.words ≡ 4) }
    requires maker { (place.old.me.0.maker ≡ true) × (place.old.me.0.stage ≡ Away) × (0 < place.old.me.0.weight) }
    requires free { (place.old.me.0.account.party ≡ 0) × (place.old.me.0.last < party) }
    ensures table { place.new.table_id ≡ place.old.table_id }
    ensures view { place.new.me ≡ (numbered_view party place.old.me.0, place.old.me.1) }
{
    shared.fetch_max::<Number>(place, NUMBERS, party as u64);
}

/// The maker gives its party to a new seat.
pub fn split<S: History>(
    shared: &Shared<Option<S>, View<S::Entry>, Start<S>, Order>,
    place: &mut Seat<Option<S>, View<S::Entry>>,
) -> Seat<Option<S>, View<S::Entry>>
    requires table { (place.old.table_id ≡ shared.now.table_id) × (shared.now.table_id.words ≡ 4) }
    requires maker { (place.old.me.0.maker ≡ true) × (place.old.me.0.stage ≡ Away) × (1 < place.old.me.0.weight) }
    requires numbered { 0 < place.old.me.0.account.party }
    ensures table { (place.new.table_id ≡ place.old.table_id) × (result.table_id ≡ place.old.table_id) }
    ensures maker { place.new.me ≡ (left_of place.old.me.0, place.old.me.1) }
    ensures seat { result.me ≡ (right_of place.old.me.0, []) }
{
    shared.split_seat::<Seated>(place)
}

/// A seat takes in another.
pub fn gather<S: History>(
    shared: &Shared<Option<S>, View<S::Entry>, Start<S>, Order>,
    place: &mut Seat<Option<S>, View<S::Entry>>,
    other: Seat<Option<S>, View<S::Entry>>,
)
    requires table { (place.old.table_id ≡ shared.now.table_id) × (other.table_id ≡ shared.now.table_id) × (shared.now.table_id.words ≡ 4) }
    requires outside { (place.old.me.0.stage ≡ Away) × (other.me.0.stage ≡ Away) × (other.me.1 ≡ []) }
    requires numbered { (0 < place.old.me.0.account.party) × (0 < other.me.0.account.party) }
    ensures table { place.new.table_id ≡ place.old.table_id }
    ensures view { place.new.me ≡ (joined_view place.old.me.0 other.me.0, place.old.me.1) }
{
    shared.join_seat::<Gathered>(place, other);
}

/// Takes the next ticket.
pub fn draw<S: History>(
    shared: &Shared<Option<S>, View<S::Entry>, Start<S>, Order>,
    place: &mut Seat<Option<S>, View<S::Entry>>,
) -> u64
    requires table { (place.old.table_id ≡ shared.now.table_id) × (shared.now.table_id.words ≡ 4) }
    requires outside { (place.old.me.0.stage ≡ Away) × (0 < place.old.me.0.account.party) }
    ensures table { place.new.table_id ≡ place.old.table_id }
    ensures view { (ticket : ℕ) × (place.new.me ≡ (at_stage (Waits ticket) place.old.me.0, place.old.me.1)) × (result ≡ ticket % 2 ^ 64) }
{
    shared.fetch_add::<Draw>(place, TICKET, 1)
}

/// Whether the turn of a ticket has come. If so, the slot is out with the seat.
pub fn look<S: History>(
    shared: &Shared<Option<S>, View<S::Entry>, Start<S>, Order>,
    place: &mut Seat<Option<S>, View<S::Entry>>,
    ticket: u64,
) -> bool
    requires table { (place.old.table_id ≡ shared.now.table_id) × (shared.now.table_id.words ≡ 4) }
    requires waits { (number : ℕ) × (place.old.me.0.stage ≡ Waits number) × (ticket ≡ number % 2 ^ 64) }
    ensures table { place.new.table_id ≡ place.old.table_id }
    ensures here { result ≡ true → IsHere S.entries S.members_of S.party_of place.old.me place.new.me }
    ensures waits { result ≡ false → place.new.me ≡ place.old.me }
{
    shared.load::<Look>(place, SERVING) == ticket
}

/// The ticket whose turn it is: a look that tells nothing.
pub fn serving<S: History>(shared: &Shared<Option<S>, View<S::Entry>, Start<S>, Order>) -> u64
    requires { shared.now.table_id.words ≡ 4 }
{
    shared.peek(SERVING)
}

/// Takes the state out of the slot.
pub fn take<S: History>(
    shared: &Shared<Option<S>, View<S::Entry>, Start<S>, Order>,
    place: &mut Seat<Option<S>, View<S::Entry>>,
) -> S
    requires table { place.old.table_id ≡ shared.now.table_id }
    requires slot { (state : S) × (place.old.me.1 ≡ (0, Some state) ∷ []) }
    ensures table { place.new.table_id ≡ place.old.table_id }
    ensures state { place.old.me.1 ≡ (0, Some result) ∷ [] }
    ensures slot { place.new.me ≡ (place.old.me.0, (0, None) ∷ []) }
{
    shared.exchange(place, STATE, None).unwrap()
}

/// Puts the state back into the slot.
pub fn put<S: History>(
    shared: &Shared<Option<S>, View<S::Entry>, Start<S>, Order>,
    place: &mut Seat<Option<S>, View<S::Entry>>,
    state: S,
)
    requires table { place.old.table_id ≡ shared.now.table_id }
    requires slot { place.old.me.1 ≡ (0, None) ∷ [] }
    ensures table { place.new.table_id ≡ place.old.table_id }
    ensures slot { place.new.me ≡ (place.old.me.0, (0, Some state) ∷ []) }
{
    let out = shared.exchange(place, STATE, Some(state));
    let None = out else { unreachable!() };
}

/// Gives the turn on. The state is back in the slot, and it is as it was counted.
pub fn release<S: History>(
    shared: &Shared<Option<S>, View<S::Entry>, Start<S>, Order>,
    place: &mut Seat<Option<S>, View<S::Entry>>,
)
    requires table { (place.old.table_id ≡ shared.now.table_id) × (shared.now.table_id.words ≡ 4) }
    requires holds { place.old.me.0.stage ≡ Holds (ticket_of place.old.me.0.stage) }
    requires state { (state : S) × (place.old.me.1 ≡ (0, Some state) ∷ []) × (S.entries state ≡ place.old.me.0.account.known) × (S.members_of state ≡ place.old.me.0.members) }
    ensures table { place.new.table_id ≡ place.old.table_id }
    ensures view { place.new.me ≡ (at_stage Away place.old.me.0, []) }
{
    shared.fetch_add::<Release>(place, SERVING, 1);
}

/// Counts the entry that the state in the slot has more.
pub fn count<S: History>(
    shared: &Shared<Option<S>, View<S::Entry>, Start<S>, Order>,
    place: &mut Seat<Option<S>, View<S::Entry>>,
)
    requires table { (place.old.table_id ≡ shared.now.table_id) × (shared.now.table_id.words ≡ 4) }
    requires holds { place.old.me.0.stage ≡ Holds (ticket_of place.old.me.0.stage) }
    requires state { (state : S) × (place.old.me.1 ≡ (0, Some state) ∷ []) × AddsOne S.party_of place.old.me.0.account.party place.old.me.0.account.known (S.entries state) }
    ensures table { place.new.table_id ≡ place.old.table_id }
    ensures view { (state : S) → place.old.me.1 ≡ (0, Some state) ∷ [] → place.new.me ≡ (counted_view (length (S.entries state)) (S.entries state) place.old.me.0, place.old.me.1) }
{
    shared.fetch_add::<Count>(place, LENGTH, 1);
}
