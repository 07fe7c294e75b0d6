ghost use Rattle.std.specs.Prelude.{◌≡◌, ◌+◌, ◌≤◌, ◌<◌, ◌++◌, ◌∷◌, [], true, false, All, Contains, get_or, length, vec_len, vec_capacity};
ghost use Rattle.sv_offers.specs.Places.{AreOnce, without_coupling};
ghost use Rattle.sv_offers.specs.Slots.{SlotsByMaking, couplings_in, ends_empty, slot_of};
ghost use Rattle.sv_rules.specs.Coupling.{has_place};

use sv_events::Pair;
use sv_rules::Made;

/// A slot for a coupling: the place of the act that made it, and its pair, or none once it has ended.
#[derive(Clone, Copy, PartialEq, Eq)]
pub struct Slot {
    at: u64,
    pair: Option<Pair>,
}

fn slot_of(made: &Made) -> Slot
    ensures { result ≡ slot_of made.now }
{
    Slot {
        at: made.at,
        pair: Some(made.pair),
    }
}

// Where the slot of a coupling is: among those of couplings that were made at one place.
fn place_of(slots: &[Slot], slot: &Slot) -> usize
    requires by_making { SlotsByMaking slots.now }
    requires there { Contains slots.now slot.now }
    ensures within { result < length slots.now }
    ensures here { (other : Slot) → get_or slots.now result other ≡ slot.now }
{
    let first = slots.partition_point(|other| other.at < slot.at);
    for at in first..slots.len() {
        if slots[at] == *slot {
            return at;
        }
    }
    unreachable!()
}

/// One of the couplings goes, that of the offer at a place; its slot is left empty.
pub fn take_out(slots: &mut Vec<Slot>, made: &Made, place: u64)
    requires by_making { SlotsByMaking slots.old.items }
    requires once { AreOnce (couplings_in slots.old.items) }
    requires there { Contains (couplings_in slots.old.items) made.now }
    requires here { has_place place made.now ≡ true }
    ensures items { couplings_in slots.new.items ≡ without_coupling (couplings_in slots.old.items) place }
    ensures by_making { SlotsByMaking slots.new.items }
    ensures len { vec_len slots.new ≡ vec_len slots.old }
    ensures capacity { vec_capacity slots.new ≡ vec_capacity slots.old }
{
    let at = place_of(slots, &slot_of(made));
    slots[at].pair = None;
}

// Whether the last slot is empty.
fn ends_empty(slots: &[Slot]) -> bool
    ensures { result ≡ ends_empty slots.now }
{
    match slots.last() {
        None => false,
        Some(slot) => slot.pair.is_none(),
    }
}

// The empty slots behind the last coupling go, so that the last slot tells when the last coupling was made.
fn trim(slots: &mut Vec<Slot>)
    requires by_making { SlotsByMaking slots.old.items }
    ensures items { couplings_in slots.new.items ≡ couplings_in slots.old.items }
    ensures by_making { SlotsByMaking slots.new.items }
    ensures last { ends_empty slots.new.items ≡ false }
    ensures len { vec_len slots.new ≤ vec_len slots.old }
    ensures capacity { vec_capacity slots.new ≡ vec_capacity slots.old }
{
    while ends_empty(slots) {
        slots.pop();
    }
}

/// One coupling more goes last, where there is room and none was made later.
pub fn put_last(slots: &mut Vec<Slot>, made: &Made)
    requires by_making { SlotsByMaking slots.old.items }
    requires later { All (λ other. other.at ≤ made.now.at) (couplings_in slots.old.items) }
    requires room { vec_len slots.old < vec_capacity slots.old }
    ensures items { couplings_in slots.new.items ≡ couplings_in slots.old.items ++ made.now ∷ [] }
    ensures by_making { SlotsByMaking slots.new.items }
    ensures len { vec_len slots.new ≤ vec_len slots.old + 1 }
    ensures capacity { vec_capacity slots.new ≡ vec_capacity slots.old }
{
    trim(slots);
    slots.push_reserved(slot_of(made));
}

/// The empty slots go, where there are more slots than so many.
pub fn tidy(slots: &mut Vec<Slot>, most: usize)
    requires { SlotsByMaking slots.old.items }
    ensures items { couplings_in slots.new.items ≡ couplings_in slots.old.items }
    ensures by_making { SlotsByMaking slots.new.items }
    ensures len { vec_len slots.new ≤ vec_len slots.old }
    ensures capacity { vec_capacity slots.new ≡ vec_capacity slots.old }
{
    if slots.len() > most {
        slots.retain(|slot| slot.pair.is_some());
    }
}
