ghost use Rattle.std.specs.Prelude.{◌≡◌, ◌==◌, ◌≤◌, ◌<◌, ◌^◌, ◌&&◌, ◌||◌, ℕ, true, false, not, None, Some, IfSome, OnOk, OnErr, if◌then◌else◌};
ghost use Rattle.std.specs.Bool.{OnFalse, OnTrue};
ghost use Rattle.std.specs.Option.{IsSomeAnd};
ghost use Rattle.sv_offers.specs.Senders.{has_sent, is_party_above, is_sent, start_after};
ghost use Rattle.sv_rules.specs.Coupling.{is_coupled};

use crate::couplings::Couplings;
use apl_arrays::WantOfMemory;
use std::alloc::Global;
use std::collections::BTreeSet;
use std::ops::Bound;
use sv_rules::Standing;

// Of an offer the party that it is made to, the party that made it, and its place.
type Key = (u32, u32, u64);

/// Which parties made offers to which, and at what places: the keys of all offers, in order.
#[derive(Drop)]
pub struct Senders {
    sent: BTreeSet<Key>,
}

// The key of an offer to a party from another, at a place.
fn key_of(to: u32, from: u32, place: u64) -> Key
    ensures key { result ≡ (to, from, place) }
    ensures fits { place < 2 ^ 64 }
{
    (to, from, place)
}

// Where the offers to a party begin, or where those of one that made some end.
fn start_after(to: u32, last: Option<u32>) -> Bound<Key>
    ensures { result ≡ start_after to last }
{
    match last {
        None => Bound::Included((to, 0, 0)),
        Some(last) => Bound::Excluded((to, last, u64::MAX)),
    }
}

// The party that made the offer of a key, if the offer is made to this party.
fn sender(key: Key, to: u32) -> Option<u32>
    ensures fits { key.2 < 2 ^ 64 }
    ensures sender { result ≡ (if key.0 == to then Some key.1 else None) }
{
    if key.0 == to { Some(key.1) } else { None }
}

impl Senders {
    /// No offers.
    pub fn new(alloc: Global) -> Senders
        ensures { (to from place : ℕ) → has_sent result to from place ≡ false }
    {
        Senders {
            sent: BTreeSet::new(alloc),
        }
    }

    /// One offer more, whose place has 64 bits. It takes memory; after `WantOfMemory` all is as before.
    pub fn add(&mut self, new: &Standing) -> Result<(), WantOfMemory>
        ensures ok { OnOk result ((to from place : ℕ) → has_sent self.new to from place ≡ (is_sent to from place new.now || has_sent self.old to from place)) }
        ensures err { OnErr result ((to from place : ℕ) → has_sent self.new to from place ≡ has_sent self.old to from place) }
        ensures fits { new.now.place < 2 ^ 64 }
    {
        self.sent.insert(key_of(new.to, new.party, new.place))?;
        Ok(())
    }

    /// An offer goes.
    pub fn remove(&mut self, offer: &Standing)
        ensures { (to from place : ℕ) → has_sent self.new to from place ≡ (not (is_sent to from place offer.now) && has_sent self.old to from place) }
    {
        self.sent
            .remove(&key_of(offer.to, offer.party, offer.place));
    }

    /// Of the parties that made offers to a party the lowest, or the lowest above another, if there is one.
    pub fn next(&self, to: u32, last: Option<u32>) -> Option<u32>
        ensures above { IfSome result (λ from. is_party_above last from ≡ true) }
        ensures made { IfSome result (λ from. (place : ℕ) × (has_sent self.now to from place ≡ true)) }
        ensures lowest { (from place : ℕ) → is_party_above last from ≡ true → has_sent self.now to from place ≡ true → IsSomeAnd result (λ next. next ≤ from) }
    {
        let range = (start_after(to, last), Bound::Unbounded);
        let key = self.sent.range(range).next()?;
        sender(*key, to)
    }

    /// Whether some offer of a party to another is in none of these couplings.
    pub fn has_open(&self, coupled: &Couplings, to: u32, from: u32) -> bool
        ensures some { OnTrue result ((place : ℕ) × (has_sent self.now to from place ≡ true) × (is_coupled coupled.now.items place ≡ false)) }
        ensures none { OnFalse result ((place : ℕ) → place < 2 ^ 64 → has_sent self.now to from place ≡ true → is_coupled coupled.now.items place ≡ true) }
    {
        let range = (
            Bound::Included((to, from, 0)),
            Bound::Included((to, from, u64::MAX)),
        );
        self.sent.range(range).any(|key| !coupled.has(key.2))
    }
}
