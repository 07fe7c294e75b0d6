ghost use Rattle.std.specs.Prelude.{◌≡◌, ◌==◌, ◌&&◌, ◌++◌, ◌∷◌, ◌<◌, ◌≤◌, [], All, Contains, IfSome, OnOk, OnErr, filter, find, length, true};
ghost use Rattle.std.specs.List.{list_any};
ghost use Rattle.std.specs.Option.{IsSomeAnd, option_copied, unwrap_or};
ghost use Rattle.sv_offers.specs.Addressed.{places_to};
ghost use Rattle.sv_offers.specs.Places.{ByPlace, without_place};
ghost use Rattle.sv_offers.specs.Senders.{is_party_above};
ghost use Rattle.sv_offers.specs.Table.{is_open_by};
ghost use Rattle.sv_rules.specs.Coupling.{offer_at};
ghost use Rattle.sv_rules.specs.Standing.{is_ended, offer_count, own_offer};

use crate::addressed::Addressed;
use crate::couplings::Couplings;
use crate::index::{Named, note_name, replace_name};
use crate::lists::PartyLists;
use crate::place_set::PlaceSet;
use crate::placed::PlacedOffers;
use crate::senders::Senders;
use apl_arrays::{Name, WantOfMemory};
use std::alloc::Global;
use std::collections::HashMap;
use std::marker::Model;
use sv_events::Ending;
use sv_rules::{Standing, own_offer};

/// Whether an act of a party ends an offer.
pub fn is_ended(party: u32, ending: &Ending, offer: &Standing) -> bool
    ensures { result ≡ is_ended party ending.now offer.now }
{
    match ending {
        Ending::One(local) => offer.party == party && offer.local == *local,
        Ending::All => offer.party == party,
    }
}

/// Offers by place, each found without going over those of others: by its place, by its party, by the party that it is made
/// to and its surrogate, and by its party and its local name; and who made offers to a party, from one to the next.
#[derive(Drop)]
pub struct Standings {
    placed: PlacedOffers,
    own: PartyLists,
    made_to: Addressed,
    senders: Senders,
    named: Named,
}

impl Model for Standings {
    ghost use Rattle.std.specs.Prelude.{List};
    ghost use Rattle.sv_offers.specs.Inside.{AreFound};
    ghost use Rattle.sv_rules.specs.declared.standing.Standing.{Standing};

    ghost Value = { List Standing };

    ghost view = { λ s. s.placed };

    ghost invariant = { AreFound };
}

impl Standings {
    /// No offers.
    pub fn new(alloc: Global) -> Standings
        ensures { result ≡ [] }
    {
        Standings {
            placed: PlacedOffers::new(alloc),
            own: PartyLists::new(alloc),
            made_to: Addressed::new(alloc),
            senders: Senders::new(alloc),
            named: HashMap::new(alloc),
        }
    }

    /// How many offers there are.
    pub fn len(&self) -> usize
        ensures { result ≡ length self.now }
    {
        self.placed.len()
    }

    /// A party's offers, by place.
    pub fn of(&self, party: u32) -> &[Standing]
        ensures { result.now ≡ filter (λ offer. offer.party == party) self.now }
    {
        self.own.of(party)
    }

    /// The places of the offers made to a party by its number, of one surrogate or of all, if there are any.
    pub fn places_to(&self, party: u32, surrogate: Option<Name>) -> Option<&PlaceSet>
        ensures places { unwrap_or (option_copied result) [] ≡ places_to self.now party surrogate }
        ensures by_place { ByPlace self.now }
    {
        self.made_to.of(party, surrogate)
    }

    /// Of the parties that made offers to a party by its number the lowest, or the lowest above another, if there is
    /// one.
    pub fn next_sender(&self, to: u32, last: Option<u32>) -> Option<u32>
        ensures above { IfSome result (λ next. is_party_above last next ≡ true) }
        ensures made { IfSome result (λ next. list_any (λ offer. offer.to == to && offer.party == next) self.now ≡ true) }
        ensures lowest { All (λ offer. offer.to ≡ to → is_party_above last offer.party ≡ true → IsSomeAnd result (λ next. next ≤ offer.party)) self.now }
    {
        self.senders.next(to, last)
    }

    /// Whether a party has an open offer that is made to another by its number.
    pub fn has_open(&self, coupled: &Couplings, to: u32, from: u32) -> bool
        ensures { result ≡ list_any (is_open_by coupled.now.items to from) self.now }
    {
        self.senders.has_open(coupled, to, from)
    }

    /// The offer of a party of a local name, if there is one.
    pub fn find(&self, party: u32, local: &Name) -> Option<Standing>
        ensures { result ≡ own_offer self.now party local.now }
    {
        self.named.get(&(party, *local)).copied()
    }

    /// The offer at a place, if there is one.
    pub fn at(&self, place: u64) -> Option<Standing>
        ensures { result ≡ offer_at self.now place }
    {
        self.placed.at(place)
    }

    /// How many offers are a party's.
    pub fn count(&self, party: u32) -> usize
        ensures { result ≡ offer_count self.now party }
    {
        self.of(party).len()
    }

    /// One offer more, at a place above all, which goes last. It takes memory; after `WantOfMemory` all is as before.
    pub fn add(&mut self, new: &Standing) -> Result<(), WantOfMemory>
        requires { All (λ offer. offer.place < new.now.place) self.old }
        ensures ok { OnOk result (self.new ≡ self.old ++ new.now ∷ []) }
        ensures err { OnErr result (self.new ≡ self.old) }
    {
        self.named.reserve(1)?;
        self.own.reserve(new.party)?;
        self.placed.add(new)?;
        if let Err(WantOfMemory) = self.made_to.add(new) {
            self.placed.remove(new.place);
            return Err(WantOfMemory);
        }
        if let Err(WantOfMemory) = self.senders.add(new) {
            self.made_to.remove(new);
            self.placed.remove(new.place);
            return Err(WantOfMemory);
        }
        self.own.push(new);
        note_name(&mut self.named, new);
        Ok(())
    }

    /// The first offer that an act of a party ends, if there is one.
    pub fn first_ended(&self, party: u32, ending: &Ending) -> Option<Standing>
        ensures { result ≡ find (is_ended party ending.now) self.now }
    {
        self.of(party)
            .iter()
            .find(|offer| is_ended(party, ending, offer))
            .copied()
    }

    /// One of the offers goes.
    pub fn remove(&mut self, offer: &Standing)
        requires { Contains self.old offer.now }
        ensures { self.new ≡ without_place self.old offer.now.place }
    {
        self.own.remove(offer.party, offer.place);
        self.made_to.remove(offer);
        self.senders.remove(offer);
        self.placed.remove(offer.place);
        let next = own_offer(self.own.of(offer.party), offer.party, &offer.local);
        replace_name(&mut self.named, offer, next);
    }
}
