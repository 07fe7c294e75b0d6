ghost use Rattle.std.specs.Prelude.{◌≡◌, ◌==◌, ◌≤◌, [], ◌++◌, true, Some, filter, find, length, IfOk, OnOk, OnErr};
ghost use Rattle.sv_offers.specs.Places.{IsNext};
ghost use Rattle.sv_offers.specs.Table.{after_ending, after_offer, open_among, pairs_made};
ghost use Rattle.sv_rules.specs.Questions.{parties_of, surrogates_of};
ghost use Rattle.sv_rules.specs.Coupling.{coupling_at, degree_at, is_coupled, offer_at, open_match, reopened_by_ending};
ghost use Rattle.sv_rules.specs.Standing.{offer_count, own_offer};

use crate::couplings::Couplings;
use crate::ending::end_all;
use crate::listing::{first_to, names_to, parties_to};
use crate::matching::{coupling_at, coupling_on, open_match};
use crate::room::{join, recouple};
use crate::standings::Standings;
use apl_arrays::{Name, NameList, PartyList, WantOfMemory};
use std::alloc::Global;
use std::marker::Model;
use sv_events::{Ending, PairList};
use sv_rules::{Coupling, Standing};

/// The offers that stand, by place, and the couplings, in the order in which they were made.
#[derive(Drop)]
pub struct Offers {
    offers: Standings,
    coupled: Couplings,
    // Room to note the offers that an ending reopens.
    reopened: Vec<Standing>,
}

impl Model for Offers {
    ghost use Rattle.sv_offers.specs.Table.{PlainOffers};

    ghost Value = { PlainOffers };

    ghost use Rattle.sv_offers.specs.Kept.{IsWholeIndex, plain_offers};

    ghost view = { plain_offers };

    ghost invariant = { IsWholeIndex };
}

impl Offers {
    /// No offers.
    pub fn new(alloc: Global) -> Offers
        ensures { result ≡ record { offers = []; coupled = [] } }
    {
        Offers {
            offers: Standings::new(alloc),
            coupled: Couplings::new(alloc),
            reopened: Vec::new(alloc),
        }
    }

    /// A party's offers that stand, by place.
    pub fn of(&self, party: u32) -> &[Standing]
        ensures { result.now ≡ filter (λ offer. offer.party == party) self.now.offers }
    {
        self.offers.of(party)
    }

    /// The offer of a party of a local name, if it stands.
    pub fn find(&self, party: u32, local: &Name) -> Option<Standing>
        ensures { result ≡ own_offer self.now.offers party local.now }
    {
        self.offers.find(party, local)
    }

    /// How many offers of a party stand.
    pub fn count(&self, party: u32) -> usize
        ensures { result ≡ offer_count self.now.offers party }
    {
        self.offers.count(party)
    }

    /// 2 where the offer at a place is coupled, else 1.
    pub fn degree(&self, place: u64) -> u8
        ensures { result ≡ degree_at self.now.coupled place }
    {
        if self.coupled.has(place) { 2 } else { 1 }
    }

    /// Whether the offer at a place is coupled.
    pub fn is_coupled(&self, place: u64) -> bool
        ensures { result ≡ is_coupled self.now.coupled place }
    {
        self.coupled.has(place)
    }

    /// The coupling of the offer at a place, if it has one.
    pub fn coupling(&self, place: u64) -> Option<Coupling>
        ensures { result ≡ coupling_at self.now.offers self.now.coupled place }
    {
        coupling_at(&self.offers, &self.coupled, place)
    }

    /// The coupling of an offer that stands, if it has one: only its partner is looked up.
    pub fn coupling_on(&self, offer: &Standing) -> Option<Coupling>
        requires { offer_at self.now.offers offer.now.place ≡ Some offer.now }
        ensures { result ≡ coupling_at self.now.offers self.now.coupled offer.now.place }
    {
        coupling_on(&self.offers, &self.coupled, offer)
    }

    /// The open match of an offer, of the lowest place, if there is one.
    pub fn oldest_match(&self, offer: &Standing) -> Option<Standing>
        ensures { result ≡ open_match self.now.offers self.now.coupled offer.now }
    {
        open_match(&self.offers, &self.coupled, offer)
    }

    /// The open offer of the lowest place that is made to a party by its number, if there is one.
    pub fn oldest_to(&self, party: u32) -> Option<Standing>
        ensures { result ≡ find (λ _. true) (open_among self.now party) }
    {
        first_to(&self.offers, &self.coupled, party)
    }

    /// The parties with open offers made to a party by its number, ascending, each once. It takes memory for them.
    pub fn parties_to(&self, alloc: Global, party: u32) -> Result<PartyList, WantOfMemory>
        ensures { IfOk result (λ list. list.items ≡ parties_of (open_among self.now party)) }
    {
        parties_to(alloc, &self.offers, &self.coupled, party)
    }

    /// The surrogates of the open offers of a party that are made to another by its number, by place. It takes memory
    /// for them.
    pub fn names_to(&self, alloc: Global, from: u32, to: u32) -> Result<NameList, WantOfMemory>
        ensures { IfOk result (λ list. list.items ≡ surrogates_of (open_among self.now to) from) }
    {
        names_to(alloc, self.offers.of(from), &self.coupled, to)
    }

    /// A new offer stands, and is coupled with its open match of the lowest place, which is answered. It takes memory;
    /// after `WantOfMemory` all is as before.
    pub fn add(&mut self, new: &Standing) -> Result<Option<Standing>, WantOfMemory>
        requires { IsNext self.old new.now.place }
        ensures ok { OnOk result (self.new ≡ after_offer self.old new.now) }
        ensures partner { IfOk result (λ other. other ≡ open_match self.old.offers self.old.coupled new.now) }
        ensures err { OnErr result (self.new ≡ self.old) }
    {
        let count = self.offers.len();
        self.coupled.reserve(count + 2)?;
        self.reopened.reserve(count + 1)?;
        let other = open_match(&self.offers, &self.coupled, new);
        self.offers.add(new)?;
        join(&mut self.coupled, &other, new);
        Ok(other)
    }

    /// An act of a party, at a place, ends its offer of one local name or all that it has. Once these are gone, the partners
    /// that are set free are matched anew, in the order of their places, if nobody was matched with them before; what pairs
    /// this makes is appended to `made`.
    pub fn end(&mut self, at: u64, party: u32, ending: Ending, made: &mut PairList)
        requires next { IsNext self.old at }
        requires room { length (reopened_by_ending self.old.offers self.old.coupled party ending) ≤ made.old.room }
        ensures table { self.new ≡ after_ending at self.old party ending }
        ensures made { made.new.items ≡ made.old.items ++ pairs_made at self.old party ending }
    {
        self.reopened.clear();
        end_all(
            &mut self.offers,
            &mut self.coupled,
            &mut self.reopened,
            party,
            &ending,
        );
        recouple(at, &self.offers, &mut self.coupled, &self.reopened, made);
    }
}
