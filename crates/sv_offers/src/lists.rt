ghost use Rattle.std.specs.Prelude.{◌≡◌, ◌==◌, ◌++◌, ◌∷◌, ℕ, [], OnOk, if◌then◌else◌};
ghost use Rattle.sv_offers.specs.Places.{ByPlace, without_place};
ghost use Rattle.sv_offers.specs.PartyList.{HasRoom, list_at};

use crate::places::take_out;
use apl_arrays::WantOfMemory;
use std::alloc::Global;
use std::collections::HashMap;
use sv_rules::Standing;

/// Offers in lists by their parties: of a party without a list there are none.
#[derive(Drop)]
pub struct PartyLists {
    alloc: Global,
    lists: HashMap<u32, Vec<Standing>>,
}

impl PartyLists {
    /// No lists.
    pub fn new(alloc: Global) -> PartyLists
        ensures { (party : ℕ) → list_at result party ≡ [] }
    {
        PartyLists {
            alloc,
            lists: HashMap::new(alloc),
        }
    }

    /// The offers of a party.
    pub fn of(&self, party: u32) -> &[Standing]
        ensures { result.now ≡ list_at self.now party }
    {
        match self.lists.get(&party) {
            None => &[],
            Some(list) => list.as_slice(),
        }
    }

    /// Makes room for one offer more of a party. It takes memory; the offers are as before.
    pub fn reserve(&mut self, party: u32) -> Result<(), WantOfMemory>
        ensures same { (other : ℕ) → list_at self.new other ≡ list_at self.old other }
        ensures ok { OnOk result (HasRoom self.new party) }
    {
        if !self.lists.contains_key(&party) {
            self.lists.insert(party, Vec::new(self.alloc))?;
        }
        match self.lists.get_mut(&party) {
            Some(list) => Ok(list.reserve(1)?),
            None => unreachable!(),
        }
    }

    /// One offer more of its party, where there is room, which goes last.
    pub fn push(&mut self, new: &Standing)
        requires { HasRoom self.old new.now.party }
        ensures { (party : ℕ) → list_at self.new party ≡ (if new.now.party == party then list_at self.old party ++ new.now ∷ [] else list_at self.old party) }
    {
        match self.lists.get_mut(&new.party) {
            Some(list) => list.push_reserved(*new),
            None => unreachable!(),
        }
    }

    /// Of a party the offer at a place goes.
    pub fn remove(&mut self, party: u32, place: u64)
        requires { ByPlace (list_at self.old party) }
        ensures { (other : ℕ) → list_at self.new other ≡ (if party == other then without_place (list_at self.old other) place else list_at self.old other) }
    {
        match self.lists.get_mut(&party) {
            Some(list) => take_out(list, place),
            None => (),
        }
    }
}
