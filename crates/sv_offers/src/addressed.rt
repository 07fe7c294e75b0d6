ghost use Rattle.std.specs.Prelude.{◌≡◌, ◌≢◌, ◌<◌, ◌++◌, ◌∷◌, ℕ, [], List, All, Option, Some, IsSome, OnOk, OnErr, if◌then◌else◌};
ghost use Rattle.std.specs.HashMap.{get};
ghost use Rattle.std.specs.Option.{option_copied, unwrap_or};
ghost use Rattle.sv_offers.specs.Addressed.{ChangesList, KeepsLists, is_made_to, listed_at, same_list, other_places};

use crate::place_set::PlaceSet;
use apl_arrays::{Name, WantOfMemory};
use std::alloc::Global;
use std::collections::HashMap;
use sv_rules::Standing;

/// The places of offers by the party that these are made to: of all that are made to one, and of those of one surrogate. There
/// is no list without a place.
#[derive(Drop)]
pub struct Addressed {
    alloc: Global,
    lists: HashMap<(u32, Option<Name>), PlaceSet>,
}

impl Addressed {
    /// No offers.
    pub fn new(alloc: Global) -> Addressed
        ensures { (party : ℕ) (surrogate : Option (List ℕ)) → listed_at result party surrogate ≡ [] }
    {
        Addressed {
            alloc,
            lists: HashMap::new(alloc),
        }
    }

    /// The places of the offers made to a party, of one surrogate or of all, if there are any.
    pub fn of(&self, party: u32, surrogate: Option<Name>) -> Option<&PlaceSet>
        ensures { unwrap_or (option_copied result) [] ≡ listed_at self.now party surrogate }
    {
        self.lists.get(&(party, surrogate))
    }

    /// One offer more, at a place above all, which goes last in both its lists. It takes memory; after `WantOfMemory` all is as
    /// before.
    pub fn add(&mut self, new: &Standing) -> Result<(), WantOfMemory>
        requires { (surrogate : Option (List ℕ)) → All (λ place. place < new.now.place) (listed_at self.old new.now.to surrogate) }
        ensures ok { OnOk result ((party : ℕ) (surrogate : Option (List ℕ)) → listed_at self.new party surrogate
            ≡ (if is_made_to party surrogate new.now then listed_at self.old party surrogate ++ new.now.place ∷ [] else listed_at self.old party surrogate)) }
        ensures err { OnErr result ((party : ℕ) (surrogate : Option (List ℕ)) → listed_at self.new party surrogate ≡ listed_at self.old party surrogate) }
    {
        self.add_to(None, new)?;
        match self.add_to(Some(new.surrogate), new) {
            Ok(()) => Ok(()),
            Err(WantOfMemory) => {
                self.remove_from(None, new);
                Err(WantOfMemory)
            }
        }
    }

    /// An offer goes from both its lists.
    pub fn remove(&mut self, offer: &Standing)
        ensures { (party : ℕ) (surrogate : Option (List ℕ)) → listed_at self.new party surrogate
            ≡ (if is_made_to party surrogate offer.now then other_places (listed_at self.old party surrogate) offer.now.place else listed_at self.old party surrogate) }
    {
        self.remove_from(None, offer);
        self.remove_from(Some(offer.surrogate), offer);
    }

    // An offer goes last in one of its lists. It takes memory; after `WantOfMemory` all is as before.
    fn add_to(&mut self, surrogate: Option<Name>, new: &Standing) -> Result<(), WantOfMemory>
        requires { All (λ place. place < new.now.place) (listed_at self.old new.now.to surrogate) }
        ensures ok { OnOk result ((party : ℕ) (name : Option (List ℕ)) → listed_at self.new party name
            ≡ (if same_list (new.now.to, surrogate) (party, name) then listed_at self.old party name ++ new.now.place ∷ [] else listed_at self.old party name)) }
        ensures err { OnErr result ((party : ℕ) (name : Option (List ℕ)) → listed_at self.new party name ≡ listed_at self.old party name) }
    {
        let key = (new.to, surrogate);
        self.open(key)?;
        match self.push(&key, new) {
            Ok(()) => Ok(()),
            Err(WantOfMemory) => {
                self.close(&key);
                Err(WantOfMemory)
            }
        }
    }

    // An offer goes from one of its lists, and the list where it was the last.
    fn remove_from(&mut self, surrogate: Option<Name>, offer: &Standing)
        ensures { (party : ℕ) (name : Option (List ℕ)) → listed_at self.new party name
            ≡ (if same_list (offer.now.to, surrogate) (party, name) then other_places (listed_at self.old party name) offer.now.place else listed_at self.old party name) }
    {
        let key = (offer.to, surrogate);
        self.take_out(&key, offer.place);
        self.close(&key);
    }

    // There is a list, and the lists are as before. It takes memory for one.
    fn open(&mut self, key: (u32, Option<Name>)) -> Result<(), WantOfMemory>
        ensures same { (party : ℕ) (name : Option (List ℕ)) → listed_at self.new party name ≡ listed_at self.old party name }
        ensures ok { OnOk result (IsSome (get same_list self.new.lists key)) }
    {
        if !self.lists.contains_key(&key) {
            self.lists.insert(key, PlaceSet::new(self.alloc))?;
        }
        Ok(())
    }

    // An offer goes last in a list. It takes memory; after `WantOfMemory` all is as before.
    fn push(&mut self, key: &(u32, Option<Name>), new: &Standing) -> Result<(), WantOfMemory>
        requires there { IsSome (get same_list self.old.lists key.now) }
        requires above { All (λ place. place < new.now.place) (listed_at self.old key.now.0 key.now.1) }
        ensures ok { OnOk result (ChangesList self.old self.new key.now (λ places. places ++ new.now.place ∷ [])) }
        ensures err { OnErr result (KeepsLists self.old self.new) }
    {
        match self.lists.get_mut(key) {
            Some(list) => list.add(new.place),
            None => unreachable!(),
        }
    }

    // From a list a place goes, if there is the list.
    fn take_out(&mut self, key: &(u32, Option<Name>), place: u64)
        ensures { ChangesList self.old self.new key.now (λ places. other_places places place) }
    {
        match self.lists.get_mut(key) {
            Some(list) => list.remove(place),
            None => (),
        }
    }

    // A list without a place goes.
    fn close(&mut self, key: &(u32, Option<Name>))
        ensures same { (party : ℕ) (name : Option (List ℕ)) → listed_at self.new party name ≡ listed_at self.old party name }
        ensures gone { get same_list self.new.lists key.now ≢ Some [] }
    {
        let Some(list) = self.lists.get(key) else {
            return;
        };
        if list.len() == 0 {
            self.lists.remove(key);
        }
    }
}
