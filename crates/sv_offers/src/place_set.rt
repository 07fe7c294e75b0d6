ghost use Rattle.std.specs.Prelude.{◌≡◌, ◌==◌, ◌<◌, ◌++◌, ◌∷◌, ℕ, [], All, OnOk, OnErr, filter, length, not};
ghost use Rattle.std.specs.Map.Iter.{ShowsInOrder, deref};

use apl_arrays::WantOfMemory;
use std::alloc::Global;
use std::collections::BTreeSet;
use std::collections::btree_set::Iter;
use std::marker::Model;

/// Places, ascending.
#[derive(Drop)]
pub struct PlaceSet {
    places: BTreeSet<u64>,
}

impl Model for PlaceSet {
    ghost use Rattle.std.specs.Prelude.{ℕ, List};
    ghost use Rattle.std.specs.BTreeSet.{keys};
    ghost use Rattle.sv_offers.specs.PlaceSet.{Ascends};

    ghost Value = { List ℕ };

    ghost view = { λ set. keys set.places };

    ghost invariant = { Ascends };
}

impl PlaceSet {
    /// No places.
    pub fn new(alloc: Global) -> PlaceSet
        ensures { result ≡ [] }
    {
        PlaceSet {
            places: BTreeSet::new(alloc),
        }
    }

    /// How many places there are.
    pub fn len(&self) -> usize
        ensures { result ≡ length self.now }
    {
        self.places.len()
    }

    /// The places, ascending.
    pub fn iter(&self) -> Iter<'_, u64>
        ensures rest { result ≡ self.now }
        ensures runs { ShowsInOrder (deref {X = ℕ}) }
    {
        self.places.iter()
    }

    /// One place more, above all, which goes last. It takes memory; after `WantOfMemory` all is as before.
    pub fn add(&mut self, place: u64) -> Result<(), WantOfMemory>
        requires { All (λ other. other < place) self.old }
        ensures ok { OnOk result (self.new ≡ self.old ++ place ∷ []) }
        ensures err { OnErr result (self.new ≡ self.old) }
    {
        self.places.insert(place)?;
        Ok(())
    }

    /// A place goes, if it is there.
    pub fn remove(&mut self, place: u64)
        ensures { self.new ≡ filter (λ other. not (other == place)) self.old }
    {
        self.places.remove(&place);
    }
}
