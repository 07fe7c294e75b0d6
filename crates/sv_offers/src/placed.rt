ghost use Rattle.std.specs.Prelude.{◌≡◌, ◌<◌, ◌++◌, ◌∷◌, [], All, OnOk, OnErr, length};
ghost use Rattle.sv_offers.specs.Places.{without_place};
ghost use Rattle.sv_rules.specs.Coupling.{offer_at};

use apl_arrays::WantOfMemory;
use std::alloc::Global;
use std::collections::BTreeMap;
use std::marker::Model;
use sv_rules::Standing;

/// Offers in the order of their places, each found by its own.
#[derive(Drop)]
pub struct PlacedOffers {
    offers: BTreeMap<u64, Standing>,
}

impl Model for PlacedOffers {
    ghost use Rattle.std.specs.Prelude.{List};
    ghost use Rattle.std.specs.BTreeMap.{values};
    ghost use Rattle.sv_offers.specs.Placed.{ArePlaced};
    ghost use Rattle.sv_rules.specs.declared.standing.Standing.{Standing};

    ghost Value = { List Standing };

    ghost view = { λ placed. values placed.offers };

    ghost invariant = { ArePlaced };
}

impl PlacedOffers {
    /// No offers.
    pub fn new(alloc: Global) -> PlacedOffers
        ensures { result ≡ [] }
    {
        PlacedOffers {
            offers: BTreeMap::new(alloc),
        }
    }

    /// How many offers there are.
    pub fn len(&self) -> usize
        ensures { result ≡ length self.now }
    {
        self.offers.len()
    }

    /// The offer at a place, if there is one.
    pub fn at(&self, place: u64) -> Option<Standing>
        ensures { result ≡ offer_at self.now place }
    {
        self.offers.get(&place).copied()
    }

    /// One offer more, at a place above all, which goes last. It takes memory; after `WantOfMemory` all is as before.
    pub fn add(&mut self, new: &Standing) -> Result<(), WantOfMemory>
        requires { All (λ offer. offer.place < new.now.place) self.old }
        ensures ok { OnOk result (self.new ≡ self.old ++ new.now ∷ []) }
        ensures err { OnErr result (self.new ≡ self.old) }
    {
        self.offers.insert(new.place, *new)?;
        Ok(())
    }

    /// The offer at a place goes, if there is one.
    pub fn remove(&mut self, place: u64)
        ensures { self.new ≡ without_place self.old place }
    {
        self.offers.remove(&place);
    }
}
