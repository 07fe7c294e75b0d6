ghost use Rattle.std.specs.Prelude.{◌≡◌, ◌++◌, ◌+◌, ◌^◌, ◌∷◌, ◌≤◌, ◌<◌, [], All, OnOk, OnErr, find};
ghost use Rattle.sv_offers.specs.Places.{AreOnce, without_coupling};
ghost use Rattle.sv_rules.specs.Coupling.{has_place, is_coupled};
ghost use Rattle.sv_rules.specs.declared.coupling.Made.{Made};

use crate::index::{Mated, forget_mates, note_mates};
use crate::slots::{Slot, put_last, take_out, tidy};
use apl_arrays::WantOfMemory;
use std::alloc::Global;
use std::collections::HashMap;
use std::marker::Model;
use sv_rules::Made;

/// Couplings in the order in which they were made, each found at once by the places of its offers; with room for more. Each
/// has a slot, which is left empty where the coupling ends, so that no other moves. From time to time, where more than half
/// of the slots are empty, these are cleaned up: so no more of them are gone over than twice the endings since.
#[derive(Drop)]
pub struct Couplings {
    made: Vec<Slot>,
    mated: Mated,
    room: usize,
}

impl Model for Couplings {
    ghost use Rattle.apl_arrays.specs.List.{Listed};
    ghost use Rattle.sv_offers.specs.Inside.{AreMated};
    ghost use Rattle.sv_offers.specs.Slots.{couplings_in};
    ghost use Rattle.sv_rules.specs.declared.coupling.Made.{Made};

    ghost Value = { Listed Made };

    ghost view = { λ c. record { items = couplings_in c.made.items; room = c.room } };

    ghost invariant = { AreMated };
}

impl Couplings {
    /// No couplings.
    pub fn new(alloc: Global) -> Couplings
        ensures { result ≡ record { items = []; room = 0 } }
    {
        Couplings {
            made: Vec::new(alloc),
            mated: HashMap::new(alloc),
            room: 0,
        }
    }

    /// The coupling of the offer at a place, if it has one.
    pub fn with(&self, place: u64) -> Option<Made>
        ensures { result ≡ find (has_place place) self.now.items }
    {
        self.mated.get(&place).copied()
    }

    /// Whether the offer at a place is coupled.
    #[tactic(auto, using(crate::proofs::FindingLemmas::found_any))]
    pub fn has(&self, place: u64) -> bool
        ensures { result ≡ is_coupled self.now.items place }
    {
        self.with(place).is_some()
    }

    /// Makes room for so many couplings. It takes memory; after `WantOfMemory` all is as before.
    pub fn reserve(&mut self, count: usize) -> Result<(), WantOfMemory>
        requires { count < 2 ^ 62 }
        ensures items { self.new.items ≡ self.old.items }
        ensures room { OnOk result (count ≤ self.new.room) }
        ensures kept { self.old.room ≤ self.new.room }
        ensures err { OnErr result (self.new ≡ self.old) }
    {
        if self.room >= count {
            return Ok(());
        }
        // Each coupling is in the map twice: where there are more slots than that, more than half are empty.
        tidy(&mut self.made, self.mated.len());
        self.made.reserve(count)?;
        self.mated.reserve(2 * count)?;
        self.room = count;
        Ok(())
    }

    /// One coupling more, which goes last, where there is room and none was made later.
    pub fn push(&mut self, made: Made)
        requires room { 0 < self.old.room }
        requires later { All (λ other. other.at ≤ made.at) self.old.items }
        ensures items { self.new.items ≡ self.old.items ++ made ∷ [] }
        ensures room { self.new.room + 1 ≡ self.old.room }
    {
        put_last(&mut self.made, &made);
        note_mates(&mut self.mated, &made);
        self.room -= 1;
    }

    /// The coupling of the offer at a place goes, and is answered, if it has one. It leaves no room.
    pub fn part(&mut self, place: u64) -> Option<Made>
        requires { AreOnce self.old.items }
        ensures found { result ≡ find (has_place place) self.old.items }
        ensures items { self.new.items ≡ without_coupling self.old.items place }
        ensures room { self.new.room ≡ self.old.room }
    {
        let made = self.with(place)?;
        take_out(&mut self.made, &made, place);
        forget_mates(&mut self.mated, &made);
        Some(made)
    }
}
