//! The processor behind a pointer, so that a turn moves the pointer and not the processor.
ghost use Rattle.std.specs.Prelude.{◌≡◌, IfOk};

use apl_arrays::WantOfMemory;
use std::alloc::Global;
use std::marker::Model;
use sv_core::{Core, EntrySeen};
use sv_turn::History;

/// A processor in a block of its own.
#[derive(Drop)]
pub struct BoxedCore {
    pub core: Box<Core>,
}

impl Model for BoxedCore {
    ghost use Rattle.sv_core.specs.Core.{PlainCore};

    ghost Value = { PlainCore };

    ghost view = { λ b. b.core.value };
}

impl BoxedCore {
    /// Takes memory for the block.
    pub fn new(alloc: Global, core: Core) -> Result<BoxedCore, WantOfMemory>
        ensures { IfOk result (λ boxed. boxed ≡ core) }
    {
        Ok(BoxedCore {
            core: Box::new(alloc, core)?,
        })
    }

    /// The processor out of its block.
    pub fn into_core(self) -> Core
        ensures { result ≡ self }
    {
        Box::into_inner(self.core)
    }
}

impl History for BoxedCore {
    type Entry = EntrySeen;

    ghost use Rattle.sv_core.specs.Histories.{entries_of, members_of, party_of_entry};

    ghost entries = { entries_of };

    ghost members_of = { members_of };

    ghost party_of = { party_of_entry };

    fn len(&self) -> u64 {
        self.core.len()
    }

    fn party_at(&self, place: u64) -> u32 {
        self.core.party_at(place)
    }
}
