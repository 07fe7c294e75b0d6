ghost use Rattle.std.specs.Prelude.{◌≡◌, ◌++◌, ◌∷◌, [], IfOk, true, false};

use std::alloc::{AllocError, Global};
use sv_turn::History;

/// A journal of which an entry has its party alone.
#[derive(Debug, Drop)]
pub struct Log {
    parties: Vec<u32>,
}

impl Log {
    /// An empty journal with room for so many entries. It takes memory for them.
    pub fn with_room(alloc: Global, room: usize) -> Result<Log, AllocError>
        ensures { IfOk result (λ log. log.parties.items ≡ []) }
    {
        Ok(Log {
            parties: Vec::with_capacity(alloc, room)?,
        })
    }

    /// Adds an entry where there is room, and says whether there was.
    pub fn add(&mut self, party: u32) -> bool
        ensures added { result ≡ true → self.new.parties.items ≡ self.old.parties.items ++ party ∷ [] }
        ensures full { result ≡ false → self.new.parties.items ≡ self.old.parties.items }
    {
        if self.parties.len() == self.parties.capacity() {
            return false;
        }
        self.parties.push_reserved(party);
        true
    }
}

impl History for Log {
    type Entry = u32;

    ghost use Rattle.turn_cases.specs.Logs.{entries_of, nobody, itself};

    ghost entries = { entries_of };

    ghost members_of = { nobody };

    ghost party_of = { itself };

    fn len(&self) -> u64 {
        self.parties.len() as u64
    }

    fn party_at(&self, place: u64) -> u32 {
        self.parties[(place - 1) as usize]
    }
}
