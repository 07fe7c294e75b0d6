ghost use Rattle.std.specs.Prelude.{◌≡◌, ◌∷◌, [], ◌++◌, OnOk, OnErr};

use apl_arrays::{List, WantOfMemory};
use std::alloc::Global;
use std::marker::Model;

/// The places that a device was given, in order, seen as their texts.
#[derive(Debug, Drop)]
pub struct Places {
    texts: List<String>,
}

impl Model for Places {
    ghost use Rattle.std.specs.Prelude.{ℕ, List as ListOf, map};
    ghost use Rattle.std.specs.String.{string_bytes};

    ghost Value = { ListOf (ListOf ℕ) };

    ghost view = { λ p. map string_bytes p.texts.items };
}

impl Places {
    /// No place.
    pub fn new(alloc: Global) -> Self
        ensures { result ≡ [] }
    {
        Places {
            texts: List::new(alloc),
        }
    }

    /// Adds a place behind the others. It takes memory for its text. `WantOfMemory` leaves the places as they were.
    pub fn add(&mut self, alloc: Global, place: &str) -> Result<(), WantOfMemory>
        ensures ok { OnOk result (self.new ≡ self.old ++ place.now ∷ []) }
        ensures err { OnErr result (self.new ≡ self.old) }
    {
        let text = String::from_str(alloc, place)?;
        self.texts.push(text)
    }
}
