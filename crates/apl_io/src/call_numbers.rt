ghost use Rattle.std.specs.Prelude.{◌≡◌, ◌+◌, ◌<◌, ◌≤◌, ◌↔◌, [], ◌∷◌, ◌++◌, OnOk, OnErr, IsOk, IsTrue, Contains};
ghost use Rattle.std.specs.List.Sorted.{IsStrictlyIncreasing};
ghost use Rattle.apl_io.specs.Content.{fails_after};
ghost use Rattle.apl_io.specs.Faults.{one_more};

use apl_arrays::{List, WantOfMemory};
use std::alloc::Global;
use std::marker::Model;

/// Numbers of calls, strictly ascending, seen as a list with its room.
#[derive(Debug, Drop)]
pub struct CallNumbers {
    numbers: List<u64>,
}

impl Model for CallNumbers {
    ghost use Rattle.std.specs.Prelude.{ℕ};
    ghost use Rattle.std.specs.List.Sorted.{IsStrictlyIncreasing};
    ghost use Rattle.apl_arrays.specs.List.{Listed};

    ghost Value = { Listed ℕ };

    ghost view = { λ c. c.numbers };

    ghost invariant = { λ c. IsStrictlyIncreasing c.numbers.items };
}

impl CallNumbers {
    /// No numbers.
    pub fn new(alloc: Global) -> Self
        ensures { result.items ≡ [] }
    {
        CallNumbers {
            numbers: List::new(alloc),
        }
    }

    /// The numbers, ascending.
    pub fn as_slice(&self) -> &[u64]
        ensures items { result.now ≡ self.now.items }
        ensures ascending { IsStrictlyIncreasing result.now }
    {
        self.numbers.as_slice()
    }

    /// The numbers as a `Vec`.
    pub fn into_vec(self) -> Vec<u64>
        ensures items { result.items ≡ self.items }
        ensures ascending { IsStrictlyIncreasing result.items }
    {
        self.numbers.into_vec()
    }

    /// Makes room for at least so many pushes, and takes memory for it. `WantOfMemory` leaves the list as it was.
    pub fn reserve(&mut self, room: usize) -> Result<(), WantOfMemory>
        ensures items { self.new.items ≡ self.old.items }
        ensures room { OnOk result (room ≤ self.new.room) }
        ensures kept { self.old.room ≤ self.new.room }
        ensures err { OnErr result (self.new ≡ self.old) }
        ensures granted { room ≤ self.old.room → IsOk result }
    {
        self.numbers.reserve(room)
    }

    /// Adds a number above all the others. Where there is room it is granted and takes no memory, else it takes memory
    /// for more. `WantOfMemory` leaves the list as it was.
    pub fn push(&mut self, number: u64) -> Result<(), WantOfMemory>
        requires { IsStrictlyIncreasing (self.old.items ++ number ∷ []) }
        ensures ok { OnOk result (self.new.items ≡ self.old.items ++ number ∷ []) }
        ensures err { OnErr result (self.new ≡ self.old) }
        ensures granted { 0 < self.old.room → IsOk result }
        ensures room { 0 < self.old.room → self.new.room + 1 ≡ self.old.room }
    {
        self.numbers.push(number)
    }

    /// Whether the number is one of them.
    pub(crate) fn contains(&self, number: u64) -> bool
        ensures { IsTrue result ↔ Contains self.now.items number }
    {
        self.as_slice().binary_search(&number).is_ok()
    }

    /// Counts a call, and says whether its number is one of them.
    pub(crate) fn counts(&self, calls: &mut u64) -> bool
        ensures counted { calls.new ≡ one_more calls.old }
        ensures listed { result ≡ fails_after calls.old self.now.items }
    {
        *calls = calls.saturating_add(1);
        self.contains(*calls)
    }
}
