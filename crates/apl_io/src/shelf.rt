ghost use Rattle.std.specs.Prelude.{◌≡◌, ◌≤◌, ℕ, List, IsErrOf, IfOk, OnOk, OnErr, option_map};
ghost use Rattle.std.specs.declared.option.Option.{Option};
ghost use Rattle.std.specs.List.Sorted.{IsStrictlySortedBy};
ghost use Rattle.apl_arrays.specs.Name.{name_order};
ghost use Rattle.apl_io.specs.Content.{Told, placed, by_user_and_name, Reads, Writes, Removes, Lists};
ghost use Rattle.apl_io.specs.Faults.{Rose};
ghost use Rattle.apl_io.specs.Replies.{plain_read, plain_names};

use crate::{Bytes, StoreError, WantOfMemory};
use apl_arrays::{Name, NameList};

/// A place of saved workspaces by user and name, which counts its faults. What memory a call takes is the shelf's own.
pub trait Shelf {
    /// The places that it was given, what is kept, the calls so far and those that are to fail, where the shelf tells
    /// them.
    ghost told: { Self → Option (Told (ℕ × List ℕ)) };

    /// How often the shelf has failed.
    ghost faults: { Self → ℕ };

    /// How often the shelf has failed. The count never falls, and stands still at the greatest `u64`.
    fn faults(&self) -> u64
        ensures { result ≡ faults self.now };

    /// Says where the shelf is. It is no call that has a number. The place goes behind those that were given before, and
    /// all else that is told stays. `WantOfMemory` leaves what is told.
    fn set_place(&mut self, place: &str) -> Result<(), WantOfMemory>
        ensures ok { OnOk result (told self.new ≡ option_map (placed place.now) (told self.old)) }
        ensures err { OnErr result (told self.new ≡ told self.old) }
        ensures counted { faults self.old ≤ faults self.new };

    /// The bytes of a user under a name, or `None` where there are none.
    fn read(&mut self, user: u32, name: &Name) -> Result<Option<Bytes>, StoreError>
        ensures reads { Reads by_user_and_name (told self.old) (user, name.now) (plain_read result) (told self.new) }
        ensures counted { faults self.old ≤ faults self.new }
        ensures cause { IsErrOf result StoreError.Failed → Rose (faults self.old) (faults self.new) };

    /// Keeps these bytes for a user under a name, in the place of what was there. A call that fails may leave anything
    /// there.
    fn write(&mut self, user: u32, name: &Name, bytes: &[u8]) -> Result<(), StoreError>
        ensures writes { Writes by_user_and_name (told self.old) (user, name.now) bytes.now result (told self.new) }
        ensures counted { faults self.old ≤ faults self.new }
        ensures cause { IsErrOf result StoreError.Failed → Rose (faults self.old) (faults self.new) };

    /// Takes away what a user has under a name, and says whether there was anything. A call that fails may leave
    /// anything there.
    fn remove(&mut self, user: u32, name: &Name) -> Result<bool, StoreError>
        ensures removes { Removes by_user_and_name (told self.old) (user, name.now) result (told self.new) }
        ensures counted { faults self.old ≤ faults self.new }
        ensures cause { IsErrOf result StoreError.Failed → Rose (faults self.old) (faults self.new) };

    /// The names under which a user has something, ascending.
    fn names(&mut self, user: u32) -> Result<NameList, StoreError>
        ensures lists { Lists (told self.old) user (plain_names result) (told self.new) }
        ensures ascending { IfOk result (λ names. IsStrictlySortedBy name_order names.items) }
        ensures counted { faults self.old ≤ faults self.new }
        ensures cause { IsErrOf result StoreError.Failed → Rose (faults self.old) (faults self.new) };
}
