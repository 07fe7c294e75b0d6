ghost use Rattle.std.specs.Prelude.{◌≡◌, ◌≤◌, ℕ, List, IsErrOf, OnOk, OnErr, option_map};
ghost use Rattle.std.specs.declared.option.Option.{Option};
ghost use Rattle.apl_arrays.specs.Name.{name_order};
ghost use Rattle.apl_io.specs.Content.{Told, placed, Reads, Writes};
ghost use Rattle.apl_io.specs.Faults.{Rose};
ghost use Rattle.apl_io.specs.Replies.{plain_read};

use crate::{Bytes, StoreError, WantOfMemory};

/// A place of text files by name, which counts its faults. What memory a call takes is the store's own.
pub trait TextStore {
    /// The places that it was given, the files, the calls so far and those that are to fail, where the store tells them.
    ghost told: { Self → Option (Told (List ℕ)) };

    /// How often the store has failed.
    ghost faults: { Self → ℕ };

    /// How often the store has failed. The count never falls, and stands still at the greatest `u64`.
    fn faults(&self) -> u64
        ensures { result ≡ faults self.now };

    /// Says where the files are. It is no call that has a number. The place goes behind those that were given before, and
    /// all else that is told stays. `WantOfMemory` leaves what is told.
    fn set_place(&mut self, place: &str) -> Result<(), WantOfMemory>
        ensures ok { OnOk result (told self.new ≡ option_map (placed place.now) (told self.old)) }
        ensures err { OnErr result (told self.new ≡ told self.old) }
        ensures counted { faults self.old ≤ faults self.new };

    /// The bytes of a file, or `None` where there is no such file.
    fn read(&mut self, name: &str) -> Result<Option<Bytes>, StoreError>
        ensures reads { Reads name_order (told self.old) name.now (plain_read result) (told self.new) }
        ensures counted { faults self.old ≤ faults self.new }
        ensures cause { IsErrOf result StoreError.Failed → Rose (faults self.old) (faults self.new) };

    /// Puts these bytes in the place of a file's, or makes the file. A call that fails may leave anything there.
    fn replace(&mut self, name: &str, bytes: &[u8]) -> Result<(), StoreError>
        ensures writes { Writes name_order (told self.old) name.now bytes.now result (told self.new) }
        ensures counted { faults self.old ≤ faults self.new }
        ensures cause { IsErrOf result StoreError.Failed → Rose (faults self.old) (faults self.new) };
}
