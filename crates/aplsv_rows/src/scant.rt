ghost use Rattle.std.specs.Prelude.{◌≡◌};

use apl_arrays::{Name, NameList};
use apl_io::{Bytes, Shelf, StoreError, TextStore, WantOfMemory};

/// A device that counts its calls, and for which memory runs out at the call of a number and at all behind it; 0 where it never
/// does. To be told a place is no call. It tells nothing of what it keeps.
#[derive(Debug, Drop)]
pub struct Scant<D> {
    device: D,
    out_at: u64,
    pub calls: u64,
}

impl<D> Scant<D> {
    /// A device that was not called, and the number of the call at which memory runs out for it.
    pub fn new(device: D, out_at: u64) -> Self {
        Scant {
            device,
            out_at,
            calls: 0,
        }
    }

    // Counts a call, and says whether memory has run out at it.
    fn is_out(&mut self) -> bool
        ensures { self.new.device ≡ self.old.device }
    {
        self.calls = self.calls.saturating_add(1);
        self.out_at > 0 && self.calls >= self.out_at
    }
}

impl<K: Shelf> Shelf for Scant<K> {
    ghost use Rattle.std.specs.Prelude.{None};

    ghost told = { λ _. None };

    ghost faults = { λ s. K.faults s.device };

    fn faults(&self) -> u64 {
        self.device.faults()
    }

    fn set_place(&mut self, place: &str) -> Result<(), WantOfMemory> {
        self.device.set_place(place)
    }

    fn read(&mut self, user: u32, name: &Name) -> Result<Option<Bytes>, StoreError> {
        if self.is_out() {
            return Err(StoreError::WantOfMemory);
        }
        self.device.read(user, name)
    }

    fn write(&mut self, user: u32, name: &Name, bytes: &[u8]) -> Result<(), StoreError> {
        if self.is_out() {
            return Err(StoreError::WantOfMemory);
        }
        self.device.write(user, name, bytes)
    }

    fn remove(&mut self, user: u32, name: &Name) -> Result<bool, StoreError> {
        if self.is_out() {
            return Err(StoreError::WantOfMemory);
        }
        self.device.remove(user, name)
    }

    fn names(&mut self, user: u32) -> Result<NameList, StoreError> {
        if self.is_out() {
            return Err(StoreError::WantOfMemory);
        }
        self.device.names(user)
    }
}

impl<T: TextStore> TextStore for Scant<T> {
    ghost use Rattle.std.specs.Prelude.{None};

    ghost told = { λ _. None };

    ghost faults = { λ s. T.faults s.device };

    fn faults(&self) -> u64 {
        self.device.faults()
    }

    fn set_place(&mut self, place: &str) -> Result<(), WantOfMemory> {
        self.device.set_place(place)
    }

    fn read(&mut self, name: &str) -> Result<Option<Bytes>, StoreError> {
        if self.is_out() {
            return Err(StoreError::WantOfMemory);
        }
        self.device.read(name)
    }

    fn replace(&mut self, name: &str, bytes: &[u8]) -> Result<(), StoreError> {
        if self.is_out() {
            return Err(StoreError::WantOfMemory);
        }
        self.device.replace(name, bytes)
    }
}
