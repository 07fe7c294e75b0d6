use apl_arrays::{Name, NameList};
use apl_io::{Bytes, Clock, Failed, Shelf, StoreError, TextStore, WantOfMemory};

/// A device that notes how often it was told a place, and how often it was called. It tells nothing of what it keeps.
#[derive(Debug, Drop)]
pub struct Noted<D> {
    device: D,
    pub places: u64,
    pub calls: u64,
}

impl<D> Noted<D> {
    /// A device that was told no place and was not called.
    pub fn new(device: D) -> Self {
        Noted {
            device,
            places: 0,
            calls: 0,
        }
    }
}

impl<K: Shelf> Shelf for Noted<K> {
    ghost use Rattle.std.specs.Prelude.{None};

    ghost told = { λ _. None };

    ghost faults = { λ s. K.faults s.device };

    fn faults(&self) -> u64 {
        self.device.faults()
    }

    fn set_place(&mut self, place: &str) -> Result<(), WantOfMemory> {
        self.places = self.places.saturating_add(1);
        self.device.set_place(place)
    }

    fn read(&mut self, user: u32, name: &Name) -> Result<Option<Bytes>, StoreError> {
        self.calls = self.calls.saturating_add(1);
        self.device.read(user, name)
    }

    fn write(&mut self, user: u32, name: &Name, bytes: &[u8]) -> Result<(), StoreError> {
        self.calls = self.calls.saturating_add(1);
        self.device.write(user, name, bytes)
    }

    fn remove(&mut self, user: u32, name: &Name) -> Result<bool, StoreError> {
        self.calls = self.calls.saturating_add(1);
        self.device.remove(user, name)
    }

    fn names(&mut self, user: u32) -> Result<NameList, StoreError> {
        self.calls = self.calls.saturating_add(1);
        self.device.names(user)
    }
}

impl<T: TextStore> TextStore for Noted<T> {
    ghost use Rattle.std.specs.Prelude.{None};

    ghost told = { λ _. None };

    ghost faults = { λ s. T.faults s.device };

    fn faults(&self) -> u64 {
        self.device.faults()
    }

    fn set_place(&mut self, place: &str) -> Result<(), WantOfMemory> {
        self.places = self.places.saturating_add(1);
        self.device.set_place(place)
    }

    fn read(&mut self, name: &str) -> Result<Option<Bytes>, StoreError> {
        self.calls = self.calls.saturating_add(1);
        self.device.read(name)
    }

    fn replace(&mut self, name: &str, bytes: &[u8]) -> Result<(), StoreError> {
        self.calls = self.calls.saturating_add(1);
        self.device.replace(name, bytes)
    }
}

impl<C: Clock> Clock for Noted<C> {
    ghost use Rattle.std.specs.Prelude.{None};

    ghost told = { λ _. None };

    ghost faults = { λ s. C.faults s.device };

    fn faults(&self) -> u64 {
        self.device.faults()
    }

    fn reading(&mut self) -> Result<i64, Failed> {
        self.calls = self.calls.saturating_add(1);
        self.device.reading()
    }
}
