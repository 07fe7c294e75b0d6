use apl_arrays::{Bytes, Name, NameList, WantOfMemory};
use apl_io::{Shelf, StoreError};

/// A shelf for which memory runs out at each call. It counts the calls.
#[derive(Clone, Copy, Debug)]
pub struct NoShelf {
    pub calls: u64,
}

impl NoShelf {
    // Counts a call.
    fn count(&mut self) {
        self.calls = self.calls.saturating_add(1);
    }
}

impl Shelf for NoShelf {
    ghost use Rattle.std.specs.Prelude.{None};

    ghost told = { λ s. None };

    ghost faults = { λ s. 0 };

    fn faults(&self) -> u64 {
        0
    }

    fn set_place(&mut self, _place: &str) -> Result<(), WantOfMemory> {
        Ok(())
    }

    fn read(&mut self, _user: u32, _name: &Name) -> Result<Option<Bytes>, StoreError> {
        self.count();
        Err(StoreError::WantOfMemory)
    }

    fn write(&mut self, _user: u32, _name: &Name, _bytes: &[u8]) -> Result<(), StoreError> {
        self.count();
        Err(StoreError::WantOfMemory)
    }

    fn remove(&mut self, _user: u32, _name: &Name) -> Result<bool, StoreError> {
        self.count();
        Err(StoreError::WantOfMemory)
    }

    fn names(&mut self, _user: u32) -> Result<NameList, StoreError> {
        self.count();
        Err(StoreError::WantOfMemory)
    }
}
