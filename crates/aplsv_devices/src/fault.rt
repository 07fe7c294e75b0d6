ghost use Rattle.std.specs.Prelude.{◌≡◌, ◌⊎◌, ◌≤◌};
ghost use Rattle.apl_io.specs.Faults.{Rose, one_more};

use apl_io::StoreError;
use std::io::{self, ErrorKind};

/// What a store answers where the system has this error: want of memory where the system lacked memory, else it failed,
/// which is counted. It takes no memory.
pub fn fault_of(faults: &mut u64, error: io::Error) -> StoreError
    ensures counted { faults.old ≤ faults.new }
    ensures cause { result ≡ StoreError.Failed → Rose faults.old faults.new }
    ensures each { ((result ≡ StoreError.Failed) × (faults.new ≡ one_more faults.old)) ⊎ ((result ≡ StoreError.WantOfMemory) × (faults.new ≡ faults.old)) }
{
    if error.kind() == ErrorKind::OutOfMemory {
        return StoreError::WantOfMemory;
    }
    *faults = faults.saturating_add(1);
    StoreError::Failed
}

/// The error of a call that the system had no memory for.
pub fn no_memory() -> io::Error {
    io::Error::from(ErrorKind::OutOfMemory)
}

/// The error of a path under which something else stands than is looked for.
pub fn other_kind() -> io::Error {
    io::Error::from(ErrorKind::InvalidData)
}

/// The error of a name, or of the place of a store, that leads to no file.
pub fn no_path() -> io::Error {
    io::Error::from(ErrorKind::InvalidFilename)
}
