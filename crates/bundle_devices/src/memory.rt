ghost use Rattle.std.specs.Prelude.{◌≡◌, ◌≤◌, IfOk, length, map, vec_len};
ghost use Rattle.apl_arrays.specs.FileList.{IsAscending, plain_file};
ghost use Rattle.bundle_devices.specs.Devices.{clock_of, shelves_of, text_store_of};

use apl_arrays::{File, FileList, List, WantOfMemory};
use apl_io::{CallNumbers, Devices, MemoryClock, MemoryShelf, MemoryText};
use bundle_text::Bundle;
use std::alloc::Global;

/// Devices in memory that never fail: the bundle's files and readings, and an empty shelf for each user. It takes memory
/// for them.
pub fn memory_devices(
    alloc: Global,
    bundle: &Bundle,
) -> Result<Devices<MemoryText, MemoryClock, MemoryShelf>, WantOfMemory>
    ensures text { IfOk result (λ devices. devices.text ≡ text_store_of bundle.now) }
    ensures clock { IfOk result (λ devices. devices.clock ≡ clock_of bundle.now) }
    ensures shelves { IfOk result (λ devices. devices.shelves.items ≡ shelves_of bundle.now) }
    ensures enough { IfOk result (λ devices. length bundle.now.users ≤ vec_len devices.shelves) }
{
    Ok(Devices {
        text: memory_text(alloc, bundle)?,
        clock: memory_clock(alloc, bundle)?,
        shelves: memory_shelves(alloc, bundle)?,
    })
}

/// The bundle's files, before the first call, none of which is to fail. It takes memory for them.
pub fn memory_text(alloc: Global, bundle: &Bundle) -> Result<MemoryText, WantOfMemory>
    ensures { IfOk result (λ text. text ≡ text_store_of bundle.now) }
{
    let files = copied_files(alloc, bundle.files())?;
    Ok(MemoryText::new(alloc, files, CallNumbers::new(alloc)))
}

/// A clock of the bundle's readings, none of which is to fail. It takes memory for them.
pub fn memory_clock(alloc: Global, bundle: &Bundle) -> Result<MemoryClock, WantOfMemory>
    ensures { IfOk result (λ clock. clock ≡ clock_of bundle.now) }
{
    let readings = List::from(bundle.clock().to_vec(alloc)?);
    Ok(MemoryClock::new(readings, CallNumbers::new(alloc)))
}

/// An empty shelf for each user of the bundle, none of whose calls is to fail. It takes memory for them.
pub fn memory_shelves(alloc: Global, bundle: &Bundle) -> Result<Vec<MemoryShelf>, WantOfMemory>
    ensures shelves { IfOk result (λ shelves. shelves.items ≡ shelves_of bundle.now) }
    ensures enough { IfOk result (λ shelves. length bundle.now.users ≤ vec_len shelves) }
{
    let users = bundle.users();
    let mut shelves = Vec::new(alloc);
    for _user in users {
        shelves.push(MemoryShelf::new(alloc, CallNumbers::new(alloc)))?;
    }
    Ok(shelves)
}

// Equal files, in memory of their own.
fn copied_files(alloc: Global, files: &[File]) -> Result<FileList, WantOfMemory>
    requires { IsAscending (map plain_file files.now) }
    ensures { IfOk result (λ list. list.items ≡ map plain_file files.now) }
{
    let mut list = FileList::new(alloc);
    for file in files {
        list.push(File {
            name: file.name,
            bytes: file.bytes.copy(alloc)?,
        })?;
    }
    Ok(list)
}
