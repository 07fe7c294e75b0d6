ghost use Rattle.std.specs.Prelude.{◌≡◌, IfOk, vec_len};
ghost use Rattle.apl_arrays.specs.Limits.{most_users};

use crate::noted::Noted;
use anyhow::Result;
use apl_arrays::USER_LIMIT;
use apl_io::{MemoryClock, MemoryShelf, MemoryText};
use case_devices::{calls_of, store_of};
use case_fields::numbers_of;
use std::alloc::Global;

/// The devices that the program is handed.
#[derive(Debug, Drop)]
pub struct Handed {
    pub text: Noted<MemoryText>,
    pub clock: Noted<MemoryClock>,
    pub shelves: Vec<Noted<MemoryShelf>>,
}

/// What a row says of the devices that are handed in: the calls of each shelf that fail, a file and the calls of the text
/// store that fail, readings and the calls of the clock that fail.
#[derive(Clone, Copy, Debug)]
pub struct Devices<'a> {
    pub shelf_fails: &'a str,
    pub file: &'a str,
    pub text_fails: &'a str,
    pub readings: &'a str,
    pub clock_fails: &'a str,
}

impl Devices<'_> {
    /// The devices: shelves without an entry, a text store with the file, if there is one, and a clock.
    pub fn made(&self, alloc: Global) -> Result<Handed>
        ensures { IfOk result (λ handed. vec_len handed.shelves ≡ most_users) }
    {
        let text = store_of(alloc, self.file, self.text_fails)?;
        let fails = calls_of(alloc, self.clock_fails)?;
        let clock = MemoryClock::new(numbers_of(alloc, self.readings)?, fails);
        Ok(Handed {
            text: Noted::new(text),
            clock: Noted::new(clock),
            shelves: shelves_of(alloc, self.shelf_fails)?,
        })
    }
}

// A shelf for each user, without an entry.
fn shelves_of(alloc: Global, fails: &str) -> Result<Vec<Noted<MemoryShelf>>>
    ensures { IfOk result (λ shelves. vec_len shelves ≡ most_users) }
{
    let mut shelves = Vec::new(alloc);
    for _made in 0..USER_LIMIT {
        let fails = calls_of(alloc, fails)?;
        shelves.push(Noted::new(MemoryShelf::new(alloc, fails)))?;
    }
    Ok(shelves)
}
