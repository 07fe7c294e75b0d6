ghost use Rattle.std.specs.Prelude.{◌≡◌, ◌≤◌, IfOk, OnErr};
ghost use Rattle.auxiliaries.specs.Clock.{asks_reading, RepliesByReading};

use crate::Replier;
use apl_arrays::{Array, ItemsRef, WantOfMemory};
use apl_io::Clock;
use std::marker::Model;

/// The answer to a value that is no request.
const REFUSED: i64 = -1;

/// The answer where the clock failed.
const FAULT: i64 = -2;

/// The clock auxiliary: who sends the number 0 gets the next reading of its clock. It is seen as this clock.
#[derive(Debug, Drop)]
pub struct ClockAux<C> {
    clock: C,
}

impl<C> Model for ClockAux<C> {
    ghost Value = { C };

    ghost view = { λ a. a.clock };
}

impl<C: Clock> ClockAux<C> {
    /// An auxiliary over this clock.
    pub fn new(clock: C) -> Self
        ensures { result ≡ clock }
    {
        ClockAux { clock }
    }

    /// The answer to a value: to the numeric scalar 0 the next reading, or ¯2 where the clock failed; to any other value
    /// ¯1. It takes no memory.
    pub fn reply(&mut self, value: &Array) -> Result<Array, WantOfMemory>
        ensures ok { IfOk result (λ answer. RepliesByReading C.told C.faults self.old value.now answer self.new) }
        ensures err { OnErr result (self.new ≡ self.old) }
        ensures counted { C.faults self.old ≤ C.faults self.new }
    {
        if !asks_reading(value) {
            return Ok(Array::of_number(REFUSED));
        }
        match self.clock.reading() {
            Ok(reading) => Ok(Array::of_number(reading)),
            Err(_) => Ok(Array::of_number(FAULT)),
        }
    }

    /// Its clock.
    pub fn into_clock(self) -> C
        ensures { result ≡ self }
    {
        self.clock
    }
}

// Whether a value asks for a reading.
fn asks_reading(value: &Array) -> bool
    ensures { result ≡ asks_reading value.now }
{
    match value.items() {
        ItemsRef::Numbers(numbers) => value.shape().is_empty() && numbers == [0].as_slice(),
        ItemsRef::Chars(_) => false,
    }
}

impl<C: Clock> Replier for ClockAux<C> {
    ghost forgets = { λ old party new. new ≡ old };

    ghost replies = { λ old party value answer new. RepliesByReading C.told C.faults old value answer new };

    ghost wants = { λ old party value new. new ≡ old };

    fn forget(&mut self, _party: u32) {}

    fn reply(&mut self, _party: u32, value: &Array) -> Result<Array, WantOfMemory> {
        ClockAux::reply(self, value)
    }
}
