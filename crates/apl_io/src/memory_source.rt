ghost use Rattle.std.specs.Prelude.{◌≡◌, ◌<◌, ◌≤◌, ◌↔◌, ◌++◌, length, take, drop, min, IfOk, OnErr, IsErr, Contains};
ghost use Rattle.std.specs.Io.KnownBytes.{ReadConsumes};
ghost use Rattle.apl_io.specs.Faults.{Rose, one_more};
ghost use Rattle.apl_io.specs.Memory.{after_read, after_failed_read};

use crate::{Bytes, CallNumbers, Failed, Source};
use std::marker::Model;

/// A source in memory. It gives its bytes in pieces, and fails at the calls that it is told to fail at.
#[derive(Debug, Drop)]
pub struct MemorySource {
    bytes: Bytes,
    given: usize,
    piece: usize,
    calls: u64,
    fails: CallNumbers,
    faults: u64,
}

impl Model for MemorySource {
    ghost use Rattle.std.specs.Prelude.{◌≤◌, length, drop};
    ghost use Rattle.apl_io.specs.Memory.{Supply};

    ghost Value = { Supply };

    ghost view = { λ s. record { left = drop s.given s.bytes.items; piece = s.piece; calls = s.calls; fails = s.fails.items; faults = s.faults } };

    ghost invariant = { λ s. (s.given ≤ length s.bytes.items) × (1 ≤ s.piece) };
}

impl MemorySource {
    ghost use Rattle.apl_io.specs.Memory.{new_supply};

    /// A source of these bytes. A call gives at most `piece` of them. `fails` has the numbers of the calls that are
    /// to fail: the first call is 1, and past the greatest `u64` numbers go no further.
    pub fn new(bytes: Bytes, piece: usize, fails: CallNumbers) -> Self
        requires { 1 ≤ piece }
        ensures { result ≡ new_supply bytes.items piece fails.items }
    {
        MemorySource {
            bytes,
            given: 0,
            piece,
            calls: 0,
            fails,
            faults: 0,
        }
    }
}

impl Source for MemorySource {
    ghost use Rattle.std.specs.Prelude.{Some};

    ghost left = { λ s. Some s.left };

    ghost faults = { λ s. s.faults };

    fn faults(&self) -> u64 {
        self.faults
    }

    fn read(&mut self, into: &mut [u8]) -> Result<usize, Failed>
        requires { 0 < length into.old }
        ensures count { IfOk result (λ count. count ≤ length into.new) }
        ensures bytes { ReadConsumes (Some self.old.left) (Some self.new.left) result into.new }
        ensures counted { self.old.faults ≤ self.new.faults }
        ensures cause { OnErr result (Rose self.old.faults self.new.faults) }

        // A call fails exactly where its number is one of those that are to fail.
        ensures fails { IsErr result ↔ Contains self.old.fails (one_more self.old.calls) }
        ensures failed { OnErr result (self.new ≡ after_failed_read self.old) }
        ensures untouched { OnErr result (into.new ≡ into.old) }

        // Else it gives as many bytes as what is left, its greatest piece and the buffer allow.
        ensures most { IfOk result (λ count. count ≡ min (min (length self.old.left) self.old.piece) (length into.old)) }
        ensures given { IfOk result (λ count. into.new ≡ take count self.old.left ++ drop count into.old) }
        ensures after { IfOk result (λ count. self.new ≡ after_read count self.old) }
    {
        self.calls = self.calls.saturating_add(1);
        if self.fails.contains(self.calls) {
            self.faults = self.faults.saturating_add(1);
            return Err(Failed);
        }
        let left = &self.bytes.as_slice()[self.given..];
        let count = left.len().min(self.piece).min(into.len());
        into[..count].copy_from_slice(&left[..count]);
        self.given += count;
        Ok(count)
    }
}
