ghost use Rattle.std.specs.Prelude.{◌≡◌, ◌⊎◌, ◌<◌, ◌≤◌, ◌↔◌, length, min, IfOk, OnErr, IsErr, Contains};
ghost use Rattle.std.specs.Io.KnownBytes.{WriteAppends};
ghost use Rattle.apl_io.specs.Faults.{Rose, one_more};
ghost use Rattle.apl_io.specs.Memory.{after_write, after_failed_write};

use crate::{CallNumbers, Failed, Sink};
use apl_arrays::WantOfMemory;
use std::alloc::Global;
use std::marker::Model;

/// A sink in memory. It takes bytes in pieces while it has room, and fails at the calls that it is told to fail at.
#[derive(Debug, Drop)]
pub struct MemorySink {
    held: Vec<u8>,
    room: usize,
    piece: usize,
    calls: u64,
    fails: CallNumbers,
    faults: u64,
}

impl Model for MemorySink {
    ghost use Rattle.std.specs.Prelude.{◌+◌, ◌≤◌, vec_len, vec_capacity};
    ghost use Rattle.apl_io.specs.Memory.{Store};

    ghost Value = { Store };

    ghost view = { λ s. record { held = s.held.items; room = s.room; piece = s.piece; calls = s.calls; fails = s.fails.items; faults = s.faults } };

    ghost invariant = { λ s. (vec_len s.held + s.room ≤ vec_capacity s.held) × (1 ≤ s.piece) };
}

impl MemorySink {
    ghost use Rattle.std.specs.Prelude.{IfOk};
    ghost use Rattle.apl_io.specs.Memory.{new_store};

    /// An empty sink with room for so many bytes in all, which it takes at once. A call takes at most `piece` of them.
    /// `fails` has the numbers of the calls that are to fail: the first call is 1, and past the greatest `u64` numbers
    /// go no further. `WantOfMemory` only for the room.
    pub fn new(
        alloc: Global,
        room: usize,
        piece: usize,
        fails: CallNumbers,
    ) -> Result<Self, WantOfMemory>
        requires { 1 ≤ piece }
        ensures { IfOk result (λ sink. sink ≡ new_store room piece fails.items) }
    {
        let held = Vec::with_capacity(alloc, room)?;
        Ok(MemorySink {
            held,
            room,
            piece,
            calls: 0,
            fails,
            faults: 0,
        })
    }

    /// The bytes that it holds.
    pub fn bytes(&self) -> &[u8]
        ensures { result.now ≡ self.now.held }
    {
        &self.held
    }
}

impl Sink for MemorySink {
    ghost use Rattle.std.specs.Prelude.{Some};

    ghost held = { λ s. Some s.held };

    ghost faults = { λ s. s.faults };

    fn faults(&self) -> u64 {
        self.faults
    }

    fn write(&mut self, piece: &[u8]) -> Result<usize, Failed>
        requires { 0 < length piece.now }
        ensures some { IfOk result (λ count. 0 < count) }
        ensures count { IfOk result (λ count. count ≤ length piece.now) }
        ensures bytes { WriteAppends (Some self.old.held) (Some self.new.held) result piece.now }
        ensures counted { self.old.faults ≤ self.new.faults }
        ensures cause { OnErr result (Rose self.old.faults self.new.faults) }

        // A call fails exactly where its number is one of those that are to fail, or no room is left.
        ensures fails { IsErr result ↔ (Contains self.old.fails (one_more self.old.calls) ⊎ (self.old.room ≡ 0)) }
        ensures failed { OnErr result (self.new ≡ after_failed_write self.old) }

        // Else it takes as many bytes as the room, its greatest piece and the piece handed in allow.
        ensures most { IfOk result (λ count. count ≡ min (min self.old.room self.old.piece) (length piece.now)) }
        ensures after { IfOk result (λ count. self.new ≡ after_write count piece.now self.old) }
    {
        self.calls = self.calls.saturating_add(1);
        if self.room == 0 || self.fails.contains(self.calls) {
            self.faults = self.faults.saturating_add(1);
            return Err(Failed);
        }
        let count = self.room.min(self.piece).min(piece.len());
        self.held.extend_from_slice(&piece[..count]).unwrap();
        self.room -= count;
        Ok(count)
    }
}
