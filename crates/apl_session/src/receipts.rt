ghost use Rattle.std.specs.Prelude.{◌≡◌, ◌+◌, ◌<◌, ◌≤◌, ◌∷◌, [], ◌++◌, IsOk, OnOk, OnErr, map};
ghost use Rattle.apl_session.specs.Receipts.{plain_receipt};

use apl_arrays::{List, WantOfMemory};
use std::alloc::Global;
use std::marker::Model;
use sv_events::{Act, Answer};

/// An act that a session asked, and the answer that it was given.
#[derive(Debug, Drop)]
pub struct Receipt {
    pub act: Act,
    pub answer: Answer,
}

/// The receipts of a session, in the order of its acts. It is seen as acts and answers, and the room that is left.
#[derive(Debug, Drop)]
pub struct Receipts {
    receipts: List<Receipt>,
}

impl Model for Receipts {
    ghost use Rattle.std.specs.Prelude.{map};
    ghost use Rattle.apl_arrays.specs.List.{Listed};
    ghost use Rattle.apl_session.specs.Receipts.{PlainReceipt, plain_receipt};

    ghost Value = { Listed PlainReceipt };

    ghost view = { λ r. record { items = map plain_receipt r.receipts.items; room = r.receipts.room } };
}

impl Receipts {
    /// No receipts.
    pub fn new(alloc: Global) -> Self
        ensures { result.items ≡ [] }
    {
        Receipts {
            receipts: List::new(alloc),
        }
    }

    /// The receipts, in order.
    pub fn as_slice(&self) -> &[Receipt]
        ensures { map plain_receipt result.now ≡ self.now.items }
    {
        self.receipts.as_slice()
    }

    /// The receipts as a `Vec`.
    pub fn into_vec(self) -> Vec<Receipt>
        ensures { map plain_receipt result.items ≡ self.items }
    {
        self.receipts.into_vec()
    }

    /// Makes room for at least so many pushes, and takes memory for it. `WantOfMemory` leaves the list as it was.
    pub fn reserve(&mut self, room: usize) -> Result<(), WantOfMemory>
        ensures items { self.new.items ≡ self.old.items }
        ensures room { OnOk result (room ≤ self.new.room) }
        ensures kept { self.old.room ≤ self.new.room }
        ensures err { OnErr result (self.new ≡ self.old) }
        ensures granted { room ≤ self.old.room → IsOk result }
    {
        self.receipts.reserve(room)
    }

    /// Adds a receipt at the end. Where there is room it is granted and takes no memory, else it takes memory for more.
    /// `WantOfMemory` leaves the list as it was.
    pub fn push(&mut self, receipt: Receipt) -> Result<(), WantOfMemory>
        ensures ok { OnOk result (self.new.items ≡ self.old.items ++ plain_receipt receipt ∷ []) }
        ensures err { OnErr result (self.new ≡ self.old) }
        ensures granted { 0 < self.old.room → IsOk result }
        ensures room { 0 < self.old.room → self.new.room + 1 ≡ self.old.room }
    {
        self.receipts.push(receipt)
    }
}
