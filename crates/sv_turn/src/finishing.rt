//! Entries: room for their places, and turns that end with one.
ghost use Rattle.std.specs.Prelude.{◌≡◌, ◌+◌, ◌<◌, ◌≤◌, [], ◌∷◌, ◌++◌, Some, IsOk, OnErr, OnOk, length};
ghost use Rattle.sv_turn.specs.Journals.{AddsOne};
ghost use Rattle.sv_turn.specs.Seating.{IsSeatAt, IsClosed, known_of, spare_of};
ghost use Rattle.sv_turn.specs.Turning.{journal_in, members_in, table_in, IsGiven};

use crate::sitting::settle;
use crate::steps::{count, put, release};
use crate::turn::Turn;
use crate::{History, Seat, WantOfMemory};

// Puts one more place into a seat that is in its turn.
fn note<E>(seat: &mut Seat<E>, place: u64)
    requires { IsClosed seat.old × (1 ≤ spare_of seat.old) }
    ensures mine { seat.new.mine.items ≡ seat.old.mine.items ++ place ∷ [] }
    ensures room { spare_of seat.new + 1 ≡ spare_of seat.old }
    ensures seat { IsClosed seat.new × (seat.new.party ≡ seat.old.party) }
{
    seat.mine.push_reserved(place);
}

impl<E> Seat<E> {
    /// Whose seat it is.
    pub fn party(&self) -> u32
        ensures { (result ≡ self.now.party) × (0 < result) }
    {
        self.party
    }

    /// Makes room for the places of at least two entries. It takes memory where there is less; `WantOfMemory` leaves the seat as it was.
    pub fn reserve(&mut self) -> Result<(), WantOfMemory>
        ensures room { OnOk result (2 ≤ spare_of self.new) }
        ensures kept { spare_of self.old ≤ spare_of self.new }
        ensures seat { (self.new.badge ≡ self.old.badge) × (self.new.party ≡ self.old.party) × (self.new.mine.items ≡ self.old.mine.items) }
        ensures err { OnErr result (spare_of self.new ≡ spare_of self.old) }
        ensures granted { 2 ≤ spare_of self.old → IsOk result }
    {
        self.mine.reserve(2)?;
        Ok(())
    }

    /// The places of this seat's entries, ascending.
    pub fn mine(&self) -> &[u64]
        ensures { result.now ≡ self.now.mine.items }
    {
        &self.mine
    }
}

impl<S: History> Turn<'_, S> {
    /// Ends the turn with one entry of the seat's party more, and keeps its place.
    pub fn finish(self)
        requires given { IsGiven self }
        requires one { AddsOne S.party_of self.seat.now.party (journal_in self) (S.entries self.state) }
        requires members { S.members_of self.state ≡ members_in self }
        requires room { 1 ≤ spare_of self.seat.now }
        ensures party { self.exit.0.now.party ≡ self.entry.seat.now.party }
        ensures mine { self.exit.0.now.mine.items ≡ self.entry.seat.now.mine.items ++ length (S.entries self.entry.state) ∷ [] }
        ensures known { known_of self.exit.0.now ≡ S.entries self.entry.state }
        ensures room { spare_of self.exit.0.now + 1 ≡ spare_of self.entry.seat.now }
        ensures own { IsSeatAt (table_in self.entry) (members_in self.entry) self.exit.0.now }
    {
        let Turn {
            seat,
            stile,
            mut place,
            ticket,
            state,
        } = self;
        let number = state.len();
        put(&stile.table.shared, &mut place, state);
        count(&stile.table.shared, &mut place);
        release(&stile.table.shared, &mut place);
        note(seat, number);
        settle(seat, place);
        stile.bell(ticket.wrapping_add(1)).notify_one();
    }
}
