//! Entering a turnstile and leaving it.
ghost use Rattle.std.specs.Prelude.{◌≡◌, ℕ, ◌%◌, ◌^◌, ◌+◌, ◌<◌, [], ◌∷◌, true, false, None, Some, vec_len};
ghost use Rattle.std.specs.Borrow.{sem};
ghost use Rattle.sv_turn.specs.declared.view.SeatStage.TheVariants.{Waits};
ghost use Rattle.sv_turn.specs.Journals.{places_of, Begins};
ghost use Rattle.sv_turn.specs.Plays.{IsHere};
ghost use Rattle.sv_turn.specs.Seating.{BelongsTo, IsSeatAt, start_members, known_of};
ghost use Rattle.sv_turn.specs.Turning.{journal_in, members_in, table_in, IsGiven, LendsState};

use crate::sitting::{rise, settle};
use crate::steps::{draw, look, put, release, serving, take};
use crate::turn::Turn;
use crate::view::View;
use crate::{History, Seat, Turnstile};
use crossbeam_utils::sync::EventCount;
use std::sync::Wait;
use std::thread;

// How often a thread looks for its turn before it sleeps.
const LOOKS: u32 = 16;

// How often it does where so few turns come before its own.
const LOOKS_NEAR: u32 = 64;

const NEAR: u64 = 3;

impl<S: History> Turnstile<S> {
    // The bell of a ticket: its place in the row.
    pub(crate) fn bell(&self, ticket: u64) -> &EventCount {
        &self.bells[(ticket % self.bells.len() as u64) as usize]
    }

    // How many turns come before that of a ticket.
    fn turns_before(&self, ticket: u64) -> u64 {
        ticket.wrapping_sub(serving(&self.table.shared))
    }

    // Sleeps until the bell of a ticket rings, unless its turn has come. No ring is missed: a thread says that it waits before it
    // looks, and who gives a turn on does so before it rings.
    fn sleep<R: Wait>(&self, rt: &R, ticket: u64) {
        let key = self.bell(ticket).prepare_wait();
        if self.turns_before(ticket) != 0 {
            key.wait(rt);
        }
    }

    // Whether a thread that looked so often is to look once more before it sleeps.
    fn looks_again(&self, ticket: u64, looks: u32) -> bool {
        looks < LOOKS || (looks < LOOKS_NEAR && self.turns_before(ticket) <= NEAR)
    }

    // What a thread does between two looks: it lets others run, or it sleeps where it looked too often. How often it looked since
    // it slept.
    fn pause<R: Wait>(&self, rt: &R, ticket: u64, looks: u32) -> u32 {
        if self.looks_again(ticket, looks) {
            thread::yield_now();
            looks.saturating_add(1)
        } else {
            self.sleep(rt, ticket);
            0
        }
    }

    // Waits until the turn of a ticket comes.
    fn wait_turn<R: Wait>(
        &self,
        rt: &R,
        place: &mut atomic_table::Seat<Option<S>, View<S::Entry>>,
        ticket: u64,
    )
        requires table { place.old.table_id ≡ self.now.table.shared.table_id }
        requires waits { (number : ℕ) × (place.old.me.0.stage ≡ Waits number) × (ticket ≡ number % 2 ^ 64) }
        ensures table { place.new.table_id ≡ place.old.table_id }
        ensures here { IsHere S.entries S.members_of S.party_of place.old.me place.new.me }
    {
        let mut looks = 0;
        for _ in rt.forever() {
            if look(&self.table.shared, place, ticket) {
                return;
            }
            looks = self.pause(rt, ticket, looks);
        }
        unreachable!()
    }

    /// Waits for the turn of a seat, and takes it. It may wait for ever.
    pub fn enter<'a, R: Wait>(&'a self, rt: &R, seat: &'a mut Seat<S::Entry>) -> Turn<'a, S>
        requires own { BelongsTo S.members_of self.now seat.old }
        ensures same_reference { result.seat.ghost_name ≡ seat.entry.ghost_name }
        ensures seat { (result.seat.now.party ≡ seat.old.party) × (result.seat.now.mine ≡ seat.old.mine) }
        ensures given { IsGiven result }
        ensures begins { Begins (known_of seat.old) (S.entries result.state) }
        ensures mine { seat.old.mine.items ≡ places_of S.party_of seat.old.party (S.entries result.state) }
        ensures members { S.members_of result.state ≡ start_members S.members_of self.now }
        ensures found { (journal_in result ≡ S.entries result.state) × (members_in result ≡ start_members S.members_of self.now) × (table_in result ≡ self.now.table.shared.table_id) }
    {
        let mut place = rise(seat);
        let ticket = draw(&self.table.shared, &mut place);
        self.wait_turn(rt, &mut place, ticket);
        let state = take(&self.table.shared, &mut place);
        Turn {
            seat,
            stile: self,
            place,
            ticket,
            state,
        }
    }
}

impl<'a, S: History> Turn<'a, S> {
    /// The state.
    pub fn state(&mut self) -> &mut S
        ensures* writes_back { sem 𝓛 (LendsState S.row S.Entry.row S.History self.entry result) }
        ensures value { result.now ≡ self.old.state }
    {
        &mut self.state
    }

    /// Ends the turn, with the journal and the members as they were found.
    pub fn give_back(self)
        requires given { IsGiven self }
        requires journal { S.entries self.state ≡ journal_in self }
        requires members { S.members_of self.state ≡ members_in self }
        ensures same { (self.exit.0.now.party ≡ self.entry.seat.now.party) × (self.exit.0.now.mine ≡ self.entry.seat.now.mine) }
        ensures known { known_of self.exit.0.now ≡ journal_in self.entry }
        ensures own { IsSeatAt (table_in self.entry) (members_in self.entry) self.exit.0.now }
    {
        let Turn {
            seat,
            stile,
            mut place,
            ticket,
            state,
        } = self;
        put(&stile.table.shared, &mut place, state);
        release(&stile.table.shared, &mut place);
        settle(seat, place);
        stile.bell(ticket.wrapping_add(1)).notify_one();
    }
}
