//! The task of an auxiliary.
ghost use Rattle.std.specs.Prelude.{◌≡◌, ℕ, ◌+◌, ◌≤◌, false, true, IsTrue};
ghost use Rattle.aux_parties.specs.Auxiliaries.{is_auxiliary};
ghost use Rattle.sv_turn.specs.Seating.{known_of, spare_of};
ghost use Rattle.party_turns.specs.Serving.{ComesOn, IsAtWork};
ghost use Rattle.aplsv_serve.specs.Halls.{IsHall, IsSeatAtStile, users_of_stile};
ghost use Rattle.aplsv_serve.specs.Tasks.{AuxiliaryStands};

use crate::hall::Hall;
use crate::part::{Service, give_service};
use apl_io::Gate;
use auxiliaries::Replier;
use party_turns::Auxiliary;
use std::snapshot::Snapshot;
use std::sync::Wait;
use sv_core::EntrySeen;
use sv_turn::Seat;
use task_workers::{Bell, Progress};

/// An auxiliary at its seat: how often it has taken its turn, whether it is done, and what answered behind it when it began.
#[derive(Drop)]
pub struct AuxiliaryTask<X> {
    pub auxiliary: Auxiliary<X>,
    pub seat: Seat<EntrySeen>,
    pub turns: u64,
    pub is_done: bool,
    pub began: Snapshot<X>,
}

impl<X: Replier> AuxiliaryTask<X> {
    /// The task of an auxiliary that begins at this seat, with this to answer behind it.
    pub fn new(party: u32, replier: X, seat: Seat<EntrySeen>) -> Self
        ensures auxiliary { result.auxiliary ≡ record { party = party; replier = replier; is_lost = false } }
        ensures seat { (result.seat ≡ seat) × (result.is_done ≡ false) × (result.began.value ≡ replier) }
    {
        let began = Snapshot::of(&replier);
        AuxiliaryTask {
            auxiliary: Auxiliary::new(party, replier),
            seat,
            turns: 0,
            is_done: false,
            began,
        }
    }

    /// A turn: the auxiliary makes its work, if there is any, until all users have left. Where memory runs out for it, the bell's
    /// mark is set, and it takes no turn any more.
    pub fn take_turn<R: Wait, G: Gate>(
        &mut self,
        rt: &R,
        hall: &Hall<'_, G>,
        bell: &Bell,
    ) -> Progress
        requires hall { IsHall hall.now }
        requires stands { (party : ℕ) × IsTrue (is_auxiliary party) × AuxiliaryStands X.forgets X.replies X.wants party hall.now.stile self.old }
        ensures stands { (party : ℕ) → IsTrue (is_auxiliary party) → AuxiliaryStands X.forgets X.replies X.wants party hall.now.stile self.old → AuxiliaryStands X.forgets X.replies X.wants party hall.now.stile self.new }
        ensures began { self.new.began ≡ self.old.began }
    {
        if self.is_done {
            return Progress::Done;
        }
        if self.seat.reserve().is_err() {
            self.auxiliary.give_up();
            return self.come_of(bell, Service::Rested);
        }
        self.turns = self.turns.saturating_add(1);
        hall.gate.pass(rt, self.seat.party(), self.turns);
        let service = self.enter(rt, hall);
        self.come_of(bell, service)
    }

    // The auxiliary's work in its turn.
    fn enter<R: Wait, G>(&mut self, rt: &R, hall: &Hall<'_, G>) -> Service
        requires hall { IsHall hall.now }
        requires room { 1 ≤ spare_of self.old.seat }
        requires party { IsTrue (is_auxiliary self.old.auxiliary.party) }
        requires seat { IsSeatAtStile hall.now.stile self.old.auxiliary.party self.old.seat }
        ensures same { (self.new.is_done ≡ self.old.is_done) × (self.new.began ≡ self.old.began) × (self.new.auxiliary.party ≡ self.old.auxiliary.party) }
        ensures seat { IsSeatAtStile hall.now.stile self.old.auxiliary.party self.new.seat }
        ensures room { spare_of self.old.seat ≤ spare_of self.new.seat + 1 }
        ensures at_work { (start : X) → IsAtWork X.forgets X.replies (users_of_stile hall.now.stile) self.old.auxiliary.party start (known_of self.old.seat) self.old.auxiliary
            → IsAtWork X.forgets X.replies (users_of_stile hall.now.stile) self.old.auxiliary.party start (known_of self.new.seat) self.new.auxiliary }
        ensures comes { ComesOn X.forgets X.replies X.wants self.old.auxiliary self.new.auxiliary }
    {
        let mut turn = hall.stile.enter(rt, &mut self.seat);
        let service = give_service(&mut self.auxiliary, turn.state(), &hall.users);
        match service {
            Service::Made => turn.finish(),
            _ => turn.give_back(),
        }
        service
    }

    // What comes of a turn: the bell is rung where an entry was made, and marked where memory ran out.
    fn come_of(&mut self, bell: &Bell, service: Service) -> Progress
        ensures same { (self.new.auxiliary ≡ self.old.auxiliary) × (self.new.seat ≡ self.old.seat) × (self.new.began ≡ self.old.began) }
        ensures done { self.old.auxiliary.is_lost ≡ true → self.new.is_done ≡ true }
    {
        let is_lost = self.auxiliary.is_lost();
        if is_lost {
            bell.mark();
        }
        if service == Service::Made {
            bell.ring();
        }
        self.is_done = is_lost || service == Service::Over;
        match service {
            Service::Made => Progress::Went,
            Service::Rested => Progress::Waits,
            Service::Over => Progress::Done,
        }
    }
}
