//! The task of a user.
ghost use Rattle.std.specs.Prelude.{◌≡◌, ◌+◌, ◌≤◌, false, true, None, IfSome, IsTrue, OnSome, option_map};
ghost use Rattle.sv_events.specs.Answer.{plain_answer};
ghost use Rattle.std.specs.Option.{option_map_or};
ghost use Rattle.sv_rules.specs.Entries.{has_left};
ghost use Rattle.sv_rules.specs.Legal.{is_user};
ghost use Rattle.sv_turn.specs.Seating.{known_of, spare_of};
ghost use Rattle.apl_session.specs.declared.session.SessionStage.TheVariants as stage;
ghost use Rattle.party_turns.specs.SoFar.{IsSameUser};
ghost use Rattle.aplsv_serve.specs.Halls.{IsHall, IsSeatAtStile, users_of_stile};
ghost use Rattle.aplsv_serve.specs.UserTasks.{HasComeFar, IsAboutTo, UserStands, WillHaveComeFar, goes_on, lent_to};

use crate::hall::Hall;
use crate::part::take_part;
use apl_io::{Gate, Shelf};
use party_turns::{Intent, TurnResult, UserSeat};
use std::snapshot::Snapshot;
use std::sync::Wait;
use sv_core::EntrySeen;
use sv_turn::Seat;
use task_workers::{Bell, Progress};

/// A user at its seat: how often it has taken its turn, whether it is done, and the user as it began.
#[derive(Drop)]
pub struct UserTask<K> {
    pub user: UserSeat<K>,
    pub seat: Seat<EntrySeen>,
    pub turns: u64,
    pub is_done: bool,
    pub began: Snapshot<UserSeat<K>>,
}

// Whether a user goes on by what it is about to do.
fn goes_on(about: &Option<Intent>) -> bool
    ensures { result ≡ option_map_or goes_on about.now false }
{
    match about {
        None => false,
        Some(intent) => match intent {
            Intent::Make => true,
            Intent::TryAgain => true,
            Intent::Leave => false,
        },
    }
}

impl<K: Shelf> UserTask<K> {
    /// The task of a user that begins at this seat.
    pub fn new(user: UserSeat<K>, seat: Seat<EntrySeen>) -> Self
        ensures { (result.user ≡ user) × (result.seat ≡ seat) × (result.is_done ≡ false) × (result.began.value ≡ user) }
    {
        let began = Snapshot::of(&user);
        UserTask {
            user,
            seat,
            turns: 0,
            is_done: false,
            began,
        }
    }

    /// A turn: the session goes on to its next act, and room is made at the seat; then the act is made in the turn, and at last its
    /// answer is heard. The user leaves where its lines are done, where memory runs out for it, and where the bell's mark is set.
    pub fn take_turn<R: Wait, G: Gate>(
        &mut self,
        rt: &R,
        hall: &Hall<'_, G>,
        bell: &Bell,
    ) -> Progress
        requires hall { IsHall hall.now }
        requires stands { UserStands K.told K.faults hall.now.stile self.old }
        ensures stands { UserStands K.told K.faults hall.now.stile self.new }
        ensures began { self.new.began ≡ self.old.began }
    {
        if self.is_done {
            return Progress::Done;
        }
        let about = self.prepare(bell.is_marked());
        let is_going = goes_on(&about);
        self.turns = self.turns.saturating_add(1);
        hall.gate.pass(rt, self.user.user(), self.turns);
        let came = self.enter(rt, hall, about);
        self.is_done = !is_going || self.user.is_lost;
        if came.is_entered {
            bell.ring();
        }
        self.hear(came)
    }

    // What the user is about to do, once there is room for two entries; nothing where it is to leave before its lines are done.
    fn prepare(&mut self, closes: bool) -> Option<Intent>
        requires stays { has_left (known_of self.old.seat) self.old.user.session.user ≡ false }
        requires far { self.old.user.is_lost ≡ false → HasComeFar K.told K.faults (known_of self.old.seat) (lent_to self.old) self.old.user }
        ensures same { (self.new.is_done ≡ self.old.is_done) × (self.new.began ≡ self.old.began) }
        ensures user { IsSameUser self.old.user.session self.new.user.session }
        ensures seat { (self.new.seat.badge ≡ self.old.seat.badge) × (self.new.seat.party ≡ self.old.seat.party) × (self.new.seat.mine.items ≡ self.old.seat.mine.items) }
        ensures room { spare_of self.old.seat ≤ spare_of self.new.seat }
        ensures about { IfSome result (λ intent. (2 ≤ spare_of self.new.seat) × IsAboutTo K.told K.faults (known_of self.old.seat) (lent_to self.old) self.new.user intent) }
        ensures nothing { result ≡ None → self.new.user.is_lost ≡ true }
    {
        if closes || self.user.is_lost {
            self.user.is_lost = true;
            return None;
        }
        match self.user.prepare() {
            Ok(intent) => self.make_room(intent),
            Err(_) => {
                self.user.is_lost = true;
                None
            }
        }
    }

    // Makes room at the seat for what the user is about to do.
    fn make_room(&mut self, intent: Intent) -> Option<Intent>
        ensures same { (self.new.is_done ≡ self.old.is_done) × (self.new.began ≡ self.old.began) × (self.new.user ≡ record self.old.user { is_lost = self.new.user.is_lost }) }
        ensures seat { (self.new.seat.badge ≡ self.old.seat.badge) × (self.new.seat.party ≡ self.old.seat.party) × (self.new.seat.mine.items ≡ self.old.seat.mine.items) }
        ensures room { spare_of self.old.seat ≤ spare_of self.new.seat }
        ensures about { IfSome result (λ about. (2 ≤ spare_of self.new.seat) × (about ≡ intent) × (self.new.user ≡ self.old.user)) }
        ensures nothing { result ≡ None → self.new.user.is_lost ≡ true }
    {
        match self.seat.reserve() {
            Ok(()) => Some(intent),
            Err(_) => {
                self.user.is_lost = true;
                None
            }
        }
    }

    // What the user does in its turn.
    fn enter<R: Wait, G>(&mut self, rt: &R, hall: &Hall<'_, G>, about: Option<Intent>) -> TurnResult
        requires hall { IsHall hall.now }
        requires user { IsTrue (is_user (users_of_stile hall.now.stile) self.old.user.session.user) }
        requires seat { IsSeatAtStile hall.now.stile self.old.user.session.user self.old.seat }
        requires room { 1 ≤ spare_of self.old.seat }
        requires stays { has_left (known_of self.old.seat) self.old.user.session.user ≡ false }
        requires about { IfSome about (λ intent. IsAboutTo K.told K.faults (known_of self.old.seat) (lent_to self.old) self.old.user intent) }
        ensures same { (self.new.is_done ≡ self.old.is_done) × (self.new.began ≡ self.old.began) × (self.new.user ≡ record self.old.user { is_lost = self.new.user.is_lost }) }
        ensures seat { IsSeatAtStile hall.now.stile self.old.user.session.user self.new.seat }
        ensures room { spare_of self.old.seat ≤ spare_of self.new.seat + 1 }
        ensures far { self.new.user.is_lost ≡ false → WillHaveComeFar K.told K.faults (known_of self.new.seat) (lent_to self.old) self.new.user (option_map plain_answer result.answer) }
        ensures stays { self.new.user.is_lost ≡ false → IfSome about (λ intent. goes_on intent ≡ true → has_left (known_of self.new.seat) self.old.user.session.user ≡ false) }
        ensures nothing { about ≡ None → self.new.user.is_lost ≡ true }
        ensures waiting { OnSome result.answer (self.old.user.session.stage ≡ stage.Waiting) }
    {
        let mut turn = hall.stile.enter(rt, &mut self.seat);
        let came = take_part(&mut self.user, turn.state(), about);
        if came.is_entered {
            turn.finish();
        } else {
            turn.give_back();
        }
        came
    }

    // The session hears the answer of the turn, if there is one.
    fn hear(&mut self, came: TurnResult) -> Progress
        requires waiting { OnSome came.answer (self.old.user.session.stage ≡ stage.Waiting) }
        requires far { self.old.user.is_lost ≡ false → WillHaveComeFar K.told K.faults (known_of self.old.seat) (lent_to self.old) self.old.user (option_map plain_answer came.answer) }
        ensures same { (self.new.is_done ≡ self.old.is_done) × (self.new.began ≡ self.old.began) × (self.new.seat ≡ self.old.seat) }
        ensures user { IsSameUser self.old.user.session self.new.user.session }
        ensures far { self.new.user.is_lost ≡ false → HasComeFar K.told K.faults (known_of self.new.seat) (lent_to self.new) self.new.user }
    {
        let goes_on = came.is_entered || came.answer.is_some();
        if self.user.hear(came.answer).is_err() {
            self.user.is_lost = true;
        }
        if self.is_done {
            Progress::Done
        } else if goes_on {
            Progress::Went
        } else {
            Progress::Waits
        }
    }
}
