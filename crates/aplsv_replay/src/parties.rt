ghost use Rattle.std.specs.Prelude.{◌≡◌, ◌<◌, ◌||◌, ◌∷◌, [], List, All, IsTrue, false, not};
ghost use Rattle.apl_arrays.specs.Ascending.{AscendBy};
ghost use Rattle.sv_core.specs.Core.{ArePeople};
ghost use Rattle.sv_rules.specs.Legal.{is_user};
ghost use Rattle.session_rules.specs.Auxiliaries.{some_stay};
ghost use Rattle.aplsv_replay.specs.SeatTurns.{AreSeatTurns, IsSeatTurn, has_turn};
ghost use Rattle.party_turns.specs.Seats.{seat_numbers};
ghost use Rattle.party_turns.specs.SoFar.{AreSeated, IsOneSeated, IsSeated};
ghost use Rattle.party_turns.specs.Sittings.{Sitting, seats_in};
ghost use Rattle.aplsv_replay.specs.Together.{AreOfSomeBundle, BothComeOn, TakesRounds, TakesTurns, TookAuxiliaryTurn, left_to_do, none_is_lost};
ghost use Rattle.replay_rules.specs.Turns.{ordered, party_turn, round};

use apl_io::Shelf;
use aux_parties::{AuxiliaryKind, auxiliary_at};
use auxiliaries::Replier;
use party_turns::{Auxiliary, UserSeat, all_have_left, none_is_lost};
use sv_core::Core;

/// The parties of a run around its processor: the auxiliaries 10 and 20, and the users, ascending.
#[derive(Drop)]
pub struct Parties<X, Y, K> {
    pub core: Core,
    pub ten: Auxiliary<X>,
    pub twenty: Auxiliary<Y>,
    pub seats: Vec<UserSeat<K>>,
}

impl<X: Replier, Y: Replier, K: Shelf> Parties<X, Y, K> {
    /// A turn for each of these parties, in their order; behind the last leave nothing is done. It takes the memory of
    /// what the parties do; where that runs out for a party, the run is not whole.
    pub fn take_turns(&mut self, order: &[u32])
        requires together { AreOfSomeBundle X.forgets X.replies Y.forgets Y.replies K.told K.faults self.old }
        ensures turns { TakesTurns X.forgets X.replies Y.forgets Y.replies K.told K.faults (ordered order.now) self.old self.new }
        ensures behind { BothComeOn X.forgets X.replies X.wants Y.forgets Y.replies Y.wants self.old self.new }
    {
        for party in order {
            self.take_next_turn(*party);
        }
    }

    /// Rounds over 10, 20 and the users, ascending, until all users have left. It takes memory as `take_turns` does.
    pub fn take_rounds(&mut self)
        requires together { AreOfSomeBundle X.forgets X.replies Y.forgets Y.replies K.told K.faults self.old }
        ensures rounds { TakesRounds X.forgets X.replies Y.forgets Y.replies K.told K.faults self.old self.new }
        ensures over { some_stay self.new.core.users self.new.core.journal ≡ false }
        ensures behind { BothComeOn X.forgets X.replies X.wants Y.forgets Y.replies Y.wants self.old self.new }
    {
        'rounds: while !self.all_have_left() {
            self.take_round();
        }
    }

    /// Whether memory ran out for nobody.
    pub fn is_whole(&self) -> bool
        ensures { result ≡ none_is_lost self.now }
    {
        !self.ten.is_lost() && !self.twenty.is_lost() && none_is_lost(&self.seats)
    }

    // One round: over the auxiliaries, as their table has them, and the users.
    fn take_round(&mut self)
        requires together { AreOfSomeBundle X.forgets X.replies Y.forgets Y.replies K.told K.faults self.old }
        requires stay { IsTrue (some_stay self.old.core.users self.old.core.journal) }
        ensures turns { TakesTurns X.forgets X.replies Y.forgets Y.replies K.told K.faults round self.old self.new }
        ensures less { left_to_do self.new < left_to_do self.old }
        ensures behind { BothComeOn X.forgets X.replies X.wants Y.forgets Y.replies Y.wants self.old self.new }
    {
        self.turn_of(AuxiliaryKind::Clock);
        self.turn_of(AuxiliaryKind::TextFiles);
        self.user_turns(None);
    }

    // The turn of a party, unless all users have left.
    fn take_next_turn(&mut self, party: u32)
        requires together { AreOfSomeBundle X.forgets X.replies Y.forgets Y.replies K.told K.faults self.old }
        ensures turns { TakesTurns X.forgets X.replies Y.forgets Y.replies K.told K.faults (ordered (party ∷ [])) self.old self.new }
        ensures behind { BothComeOn X.forgets X.replies X.wants Y.forgets Y.replies Y.wants self.old self.new }
    {
        if self.all_have_left() {
            return;
        }
        self.take_turn(party);
    }

    // The turn of a party.
    fn take_turn(&mut self, party: u32)
        requires together { AreOfSomeBundle X.forgets X.replies Y.forgets Y.replies K.told K.faults self.old }
        requires stay { IsTrue (some_stay self.old.core.users self.old.core.journal) }
        ensures turns { TakesTurns X.forgets X.replies Y.forgets Y.replies K.told K.faults (party_turn party) self.old self.new }
        ensures behind { BothComeOn X.forgets X.replies X.wants Y.forgets Y.replies Y.wants self.old self.new }
    {
        match auxiliary_at(party) {
            None => self.user_turns(Some(party)),
            Some(row) => self.turn_of(row.kind),
        }
    }

    // The turn of an auxiliary.
    fn turn_of(&mut self, kind: AuxiliaryKind)
        requires together { AreOfSomeBundle X.forgets X.replies Y.forgets Y.replies K.told K.faults self.old }
        requires stay { IsTrue (some_stay self.old.core.users self.old.core.journal) }
        ensures took { TookAuxiliaryTurn X.forgets X.replies Y.forgets Y.replies K.told K.faults kind self.old self.new }
        ensures behind { BothComeOn X.forgets X.replies X.wants Y.forgets Y.replies Y.wants self.old self.new }
    {
        match kind {
            AuxiliaryKind::Clock => {
                self.ten.take_turn(&mut self.core);
            }
            AuxiliaryKind::TextFiles => {
                self.twenty.take_turn(&mut self.core);
            }
        }
    }

    // A turn for each user, in their order, or for the one with this number alone. Each user leaves at its turn where memory
    // ran out for an auxiliary.
    fn user_turns(&mut self, only: Option<u32>)
        requires together { AreOfSomeBundle X.forgets X.replies Y.forgets Y.replies K.told K.faults self.old }
        ensures turns { (sittings : List (Sitting K)) → seats_in sittings ≡ self.old.seats.items → All (IsSeated K.told K.faults self.old.core.journal) sittings
            → AreSeatTurns K.told K.faults (has_turn only) (self.old.ten.is_lost || self.old.twenty.is_lost) self.old.core sittings self.new.core self.new.seats.items }
        ensures ten { self.new.ten ≡ self.old.ten }
        ensures twenty { self.new.twenty ≡ self.old.twenty }
    {
        let closes = self.closes();
        seat_turns(&mut self.core, &mut self.seats, only, closes);
    }

    // Whether each user leaves at its next turn: memory ran out for an auxiliary.
    fn closes(&self) -> bool
        ensures { result ≡ (self.now.ten.is_lost || self.now.twenty.is_lost) }
    {
        self.ten.is_lost() || self.twenty.is_lost()
    }

    // Whether all users have left.
    fn all_have_left(&self) -> bool
        ensures { result ≡ not (some_stay (seat_numbers self.now.seats.items) self.now.core.journal) }
    {
        all_have_left(&self.core, &self.seats)
    }
}

// The turns of those users that are due, in their order: of each, or of the one with this number.
fn seat_turns<K: Shelf>(core: &mut Core, seats: &mut [UserSeat<K>], only: Option<u32>, closes: bool)
    requires users { All (λ seat. IsTrue (is_user core.old.users seat.session.user)) seats.old }
    requires people { ArePeople core.old.users }
    requires ascending { AscendBy (λ seat. seat.session.user) seats.old }
    requires seated { AreSeated K.told K.faults core.old.journal seats.old }
    ensures { (sittings : List (Sitting K)) → seats_in sittings ≡ seats.old → All (IsSeated K.told K.faults core.old.journal) sittings
        → AreSeatTurns K.told K.faults (has_turn only) closes core.old sittings core.new seats.new }
{
    match seats.split_first_mut() {
        None => {}
        Some((seat, others)) => {
            let due = is_due(only, seat.user());
            seat_turn(core, seat, due, closes);
            seat_turns(core, others, only, closes);
        }
    }
}

// The turn of a user, where it is due.
fn seat_turn<K: Shelf>(core: &mut Core, seat: &mut UserSeat<K>, due: bool, closes: bool)
    requires user { IsTrue (is_user core.old.users seat.old.session.user) }
    requires people { ArePeople core.old.users }
    requires seated { IsOneSeated K.told K.faults core.old.journal seat.old }
    ensures { (sitting : Sitting K) → sitting.seat ≡ seat.old → IsSeated K.told K.faults core.old.journal sitting → IsSeatTurn K.told K.faults due closes core.old sitting core.new seat.new }
{
    if !due {
        return;
    }
    seat.take_turn(core, closes);
}

// Whether a turn is a user's: it is that of each user, or of the one with this number.
fn is_due(only: Option<u32>, user: u32) -> bool
    ensures { result ≡ has_turn only user }
{
    match only {
        None => true,
        Some(party) => user == party,
    }
}
