//! Closing a turnstile: its seats are joined into one, which has the whole right to close.
ghost use Rattle.std.specs.Prelude.{◌≡◌, ◌+◌, ◌<◌, [], ◌∷◌, ◌++◌, All, map, length};
ghost use Rattle.sv_turn.specs.declared.view.SeatStage.TheVariants.{Away};
ghost use Rattle.sv_turn.specs.Journals.{places_of, Begins};
ghost use Rattle.sv_turn.specs.Views.{accounts_of};
ghost use Rattle.sv_turn.specs.Order.{IsTold};
ghost use Rattle.sv_turn.specs.Seating.{IsSeatAt, IsClosed, BelongsTo, party_and_places, seat_account, known_of, seats_given, start_members};

use crate::order::{Order, Start};
use crate::sitting::rise;
use crate::steps::gather;
use crate::view::View;
use crate::{History, Seat, Seats, Turnstile};
use atomic_table::{Shared, Table};
use std::alloc::Global;

// Takes in one more seat.
fn gather_next<S: History>(
    shared: &Shared<Option<S>, View<S::Entry>, Start<S>, Order>,
    place: &mut atomic_table::Seat<Option<S>, View<S::Entry>>,
    seat: &mut Seat<S::Entry>,
)
    requires table { (place.old.table_id ≡ shared.now.table_id) × (shared.now.table_id.words ≡ 4) }
    requires place { (place.old.me.1 ≡ []) × (place.old.me.0.stage ≡ Away) × (0 < place.old.me.0.account.party) }
    requires seat { IsSeatAt shared.now.table_id (S.members_of shared.now.key.state.value) seat.old }
    ensures table { place.new.table_id ≡ place.old.table_id }
    ensures place { (place.new.me.1 ≡ []) × (place.new.me.0.stage ≡ Away) × (0 < place.new.me.0.account.party) }
    ensures weight { place.new.me.0.weight ≡ place.old.me.0.weight + 1 }
    ensures accounts { accounts_of place.new.me.0 ≡ accounts_of place.old.me.0 ++ seat_account seat.old ∷ [] }
    ensures seat { IsClosed seat.new × (party_and_places seat.new ≡ party_and_places seat.old) }
{
    gather(shared, place, rise(seat));
}

// The first seat, as what takes in the others.
fn gather_first<S: History>(
    seat: &mut Seat<S::Entry>,
) -> atomic_table::Seat<Option<S>, View<S::Entry>>
    requires { (view : View S.Entry) × (seat.old.badge.views ≡ view ∷ []) }
    ensures place { (result.table_id ≡ seat.old.badge.table_id) × (result.me.1 ≡ []) × (result.me.0.stage ≡ Away) × (0 < result.me.0.account.party) }
    ensures weight { result.me.0.weight ≡ 1 }
    ensures accounts { accounts_of result.me.0 ≡ seat_account seat.old ∷ [] }
    ensures seat { IsClosed seat.new × (party_and_places seat.new ≡ party_and_places seat.old) }
{
    rise(seat)
}

// One seat with the right of all.
fn gather_all<S: History>(
    shared: &Shared<Option<S>, View<S::Entry>, Start<S>, Order>,
    list: &mut Vec<Seat<S::Entry>>,
) -> atomic_table::Seat<Option<S>, View<S::Entry>>
    requires table { shared.now.table_id.words ≡ 4 }
    requires seats { (0 < length list.old.items) × All (IsSeatAt shared.now.table_id (S.members_of shared.now.key.state.value)) list.old.items }
    ensures place { (result.table_id ≡ shared.now.table_id) × (result.me.1 ≡ []) × (result.me.0.stage ≡ Away) × (0 < result.me.0.account.party) }
    ensures weight { result.me.0.weight ≡ length list.old.items }
    ensures accounts { accounts_of result.me.0 ≡ map seat_account list.old.items }
    ensures same { map party_and_places list.new.items ≡ map party_and_places list.old.items }
    ensures closed { All IsClosed list.new.items }
{
    let mut place = gather_first(&mut list[0]);
    for index in 1..list.len() {
        gather_next(shared, &mut place, &mut list[index]);
    }
    place
}

// The state, once one seat has the right of all.
fn take_out<S: History>(
    table: Table<Option<S>, View<S::Entry>, Start<S>, Order, Global>,
    place: atomic_table::Seat<Option<S>, View<S::Entry>>,
) -> S
    requires table { (place.table_id ≡ table.shared.table_id) × (table.shared.table_id.slots ≡ 1) }
    requires place { (place.me.0.stage ≡ Away) × (0 < place.me.0.account.party) }
    requires whole { place.me.0.weight ≡ table.shared.key.parties }
    ensures members { S.members_of result ≡ S.members_of table.shared.key.state.value }
    ensures told { All (IsTold S.party_of (S.entries result)) (accounts_of place.me.0) }
{
    let mut closed = table.close_with(place);
    let state = closed.take(0);
    closed.free();
    state.unwrap()
}

impl<S: History> Turnstile<S> {
    /// Ends the turnstile: the state, and the seats with the places of their entries. They can enter nothing any more.
    pub fn close(self, seats: Seats<S::Entry>) -> (S, Seats<S::Entry>)
        requires all { length seats.list.items ≡ seats_given self }
        requires own { All (BelongsTo S.members_of self) seats.list.items }
        ensures same { map party_and_places result.1.list.items ≡ map party_and_places seats.list.items }
        ensures places { All (λ seat. seat.mine.items ≡ places_of S.party_of seat.party (S.entries result.0)) result.1.list.items }
        ensures known { All (λ seat. Begins (known_of seat) (S.entries result.0)) seats.list.items }
        ensures members { S.members_of result.0 ≡ start_members S.members_of self }
        ensures closed { All IsClosed result.1.list.items }
    {
        let Turnstile { table, bells: _ } = self;
        let Seats { mut list } = seats;
        let place = gather_all(&table.shared, &mut list);
        (take_out(table, place), Seats { list })
    }
}
