//! Making a turnstile and its seats.
ghost use Rattle.std.specs.Prelude.{◌≡◌, ◌+◌, ◌-◌, ◌^◌, ◌<◌, ◌≤◌, [], ◌∷◌, IfOk, Some, All, AllPairs, map, length, vec_len, vec_capacity};
ghost use Rattle.sv_turn.specs.Views.{maker_of, maker_after, Sits};
ghost use Rattle.sv_turn.specs.Seating.{IsNew, BelongsTo, start_members, seats_given, known_of};

use crate::order::{Order, Start};
use crate::steps::{number, split};
use crate::view::View;
use crate::{History, Seat, Seats, Turnstile, WantOfMemory};
use atomic_table::{Shared, Table};
use crossbeam_utils::sync::EventCount;
use std::alloc::Global;
use std::snapshot::Snapshot;

fn hang_bells(alloc: Global, count: usize) -> Result<Vec<EventCount>, WantOfMemory>
    ensures { IfOk result (λ bells. vec_len bells ≡ count) }
{
    let mut bells = Vec::with_capacity(alloc, count)?;
    for _ in 0..count {
        bells.push_reserved(EventCount::new());
    }
    Ok(bells)
}

fn lay<S: History + Drop>(
    alloc: Global,
    start: S,
    count: usize,
) -> Result<
    (
        Table<Option<S>, View<S::Entry>, Start<S>, Order, Global>,
        atomic_table::Seat<Option<S>, View<S::Entry>>,
    ),
    WantOfMemory,
>
    requires { S.entries start ≡ [] }
    ensures table { IfOk result (λ t. (t.0.shared.table_id.words ≡ 4) × (t.0.shared.table_id.slots ≡ 1) × (t.1.table_id ≡ t.0.shared.table_id)) }
    ensures key { IfOk result (λ t. (t.0.shared.key.parties ≡ count) × (t.0.shared.key.state.value ≡ start)) }
    ensures place { IfOk result (λ t. t.1.me ≡ (maker_of count (S.members_of start), [])) }
{
    let key = Start {
        parties: count as u64,
        state: Snapshot::of(&start),
    };
    let slots = one_slot(alloc, start)?;
    match Table::new(alloc, &[0, 0, 0, 0], slots, &key) {
        Ok(made) => Ok(made),
        Err(refused) => {
            drop(refused);
            Err(WantOfMemory)
        }
    }
}

fn one_slot<S: Drop>(alloc: Global, start: S) -> Result<Vec<Option<S>>, WantOfMemory>
    ensures { IfOk result (λ slots. slots.items ≡ Some start ∷ []) }
{
    let mut slots = Vec::with_capacity(alloc, 1)?;
    slots.push_reserved(Some(start));
    Ok(slots)
}

fn sit<S, E>(alloc: Global, place: atomic_table::Seat<Option<S>, View<E>>, party: u32) -> Seat<E>
    requires { (0 < party) × (place.me.1 ≡ []) × Sits party [] place.me.0 }
    ensures { (result.badge.table_id ≡ place.table_id) × (result.badge.views ≡ place.me.0 ∷ []) × (result.party ≡ party) × (result.mine.items ≡ []) }
{
    Seat {
        badge: place.into_badge(),
        party,
        mine: Vec::new(alloc),
    }
}

// The next seat, for the next party, which isn't the last.
fn seat_one<S: History>(
    alloc: Global,
    shared: &Shared<Option<S>, View<S::Entry>, Start<S>, Order>,
    place: &mut atomic_table::Seat<Option<S>, View<S::Entry>>,
    party: u32,
) -> Seat<S::Entry>
    requires table { (place.old.table_id ≡ shared.now.table_id) × (shared.now.table_id.words ≡ 4) }
    requires maker { place.old.me ≡ (maker_after place.old.me.0.weight place.old.me.0.members place.old.me.0.last, []) }
    requires next { (1 < place.old.me.0.weight) × (place.old.me.0.last < party) }
    ensures table { place.new.table_id ≡ place.old.table_id }
    ensures maker { place.new.me ≡ (maker_after (place.old.me.0.weight - 1) place.old.me.0.members party, []) }
    ensures seat { IsNew place.old.table_id place.old.me.0.members result × (result.party ≡ party) }
{
    number(shared, place, party);
    sit(alloc, split(shared, place), party)
}

// One seat for each party, in their order. The maker has the last one.
fn seat_all<S: History>(
    alloc: Global,
    shared: &Shared<Option<S>, View<S::Entry>, Start<S>, Order>,
    mut place: atomic_table::Seat<Option<S>, View<S::Entry>>,
    parties: &[u32],
    mut list: Vec<Seat<S::Entry>>,
) -> Vec<Seat<S::Entry>>
    requires table { (place.table_id ≡ shared.now.table_id) × (shared.now.table_id.words ≡ 4) }
    requires maker { place.me ≡ (maker_after (length parties.now) place.me.0.members 0, []) }
    requires parties { (0 < length parties.now) × All (λ party. 0 < party) parties.now × AllPairs (λ party next. party < next) parties.now }
    requires room { (list.items ≡ []) × (length parties.now ≤ vec_capacity list) }
    ensures parties { map (λ seat. seat.party) result.items ≡ parties.now }
    ensures seats { All (IsNew shared.now.table_id place.me.0.members) result.items }
{
    let last = parties.len() - 1;
    for index in 0..last {
        list.push_reserved(seat_one(alloc, shared, &mut place, parties[index]));
    }
    number(shared, &mut place, parties[last]);
    list.push_reserved(sit(alloc, place, parties[last]));
    list
}

impl<S: History + Drop> Turnstile<S> {
    /// A turnstile over a state, and one seat for each party, in their order. `WantOfMemory` drops the state.
    pub fn new(
        alloc: Global,
        start: S,
        parties: &[u32],
    ) -> Result<(Turnstile<S>, Seats<S::Entry>), WantOfMemory>
        requires parties { (0 < length parties.now) × All (λ party. 0 < party) parties.now × AllPairs (λ party next. party < next) parties.now }
        requires empty { S.entries start ≡ [] }
        ensures parties { IfOk result (λ made. map (λ seat. seat.party) made.1.list.items ≡ parties.now) }
        ensures seats { IfOk result (λ made. All (BelongsTo S.members_of made.0) made.1.list.items) }
        ensures places { IfOk result (λ made. All (λ seat. seat.mine.items ≡ []) made.1.list.items) }
        ensures known { IfOk result (λ made. All (λ seat. known_of seat ≡ []) made.1.list.items) }
        ensures given { IfOk result (λ made. seats_given made.0 ≡ length parties.now) }
        ensures members { IfOk result (λ made. start_members S.members_of made.0 ≡ S.members_of start) }
    {
        let bells = hang_bells(alloc, parties.len())?;
        let list = Vec::with_capacity(alloc, parties.len())?;
        let (table, place) = lay(alloc, start, parties.len())?;
        let list = seat_all(alloc, &table.shared, place, parties, list);
        Ok((Turnstile { table, bells }, Seats { list }))
    }
}
