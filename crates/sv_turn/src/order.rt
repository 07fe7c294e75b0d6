//! The table that the seats share: its rule, and the names of its steps.
//! The words are the tickets taken, the tickets served, the length of the journal and the last party numbered. The slot holds the state.
ghost use Rattle.sv_turn.specs.Views.{maker_of, spent, left_of, right_of, joined_view};
ghost use Rattle.sv_turn.specs.Order.{InOrder};
ghost use Rattle.sv_turn.specs.Plays.{NumbersParty, Draws, Looks, Counts, Releases};

use crate::History;
use crate::view::View;
use atomic_table::{Join, Play, Split, TableRule};
use std::snapshot::Snapshot;

/// How many parties there are, and the state at the start.
#[derive(Drop)]
pub struct Start<S> {
    pub parties: u64,
    pub state: Snapshot<S>,
}

pub struct Order;

impl<S: History> TableRule<Option<S>, View<S::Entry>, Start<S>> for Order {
    ghost holds = { λ key. InOrder S.entries S.members_of S.party_of key.parties (S.members_of key.state.value) };

    ghost first = { λ key. maker_of key.parties (S.members_of key.state.value) };
}

/// The maker takes the next party.
pub struct Number;

impl<S: History> Play<Option<S>, View<S::Entry>> for Number {
    ghost then = { NumbersParty };
}

/// The maker gives its party to a new seat.
pub struct Seated;

impl<E> Split<View<E>> for Seated {
    ghost left = { left_of };

    ghost right = { right_of };
}

/// A seat takes in another.
pub struct Gathered;

impl<E> Join<View<E>> for Gathered {
    ghost both = { joined_view };

    ghost spent = { spent };
}

/// A seat takes a ticket.
pub struct Draw;

impl<S: History> Play<Option<S>, View<S::Entry>> for Draw {
    ghost then = { Draws };
}

/// A seat looks whether its turn has come.
pub struct Look;

impl<S: History> Play<Option<S>, View<S::Entry>> for Look {
    ghost then = { Looks S.entries S.members_of S.party_of };
}

/// A seat gives its turn on.
pub struct Release;

impl<S: History> Play<Option<S>, View<S::Entry>> for Release {
    ghost then = { Releases };
}

/// A seat counts its entry.
pub struct Count;

impl<S: History> Play<Option<S>, View<S::Entry>> for Count {
    ghost then = { Counts S.entries };
}
