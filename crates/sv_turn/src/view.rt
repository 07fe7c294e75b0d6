use std::collections::LinkedList;

/// Where a seat is: outside, waiting with a ticket, or with its turn. No value of it is made.
pub enum SeatStage {
    Away,
    Waits(u64),
    Holds(u64),
}

/// What is known of a party: its places, ascending, and the journal at its last turn, the newest entry first. No value of it is made.
pub struct Account<E> {
    pub party: u64,
    pub places: LinkedList<u64>,
    pub known: LinkedList<E>,
}

/// What a seat knows. No value of it is made.
pub struct View<E> {
    /// One seat is the maker: it numbers parties, and `last` is the party that it numbered last.
    pub maker: bool,
    pub last: u64,
    /// Its part of the right to close.
    pub weight: u64,
    /// The members of the state at the start.
    pub members: LinkedList<u64>,
    /// Its party's.
    pub account: Account<E>,
    pub stage: SeatStage,
    /// Those of the seats that it took in.
    pub kept: LinkedList<Account<E>>,
}
