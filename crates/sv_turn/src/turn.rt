use crate::view::View;
use crate::{History, Seat, Turnstile};

/// The turn of a seat: the state is here, and nobody else has it. It must be spent by `finish` or `give_back`.
pub struct Turn<'a, S: History> {
    pub(crate) seat: &'a mut Seat<S::Entry>,
    pub(crate) stile: &'a Turnstile<S>,
    pub(crate) place: atomic_table::Seat<Option<S>, View<S::Entry>>,
    pub(crate) ticket: u64,
    pub(crate) state: S,
}
