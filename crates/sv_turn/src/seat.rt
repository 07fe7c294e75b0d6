ghost use Rattle.std.specs.Prelude.{◌<◌, All};
ghost use Rattle.sv_turn.specs.Views.{Sits};

use crate::view::View;
use atomic_table::Badge;

/// The right of a party to enter a turnstile, and the places of its entries. A closed one can enter nothing.
#[derive(Drop)]
pub struct Seat<E> {
    pub(crate) badge: Badge<View<E>>,
    pub(crate) party: u32,
    pub(crate) mine: Vec<u64>,
    ghost somebody: { 0 < party },
    ghost seated: { All (Sits party mine.items) badge.views },
}
