//! The right to enter, out of a seat and back into it.
ghost use Rattle.std.specs.Prelude.{◌≡◌, ◌<◌, [], ◌∷◌};
ghost use Rattle.sv_turn.specs.Views.{Sits};
ghost use Rattle.sv_turn.specs.Seating.{IsClosed};

use crate::Seat;
use crate::view::View;
use atomic_table::Badge;
use std::mem;

/// Takes the right to enter out of a seat.
pub fn rise<S, E>(seat: &mut Seat<E>) -> atomic_table::Seat<Option<S>, View<E>>
    requires { (view : View E) × (seat.old.badge.views ≡ view ∷ []) }
    ensures place { (result.table_id ≡ seat.old.badge.table_id) × (result.me.1 ≡ []) × (seat.old.badge.views ≡ result.me.0 ∷ []) }
    ensures sits { Sits seat.old.party seat.old.mine.items result.me.0 × (0 < seat.old.party) }
    ensures seat { IsClosed seat.new × (seat.new.party ≡ seat.old.party) × (seat.new.mine ≡ seat.old.mine) }
{
    mem::replace(&mut seat.badge, Badge::blank()).into_seat()
}

/// Puts the right to enter back into a seat.
pub fn settle<S, E>(seat: &mut Seat<E>, place: atomic_table::Seat<Option<S>, View<E>>)
    requires { (place.me.1 ≡ []) × Sits seat.old.party seat.old.mine.items place.me.0 }
    ensures place { (seat.new.badge.table_id ≡ place.table_id) × (seat.new.badge.views ≡ place.me.0 ∷ []) }
    ensures seat { (seat.new.party ≡ seat.old.party) × (seat.new.mine ≡ seat.old.mine) }
{
    seat.badge = place.into_badge();
}
