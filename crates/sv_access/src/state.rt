ghost use Rattle.std.specs.Prelude.{◌≡◌};
ghost use Rattle.sv_access.specs.State.{state_after, vector_of_state};

use crate::access::{Kind, Side};
use crate::control::Control;

/// Whose set the other side has not used yet, of two offers that are coupled or of one that is open.
#[derive(Clone, Copy, Debug, PartialEq, Eq)]
pub enum AccessState {
    Quiet,
    UnseenA,
    UnseenB,
}

/// The state after a granted access.
pub fn after(state: AccessState, side: Side, kind: Kind) -> AccessState
    ensures { result ≡ state_after state side kind }
{
    match (side, kind, state) {
        (Side::A, Kind::Set, _) => AccessState::UnseenA,
        (Side::B, Kind::Set, _) => AccessState::UnseenB,
        (Side::A, Kind::Use, AccessState::UnseenB) | (Side::B, Kind::Use, AccessState::UnseenA) =>
            AccessState::Quiet,
        (_, Kind::Use, _) => state,
    }
}

/// The accesses that a state lets control hold, as a side sees them.
pub fn view(state: AccessState, side: Side) -> Control
    ensures { result ≡ vector_of_state state side }
{
    match (state, side) {
        (AccessState::Quiet, _) => Control([false, false, true, true]),
        (AccessState::UnseenA, Side::A) | (AccessState::UnseenB, Side::B) => {
            Control([true, false, true, false])
        }
        (AccessState::UnseenA, Side::B) | (AccessState::UnseenB, Side::A) => {
            Control([false, true, false, true])
        }
    }
}
