ghost use Rattle.std.specs.Prelude.{◌≡◌};
ghost use Rattle.apl_workspace.specs.Workspace.{is_addressee};

use apl_arrays::{FIRST_USER, LAST_USER, List, Name};
use aux_parties::is_auxiliary;

/// An offer to be made again: its name here, its name for others, and for whom it is (0: for any).
#[derive(Clone, Copy, Debug, PartialEq, Eq, Hash)]
pub struct Remake {
    pub local: Name,
    pub surrogate: Name,
    pub to: u32,
}

/// Offers, the oldest first.
pub type RemakeList = List<Remake>;

/// Whether an offer may be made to this number: to any, which is 0, to an auxiliary, or to a user.
pub fn is_addressee(to: u32) -> bool
    ensures { result ≡ is_addressee to }
{
    to == 0 || is_auxiliary(to) || (to >= FIRST_USER && to <= LAST_USER)
}
