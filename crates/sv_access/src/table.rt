ghost use Rattle.std.specs.Prelude.{◌≡◌, ℕ, ◌≤◌, IsTrue};
ghost use Rattle.sv_access.specs.Control.{combined, has_element};
ghost use Rattle.sv_access.specs.Table.{element_of, verdict_of, owners_among, owners_of, NamesAnElement};

use crate::access::{Kind, Side};
use crate::control::{Control, swap};
use crate::state::{AccessState, view};
use crate::verdict::{Owners, Verdict};

/// What becomes of an access under the control in force, which is in A's view. Its element there
/// holds it where the state's vector has 1 at that element too; else it is granted.
pub fn decide(control: Control, state: AccessState, side: Side, kind: Kind) -> Verdict
    ensures table { result ≡ verdict_of control state side kind }
    ensures element { NamesAnElement control result }
{
    let element = element_of(side, kind);
    if has_element(control, element) && has_element(view(state, Side::A), element) {
        Verdict::Held(element)
    } else {
        Verdict::Granted
    }
}

/// Whose 1 refuses an access of a side, as that side sees it. `a` is A's vector and `b` is B's,
/// each in its owner's view, and the element is in A's view.
pub fn owners(a: Control, b: Control, side: Side, element: u8) -> Owners
    requires lowest { 1 ≤ element }
    requires highest { element ≤ 4 }
    requires in_force { IsTrue (has_element (combined a b) element) }
    ensures { result ≡ owners_of a b side element }
{
    let of_a = has_element(a, element);
    let of_b = has_element(swap(b), element);
    match side {
        Side::A => owners_among(of_a, of_b),
        Side::B => owners_among(of_b, of_a),
    }
}

// The element of an access in A's view.
fn element_of(side: Side, kind: Kind) -> u8
    ensures { result ≡ element_of side kind }
{
    match (kind, side) {
        (Kind::Set, Side::A) => 1,
        (Kind::Set, Side::B) => 2,
        (Kind::Use, Side::A) => 3,
        (Kind::Use, Side::B) => 4,
    }
}

// Whether a control has 1 at an element.
fn has_element(control: Control, element: u8) -> bool
    requires lowest { 1 ≤ element }
    requires highest { element ≤ 4 }
    ensures { result ≡ has_element control element }
{
    control.0[usize::from(element) - 1]
}

// Who owns a 1 that at least one of the two has.
fn owners_among(mine: bool, partners: bool) -> Owners
    ensures { result ≡ owners_among mine partners }
{
    match (mine, partners) {
        (true, true) => Owners::Both,
        (true, false) => Owners::Mine,
        (false, _) => Owners::Partner,
    }
}
