use anyhow::Result;
use case_tables::{Calls, Looks};
use std::alloc::Global;
use sv_access::{
    AccessState, Case, Cases, Control, Kind, NO_CONTROL, Owners, Side, Verdict, after, decide,
    join, owners, swap, view,
};

/// The access table of all cases against one by hand, and vectors and states as each side sees them.
#[derive(Clone, Copy, Debug)]
pub struct Access;

const ALL: Control = Control([true, true, true, true]);

// The elements that hold a set by A, a set by B, a use by A and a use by B under a control of ones, 0 where it is granted.
fn elements_of(state: AccessState) -> [u8; 4] {
    match state {
        AccessState::Quiet => [0, 0, 3, 4],
        AccessState::UnseenA => [1, 0, 3, 0],
        AccessState::UnseenB => [0, 2, 0, 4],
    }
}

// The element that holds an access, and whether a control has 1 there, of these elements.
fn at_access(elements: [u8; 4], control: Control, side: Side, kind: Kind) -> (u8, bool) {
    let [a_sets, b_sets, a_uses, b_uses] = elements;
    let [first, second, third, fourth] = control.0;
    match (kind, side) {
        (Kind::Set, Side::A) => (a_sets, first),
        (Kind::Set, Side::B) => (b_sets, second),
        (Kind::Use, Side::A) => (a_uses, third),
        (Kind::Use, Side::B) => (b_uses, fourth),
    }
}

// The verdict by hand. Without the 1 at its element an access is granted.
fn by_hand(case: &Case) -> Verdict {
    let elements = elements_of(case.state);
    let (element, is_controlled) = at_access(elements, case.control, case.side, case.kind);
    if element != 0 && is_controlled {
        Verdict::Held(element)
    } else {
        Verdict::Granted
    }
}

// All cases are decided by the table.
fn all_are_decided(looks: &mut Looks) {
    let cases = Cases::kept().cases;
    for case in &cases {
        let verdict = decide(case.control, case.state, case.side, case.kind);
        looks.holds(verdict == by_hand(case));
        looks.holds(case.verdict == verdict);
    }

    // Each of the six refusals comes under the eight controls that have its element.
    let held = cases.iter().filter(|case| case.verdict != Verdict::Granted);
    looks.holds(held.count() == 48);
}

fn partner_sees_the_view_swapped(looks: &mut Looks) {
    let a = Control([true, false, false, true]);
    let joint = join(a, NO_CONTROL);
    looks.holds(joint == a);
    looks.holds(decide(joint, AccessState::Quiet, Side::B, Kind::Use) == Verdict::Held(4));
    looks.holds(owners(a, NO_CONTROL, Side::B, 4) == Owners::Partner);
    looks.holds(decide(joint, AccessState::Quiet, Side::A, Kind::Set) == Verdict::Granted);
    let state = after(AccessState::Quiet, Side::A, Kind::Set);
    looks.holds(state == AccessState::UnseenA);
    looks.holds(decide(joint, state, Side::B, Kind::Use) == Verdict::Granted);
    looks.holds(after(state, Side::B, Kind::Use) == AccessState::Quiet);
}

fn both_sides_are_held_at_first(looks: &mut Looks) {
    let joint = join(ALL, NO_CONTROL);
    looks.holds(decide(joint, AccessState::Quiet, Side::B, Kind::Use) == Verdict::Held(4));
    looks.holds(owners(ALL, NO_CONTROL, Side::B, 4) == Owners::Partner);
    looks.holds(decide(joint, AccessState::Quiet, Side::A, Kind::Use) == Verdict::Held(3));
    looks.holds(owners(ALL, NO_CONTROL, Side::A, 3) == Owners::Mine);
    looks.holds(owners(ALL, ALL, Side::A, 3) == Owners::Both);
}

fn partner_holds_my_second_set(looks: &mut Looks) {
    let b = Control([false, true, false, false]);
    let joint = join(NO_CONTROL, b);
    looks.holds(joint == Control([true, false, false, false]));
    looks.holds(decide(joint, AccessState::UnseenA, Side::A, Kind::Set) == Verdict::Held(1));
    looks.holds(owners(NO_CONTROL, b, Side::A, 1) == Owners::Partner);
    looks.holds(decide(joint, AccessState::UnseenA, Side::B, Kind::Set) == Verdict::Granted);
}

// Each side is shown its own view of a state.
fn each_side_has_its_view(looks: &mut Looks) {
    let given_by_a = after(AccessState::Quiet, Side::A, Kind::Set);
    looks.holds(view(given_by_a, Side::A) == Control([true, false, true, false]));
    looks.holds(view(given_by_a, Side::B) == Control([false, true, false, true]));
    let used_by_b = after(given_by_a, Side::B, Kind::Use);
    looks.holds(view(used_by_b, Side::B) == Control([false, false, true, true]));
}

fn pairs_are_swapped(looks: &mut Looks) {
    let control = Control([true, false, false, true]);
    looks.holds(swap(control) == Control([false, true, true, false]));
    looks.holds(join(control, control) == Control([true, true, true, true]));
}

impl Calls for Access {
    fn make(&self, _alloc: Global, looks: &mut Looks) -> Result<()> {
        all_are_decided(looks);
        partner_sees_the_view_swapped(looks);
        both_sides_are_held_at_first(looks);
        partner_holds_my_second_set(looks);
        each_side_has_its_view(looks);
        pairs_are_swapped(looks);
        Ok(())
    }
}
