ghost use Rattle.std.specs.Prelude.{◌≡◌, All};
ghost use Rattle.sv_access.specs.Table.{verdict_of};
ghost use Rattle.sv_access.specs.Cases.{case_of, HasEachCaseOnce};

use crate::access::{Kind, Side};
use crate::control::Control;
use crate::state::AccessState;
use crate::table::decide;
use crate::verdict::Verdict;

/// A line of the access table: the verdict on an access under a control in force and a state.
#[derive(Clone, Copy, Debug, PartialEq, Eq)]
pub struct Case {
    pub control: Control,
    pub state: AccessState,
    pub side: Side,
    pub kind: Kind,
    pub verdict: Verdict,
}

/// Lines of the access table.
#[derive(Clone, Copy, Debug, PartialEq, Eq)]
pub struct Cases<const N: usize> {
    pub cases: [Case; N],
}

// The sixteen controls, of the four pairs of elements that uses may have.
macro_rules! controls {
    ($(($use_by_me:literal, $use_by_partner:literal))*) => {
        [$(
            Control([false, false, $use_by_me, $use_by_partner]),
            Control([false, true, $use_by_me, $use_by_partner]),
            Control([true, false, $use_by_me, $use_by_partner]),
            Control([true, true, $use_by_me, $use_by_partner])
        ),*]
    };
}

// The four accesses in each state.
macro_rules! accesses {
    ($($state:ident)*) => {
        [$(
            (AccessState::$state, Side::A, Kind::Set),
            (AccessState::$state, Side::B, Kind::Set),
            (AccessState::$state, Side::A, Kind::Use),
            (AccessState::$state, Side::B, Kind::Use)
        ),*]
    };
}

impl Cases<192> {
    /// The whole table: each control in force, state, side and kind once, with its verdict.
    pub fn kept() -> Self
        ensures verdicts { All (λ case. case.verdict ≡ verdict_of case.control case.state case.side case.kind) result.cases }
        ensures each_once { HasEachCaseOnce result.cases }
    {
        let controls = controls!((false, false)(false, true)(true, false)(true, true));
        let accesses = accesses!(Quiet UnseenA UnseenB);
        let mut cases = [case_of(controls[0], accesses[0]); 192];
        for (place, case) in cases.iter_mut().enumerate() {
            let control = controls[place / 12];
            let access = accesses[place % 12];
            *case = case_of(control, access);
        }
        Cases { cases }
    }
}

// The line of the table on one access.
fn case_of(control: Control, access: (AccessState, Side, Kind)) -> Case
    ensures { result ≡ case_of control access.0 access.1 access.2 }
{
    let (state, side, kind) = access;
    Case {
        control,
        state,
        side,
        kind,
        verdict: decide(control, state, side, kind),
    }
}
