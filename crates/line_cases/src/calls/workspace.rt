use crate::calls::accounts::{Meant, meant_by};
use crate::calls::counts::{Counts, counts_at_last};
use crate::calls::letters::letter;
use crate::calls::steps::{Step, is_taken};
use anyhow::Result;
use apl_workspace::Workspace;
use case_tables::{Calls, Looks};
use std::alloc::Global;

// What X, the global X, F and L stand for, and what is counted.
type Shown = ([Meant; 4], Counts);

const NOTHING: Meant = Meant::Nothing;

// Calls, and what the workspace shows behind each.
const STEPS: [(Step, Shown); 9] = [
    (
        Step::Assign(3),
        (
            [Meant::Value(3), Meant::Value(3), NOTHING, NOTHING],
            [2, 0, 1, 0, 0],
        ),
    ),
    (
        Step::Define,
        (
            [
                Meant::Value(3),
                Meant::Value(3),
                Meant::Function(1),
                NOTHING,
            ],
            [12, 0, 2, 0, 0],
        ),
    ),
    (
        Step::Mark(4),
        (
            [
                Meant::Shared(4),
                Meant::Shared(4),
                Meant::Function(1),
                NOTHING,
            ],
            [12, 0, 2, 1, 0],
        ),
    ),
    (
        Step::Print(9),
        (
            [
                Meant::Shared(4),
                Meant::Shared(4),
                Meant::Function(1),
                NOTHING,
            ],
            [12, 0, 2, 1, 9],
        ),
    ),
    (
        Step::Enter(5),
        (
            [
                NOTHING,
                Meant::Shared(4),
                Meant::Function(1),
                Meant::Label(1),
            ],
            [14, 1, 2, 1, 9],
        ),
    ),
    (
        Step::Assign(6),
        (
            [
                Meant::Value(6),
                Meant::Shared(4),
                Meant::Function(1),
                Meant::Label(1),
            ],
            [16, 1, 2, 1, 9],
        ),
    ),
    (
        Step::Leave,
        (
            [
                Meant::Shared(4),
                Meant::Shared(4),
                Meant::Function(1),
                NOTHING,
            ],
            [12, 0, 2, 1, 9],
        ),
    ),
    (
        Step::Copy,
        (
            [
                Meant::Shared(4),
                Meant::Shared(4),
                Meant::Function(1),
                NOTHING,
            ],
            [12, 0, 2, 1, 9],
        ),
    ),
    (
        Step::Unmark(7),
        (
            [
                Meant::Value(7),
                Meant::Value(7),
                Meant::Function(1),
                NOTHING,
            ],
            [12, 0, 2, 0, 9],
        ),
    ),
];

/// A workspace that is changed call by call.
#[derive(Clone, Copy, Debug)]
pub struct Workspaces;

impl Calls for Workspaces {
    fn make(&self, alloc: Global, looks: &mut Looks) -> Result<()> {
        let mut ws = Workspace::new(alloc);
        let made = take_steps(alloc, &mut ws, looks);
        drop(ws);
        made
    }
}

fn take_steps(alloc: Global, ws: &mut Workspace, looks: &mut Looks) -> Result<()> {
    for (step, wanted) in STEPS {
        looks.holds(is_taken(alloc, ws, step));
        looks.holds(shown_by(ws)? == Some(wanted));
    }
    Ok(())
}

fn shown_by(ws: &Workspace) -> Result<Option<Shown>> {
    let (x, f, l) = (letter(b'X')?, letter(b'F')?, letter(b'L')?);
    let meant = [
        meant_by(ws.look(&x)),
        meant_by(ws.global(&x)),
        meant_by(ws.look(&f)),
        meant_by(ws.look(&l)),
    ];
    Ok(counts_at_last(ws).map(|counts| (meant, counts)))
}
