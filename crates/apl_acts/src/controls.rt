ghost use Rattle.std.specs.Cmp.Lexicographic.{pointwise};
ghost use Rattle.std.specs.List.{list_any};
ghost use Rattle.std.specs.Prelude.{◌≡◌, ◌<◌, ◌+◌, ◌==◌, ◌∷◌, [], IfOk, map, length, not};
ghost use Rattle.apl_meaning.specs.Sharing.{are_controls, control_faults, controls};
ghost use Rattle.apl_scalar.specs.Table.{is_truth};
ghost use Rattle.apl_values.specs.Rows.{plain_naming, plain_name_row};
ghost use Rattle.apl_acts.specs.Asking.{Asks, MayBeAsked};
ghost use Rattle.apl_acts.specs.Faults.{AreElements, control_in, element_in, plain_faults, settings_of};

use crate::asking::{Asking, rows_asked};
use crate::sharing::{Wrong, naming_wrong, refuse};
use apl_arrays::{Array, Fail, WantOfMemory};
use apl_statements::Interpreter;
use apl_values::{Deed, NameRow, Naming, naming_count, namings_of};
use std::alloc::Global;
use sv_access::Control;

/// C ⎕SVC N: each row's control is set, and the result is the one in force. A report comes also where there is no memory.
pub fn control(interpreter: &Interpreter, c: &Array, n: &Array) -> Result<Asking, Fail>
    ensures may { IfOk result (MayBeAsked interpreter.now.workspace) }
    ensures asks { Asks interpreter.now (controls c.now n.now) result }
{
    refuse(control_wrong(c, n))?;
    let namings = namings_of(interpreter.alloc, n)?;
    let rows = settings(interpreter.alloc, c.items().numbers(), namings)?;
    rows_asked(interpreter, rows, n, &[4])
}

// What is wrong with controls and the names that get them.
fn control_wrong(c: &Array, n: &Array) -> Wrong
    ensures { plain_faults result ≡ control_faults c.now n.now }
{
    let wrong = naming_wrong(n, &[4]);
    let fit = are_controls(c, n);
    Wrong {
        rank: wrong.rank || (!fit && c.shape().len() > 2),
        length: !fit,
        domain: wrong.domain || c.is_chars() || some_untruth(c.numbers()),
        ..wrong
    }
}

// Whether a number is neither 0 nor 1.
fn some_untruth(numbers: &[i64]) -> bool
    ensures { result ≡ list_any (λ number. not (is_truth number)) numbers.now }
{
    numbers.iter().any(|number| !is_truth(*number))
}

// One element, four, or a matrix of four for each row.
fn are_controls(c: &Array, n: &Array) -> bool
    ensures { result ≡ are_controls c.now n.now }
{
    let count = c.items().len();
    count == 1 || count == 4 || is_matrix_of_fours(c.shape(), naming_count(n))
}

// Whether a shape is that of a matrix with so many rows, of four elements each.
fn is_matrix_of_fours(shape: &[u32], rows: usize) -> bool
    ensures { result ≡ pointwise ◌==◌ shape.now (rows ∷ 4 ∷ []) }
{
    match shape {
        [first, 4] => *first as usize == rows,
        _ => false,
    }
}

// Whether a number is 0 or 1.
fn is_truth(number: i64) -> bool
    ensures { result ≡ is_truth number }
{
    number == 0 || number == 1
}

// The control of each row is set.
fn settings(
    alloc: Global,
    elements: &[i64],
    namings: Vec<Naming>,
) -> Result<Vec<NameRow>, WantOfMemory>
    requires { AreElements elements.now (length namings.items) }
    ensures { IfOk result (λ rows. map plain_name_row rows.items ≡ settings_of elements.now (map plain_naming namings.items)) }
{
    let mut rows = Vec::new(alloc);
    let mut at = 0;
    for names in namings {
        rows.push(NameRow {
            names,
            deed: Deed::SetControl(control_at(elements, at)),
        })?;
        at += 1;
    }
    Ok(rows)
}

// The control of a row: of one element, of four for all rows, or of four for each.
fn control_at(elements: &[i64], row: usize) -> Control
    requires { AreElements elements.now (row + 1) }
    ensures { result ≡ control_in elements.now row }
{
    Control([
        element_at(elements, row, 0),
        element_at(elements, row, 1),
        element_at(elements, row, 2),
        element_at(elements, row, 3),
    ])
}

// An element of it.
fn element_at(elements: &[i64], row: usize, element: usize) -> bool
    requires few { element < 4 }
    requires enough { AreElements elements.now (row + 1) }
    ensures { result ≡ element_in elements.now row element }
{
    let at = if elements.len() == 1 {
        0
    } else if elements.len() == 4 {
        element
    } else {
        row * 4 + element
    };
    elements[at] == 1
}
