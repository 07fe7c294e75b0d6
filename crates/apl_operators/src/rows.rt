ghost use Rattle.std.specs.Prelude.{◌≡◌, ◌<◌, ◌*◌, ◌^◌, ◌≤◌, ℕ, ℤ, Option, length};
ghost use Rattle.apl_arrays.specs.Array.{element_count};
ghost use Rattle.apl_arrays.specs.Limits.{most_axes};
ghost use Rattle.apl_items.specs.Answers.{AnswersFirst};
ghost use Rattle.apl_items.specs.Places.{AtPlace, Follows};
ghost use Rattle.operator_rules.specs.Gathering.{numbers_answer};

use apl_arrays::{Array, Fail, Items, NumberList, Report, shape_fault};
use apl_items::{by_rows, lacks_by_rows};
use std::alloc::Global;

/// The array of the numbers that a rule gives in each place of each row. DOMAIN where it gives none, also where there is no
/// memory, else WS FULL where the array would be too large, for which it asks the rule and stores no item. It takes memory
/// for the items, and then for the array.
pub(crate) fn numbers_by_rows<F: Fn(usize, usize) -> Option<i64>>(
    alloc: Global,
    shape: &[u32],
    rows: usize,
    columns: usize,
    rule: &F,
) -> Result<Array, Fail>
    requires rank { length shape.now ≤ most_axes }
    requires count { rows * columns ≡ element_count shape.now }
    requires fits { rows * columns < 2 ^ 64 }
    requires callable { (row column : ℕ) → row < rows → column < columns → F.pre rule.now row column }
    ensures { (item : ℕ → Option ℤ) → Follows (AtPlace (F.post rule.now) columns) (rows * columns) item → AnswersFirst result (numbers_answer shape.now item) }
{
    if shape_fault(shape).is_none() {
        let items = by_rows(alloc, rows, columns, rule)?;
        Ok(Array::shaped(alloc, shape, Items::Numbers(NumberList::from(items)))?)
    } else if lacks_by_rows(rows, columns, rule) {
        Err(Fail::Report(Report::Domain))
    } else {
        Err(Fail::Report(Report::WsFull))
    }
}
