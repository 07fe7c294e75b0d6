ghost use Rattle.std.specs.Prelude.{◌≡◌, ◌≤◌, All, length, option_map, unwrap_or};
ghost use Rattle.apl_arrays.specs.Limits.{most_axes, most_elements};
ghost use Rattle.apl_items.specs.Answers.{AnswersFirst};
ghost use Rattle.apl_scalar.specs.Table.{row_of_dyad};
ghost use Rattle.operator_rules.specs.Gathering.{numbers_answer};

use apl_arrays::{Array, Fail, Items, NumberList, Report, count_of_elements, shape_fault};
use apl_items::by_place;
use apl_scalar::identity_of;
use apl_verbs::Dyad;
use std::alloc::Global;

/// The array that has the identity of a dyadic function at each place, or DOMAIN where there is a place and no identity,
/// else WS FULL where it would be too large. It takes memory for the items.
pub(crate) fn identities(alloc: Global, f: Dyad, shape: &[u32]) -> Result<Array, Fail>
    requires rank { length shape.now ≤ most_axes }
    requires axes { All (λ axis. axis ≤ most_elements) shape.now }
    ensures { AnswersFirst result (numbers_answer shape.now (λ place. (row_of_dyad f).identity)) }
{
    if shape_fault(shape).is_some() {
        return Err(Fail::Report(report_of_many(f)));
    }
    let items = by_place(
        alloc,
        count_of_elements(shape),
        |_place: usize| -> Option<i64>
            ensures { result ≡ (row_of_dyad f).identity }
        { identity_of(f) },
    )?;
    Ok(Array::shaped(alloc, shape, Items::Numbers(NumberList::from(items)))?)
}

/// The report of identities that are too many to be made: DOMAIN where there is none.
fn report_of_many(f: Dyad) -> Report
    ensures { result ≡ unwrap_or (option_map (λ identity. Report.WsFull) (row_of_dyad f).identity) Report.Domain }
{
    match identity_of(f) {
        Some(_) => Report::WsFull,
        None => Report::Domain,
    }
}
