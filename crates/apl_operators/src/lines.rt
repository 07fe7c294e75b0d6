ghost use Rattle.std.specs.Prelude.{◌≡◌, ◌-◌, ◌<◌, length};
ghost use Rattle.apl_items.specs.Shapes.{split_count};
ghost use Rattle.apl_scalar.specs.Table.{dyadic_item};
ghost use Rattle.operator_rules.specs.Reduction.{Joins, front_of_line, number_on};

use crate::reduction::reduced;
use apl_items::Split;
use apl_verbs::Dyad;

/// A line along an axis of an array: the row before the axis, and the item in each place along it.
#[derive(Clone, Copy)]
pub(crate) struct LineAt {
    pub outer: usize,
    pub inner: usize,
}

/// The reduction of the numbers on a line by the rule of a function, from the first up to one, or `None` where two have no
/// value.
pub(crate) fn front_of_line<F: Fn(i64, i64) -> Option<i64>>(
    f: Dyad,
    list: &[i64],
    split: Split,
    line: LineAt,
    along: usize,
    join: &F,
) -> Option<i64>
    requires callable { F.IsAlwaysCallable join.now }
    requires rule { Joins (F.post join.now) (dyadic_item f) }
    requires whole { split_count split ≡ length list.now }
    requires outer { line.outer < split.outer }
    requires inner { line.inner < split.inner }
    requires along { along < split.along }
    ensures { result ≡ front_of_line (dyadic_item f) list.now split line.outer line.inner along }
{
    let number = |place: usize| -> Option<i64>
        requires whole { split_count split ≡ length list.now }
        requires outer { line.outer < split.outer }
        requires inner { line.inner < split.inner }
        requires along { place < split.along }
        ensures { result ≡ number_on list.entry.now split line.outer line.inner place }
    { Some(list[split.place(line.outer, place, line.inner)]) };
    reduced(along, &number, join)
}

/// The reduction of all numbers on a line by the rule of a function, or `None` where two have no value.
pub(crate) fn last_front<F: Fn(i64, i64) -> Option<i64>>(
    f: Dyad,
    list: &[i64],
    split: Split,
    line: LineAt,
    join: &F,
) -> Option<i64>
    requires callable { F.IsAlwaysCallable join.now }
    requires rule { Joins (F.post join.now) (dyadic_item f) }
    requires whole { split_count split ≡ length list.now }
    requires some { 0 < split.along }
    requires outer { line.outer < split.outer }
    requires inner { line.inner < split.inner }
    ensures { result ≡ front_of_line (dyadic_item f) list.now split line.outer line.inner (split.along - 1) }
{
    front_of_line(f, list, split, line, split.along - 1, join)
}
