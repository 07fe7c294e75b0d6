ghost use Rattle.std.specs.Prelude.{◌≡◌, ◌+◌, ◌<◌, ℕ, Option};
ghost use Rattle.apl_items.specs.Places.{Follows};
ghost use Rattle.operator_rules.specs.Reduction.{Joins, reduction};

/// The reduction of an item and of so many after it, from the right, or `None` where an item is lacking or two items
/// have no value.
pub(crate) fn reduced<T: Copy + Drop, G: Fn(usize) -> Option<T>, F: Fn(T, T) -> Option<T>>(
    more: usize,
    item: &G,
    join: &F,
) -> Option<T>
    requires items { (place : ℕ) → place < more + 1 → G.pre item.now place }
    requires callable { F.IsAlwaysCallable join.now }
    ensures { (rule : ℕ → Option T) (by : T → T → Option T) → Follows (G.post item.now) (more + 1) rule → Joins (F.post join.now) by → result ≡ reduction by rule 0 more }
{
    let mut value = item(more)?;
    for back in 0..more {
        let before = item(more - 1 - back)?;
        value = join(before, value)?;
    }
    Some(value)
}
