ghost use Rattle.std.specs.Prelude.{◌≡◌, true};
ghost use Rattle.apl_arrays.specs.Array.{seen_items};
ghost use Rattle.apl_scalar.specs.Table.{dyadic_item, item_of_chars, pair_item};
ghost use Rattle.operator_rules.specs.Gathering.{number_in};
ghost use Rattle.operator_rules.specs.Reduction.{Joins, Tells, joined_by};
ghost use Rattle.apl_operators.specs.Rows.{TakesAll, refuses_none, takes_all};

use apl_arrays::{Item, ItemsRef};
use apl_scalar::{character_of, read_all};
use apl_verbs::Dyad;

/// Whether a dyadic function has a value of 64 bits at all pairs of numbers of 64 bits: a comparison, the greater, the lesser
/// and the residue.
pub(crate) fn refuses_none(f: Dyad) -> bool
    ensures { result ≡ refuses_none f }
{
    matches!(
        f,
        Dyad::Less
            | Dyad::NotGreater
            | Dyad::Equal
            | Dyad::NotLess
            | Dyad::Greater
            | Dyad::NotEqual
            | Dyad::Maximum
            | Dyad::Minimum
            | Dyad::Residue
    )
}

/// Whether a dyadic function has a value of 64 bits at each item of the one list with each of the other.
pub(crate) fn takes_all(f: Dyad, a: ItemsRef<'_>, b: ItemsRef<'_>) -> bool
    ensures value { result ≡ takes_all f (seen_items a.entry) (seen_items b.entry) }
    ensures all { result ≡ true → TakesAll f (seen_items a.entry) (seen_items b.entry) }
{
    read_all(a.numbers());
    read_all(b.numbers());
    takes_kinds(f, a, b)
}

/// The same, by the kinds of the items.
fn takes_kinds(f: Dyad, a: ItemsRef<'_>, b: ItemsRef<'_>) -> bool
    ensures { result ≡ takes_all f (seen_items a.entry) (seen_items b.entry) }
{
    match (a, b) {
        (ItemsRef::Numbers(_), ItemsRef::Numbers(_)) => refuses_none(f),
        _ => character_of(f, false).is_some(),
    }
}

/// The item that a dyadic function gives at two items, or `None`, which is DOMAIN, by its rules for two numbers and for two
/// items that are alike or not.
pub(crate) fn joined_by<F: Fn(i64, i64) -> Option<i64>, G: Fn(bool) -> Option<i64>>(
    f: Dyad,
    a: &Item,
    b: &Item,
    numbers: &F,
    alike: &G,
) -> Option<Item>
    requires able { F.IsAlwaysCallable numbers.now }
    requires numbers { Joins (F.post numbers.now) (dyadic_item f) }
    requires callable { G.IsAlwaysCallable alike.now }
    requires alike { Tells (G.post alike.now) (item_of_chars f) }
    ensures { result ≡ joined_by f a.now b.now }
{
    match pair_by(f, a, b, numbers, alike) {
        Some(number) => Some(Item::Number(number)),
        None => None,
    }
}

/// The number that a dyadic function gives at two items, by its rules.
fn pair_by<F: Fn(i64, i64) -> Option<i64>, G: Fn(bool) -> Option<i64>>(
    f: Dyad,
    a: &Item,
    b: &Item,
    numbers: &F,
    alike: &G,
) -> Option<i64>
    requires able { F.IsAlwaysCallable numbers.now }
    requires numbers { Joins (F.post numbers.now) (dyadic_item f) }
    requires callable { G.IsAlwaysCallable alike.now }
    requires alike { Tells (G.post alike.now) (item_of_chars f) }
    ensures { result ≡ pair_item f a.now b.now }
{
    match (a, b) {
        (Item::Number(x), Item::Number(y)) => numbers(*x, *y),
        (Item::Char(x), Item::Char(y)) => alike(x.code() == y.code()),
        (Item::Number(_), Item::Char(_)) => alike(false),
        (Item::Char(_), Item::Number(_)) => alike(false),
    }
}

/// The number, where there is an item and it is one.
pub(crate) fn number_in(item: Option<Item>) -> Option<i64>
    ensures { result ≡ number_in item }
{
    match item {
        Some(Item::Number(number)) => Some(number),
        _ => None,
    }
}
