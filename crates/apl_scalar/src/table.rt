ghost use Rattle.std.specs.Prelude.{◌≡◌, ℤ, Option, length};
ghost use Rattle.apl_items.specs.Extension.{Reaches, number_at};
ghost use Rattle.apl_items.specs.Places.{HasItems, MakesItems, OnWantOfMemory};
ghost use Rattle.apl_scalar.specs.Table.{monadic_item, dyadic_item, pair_item, item_of_chars, row_of_dyad};

use crate::{counting, monad_rules, rules};
use apl_arrays::{Fail, Item, List};
use apl_items::{each, pairs};
use apl_verbs::{Dyad, Monad};
use std::alloc::Global;

/// The table of the dyadic functions: for each its rule, a function of two numbers, and its identity where it has one.
/// `dyadic_table!(f, case(with))` is the case of the row of f, that is `case!((with), rule, identity)`. The caller
/// imports `Dyad`.
#[macro_export]
macro_rules! dyadic_table {
    ($function:expr, $case:ident $with:tt) => {
        match $function {
            Dyad::Plus => $case!($with, $crate::rules::plus, Some(0)),
            Dyad::Minus => $case!($with, $crate::rules::minus, Some(0)),
            Dyad::Times => $case!($with, $crate::rules::times, Some(1)),
            Dyad::Divide => $case!($with, $crate::rules::divide, Some(1)),
            Dyad::Maximum => $case!($with, $crate::rules::maximum, Some(i64::MIN)),
            Dyad::Minimum => $case!($with, $crate::rules::minimum, Some(i64::MAX)),
            Dyad::Residue => $case!($with, $crate::rules::residue, Some(0)),
            Dyad::Power => $case!($with, $crate::counting::power, Some(1)),
            Dyad::Binomial => $case!($with, $crate::counting::binomial, Some(1)),
            Dyad::And => $case!($with, $crate::rules::and, Some(1)),
            Dyad::Or => $case!($with, $crate::rules::or, Some(0)),
            Dyad::Nand => $case!($with, $crate::rules::nand, None),
            Dyad::Nor => $case!($with, $crate::rules::nor, None),
            Dyad::Less => $case!($with, $crate::rules::less, Some(0)),
            Dyad::NotGreater => $case!($with, $crate::rules::not_greater, Some(1)),
            Dyad::Equal => $case!($with, $crate::rules::equal, Some(1)),
            Dyad::NotLess => $case!($with, $crate::rules::not_less, Some(1)),
            Dyad::Greater => $case!($with, $crate::rules::greater, Some(0)),
            Dyad::NotEqual => $case!($with, $crate::rules::not_equal, Some(0)),
        }
    };
}

/// The table of the monadic functions, each with its rule.
macro_rules! monadic_table {
    ($function:expr, $case:ident $with:tt) => {
        match $function {
            Monad::Identity => $case!($with, monad_rules::identity),
            Monad::Ceiling => $case!($with, monad_rules::ceiling),
            Monad::Floor => $case!($with, monad_rules::floor),
            Monad::Negative => $case!($with, monad_rules::negative),
            Monad::Sign => $case!($with, monad_rules::sign),
            Monad::Magnitude => $case!($with, monad_rules::magnitude),
            Monad::Reciprocal => $case!($with, monad_rules::reciprocal),
            Monad::Factorial => $case!($with, counting::factorial),
            Monad::Not => $case!($with, monad_rules::not),
        }
    };
}

macro_rules! loop_of_pairs {
    (($($argument:expr),*), $rule:expr, $identity:expr) => {
        pairs_by($($argument,)* $rule)
    };
}

macro_rules! loop_of_each {
    (($($argument:expr),*), $rule:expr) => {
        each_by($($argument,)* $rule)
    };
}

macro_rules! call_of {
    (($($argument:expr),*), $rule:expr, $identity:expr) => {
        $rule($($argument),*)
    };
}

macro_rules! identity_of {
    ((), $rule:expr, $identity:expr) => {
        $identity
    };
}

/// A monadic function of the number for each place. The rule is chosen once.
pub fn monadic_items(alloc: Global, f: Monad, count: usize, b: &[i64]) -> Result<List<i64>, Fail>
    requires { Reaches (length b.now) count }
    ensures made { MakesItems result count (λ place. monadic_item f (number_at b.now place)) }
    ensures memory { OnWantOfMemory result (HasItems count (λ place. monadic_item f (number_at b.now place))) }
{
    monadic_table!(f, loop_of_each(alloc, f, count, b))
}

/// A monadic function of the number for each place, by its rule.
fn each_by<F: Fn(i64) -> Option<i64>>(
    alloc: Global,
    f: Monad,
    count: usize,
    b: &[i64],
    rule: F,
) -> Result<List<i64>, Fail>
    requires callable { F.IsAlwaysCallable rule }
    requires rule { (x : ℤ) (answer : Option ℤ) → F.post rule x answer → answer ≡ monadic_item f x }
    requires reaches { Reaches (length b.now) count }
    ensures made { MakesItems result count (λ place. monadic_item f (number_at b.now place)) }
    ensures memory { OnWantOfMemory result (HasItems count (λ place. monadic_item f (number_at b.now place))) }
{
    each(alloc, count, b, rule)
}

/// A dyadic function of the pair of numbers for each place. The rule is chosen once.
pub fn dyadic_items(
    alloc: Global,
    f: Dyad,
    count: usize,
    a: &[i64],
    b: &[i64],
) -> Result<List<i64>, Fail>
    requires a_reaches { Reaches (length a.now) count }
    requires b_reaches { Reaches (length b.now) count }
    ensures made { MakesItems result count (λ place. dyadic_item f (number_at a.now place) (number_at b.now place)) }
    ensures memory { OnWantOfMemory result (HasItems count (λ place. dyadic_item f (number_at a.now place) (number_at b.now place))) }
{
    dyadic_table!(f, loop_of_pairs(alloc, f, count, a, b))
}

/// A dyadic function of the pair of numbers for each place, by its rule.
fn pairs_by<F: Fn(i64, i64) -> Option<i64>>(
    alloc: Global,
    f: Dyad,
    count: usize,
    a: &[i64],
    b: &[i64],
    rule: F,
) -> Result<List<i64>, Fail>
    requires callable { F.IsAlwaysCallable rule }
    requires rule { (x y : ℤ) (answer : Option ℤ) → F.post rule x y answer → answer ≡ dyadic_item f x y }
    requires a_reaches { Reaches (length a.now) count }
    requires b_reaches { Reaches (length b.now) count }
    ensures made { MakesItems result count (λ place. dyadic_item f (number_at a.now place) (number_at b.now place)) }
    ensures memory { OnWantOfMemory result (HasItems count (λ place. dyadic_item f (number_at a.now place) (number_at b.now place))) }
{
    pairs(alloc, count, a, b, rule)
}

/// The item of a dyadic function at two numbers, or `None`, which is DOMAIN.
pub fn item_of_numbers(f: Dyad, a: i64, b: i64) -> Option<i64>
    ensures { result ≡ dyadic_item f a b }
{
    dyadic_table!(f, call_of(a, b))
}

/// The identity of a dyadic function, if it has one.
pub fn identity_of(f: Dyad) -> Option<i64>
    ensures { result ≡ (row_of_dyad f).identity }
{
    dyadic_table!(f, identity_of())
}

/// The item at two characters that are the same or not, or `None`, which is DOMAIN.
pub fn character_of(f: Dyad, alike: bool) -> Option<i64>
    ensures { result ≡ item_of_chars f alike }
{
    match f {
        Dyad::Equal => rules::same(alike),
        Dyad::NotEqual => rules::different(alike),
        _ => None,
    }
}

/// The item of a dyadic function at two items, or `None`, which is DOMAIN.
pub fn item_of(f: Dyad, a: &Item, b: &Item) -> Option<i64>
    ensures { result ≡ pair_item f a.now b.now }
{
    match a {
        Item::Number(a) => with_number(f, *a, b),
        Item::Char(a) => with_character(f, a.code(), b),
    }
}

fn with_number(f: Dyad, a: i64, b: &Item) -> Option<i64>
    ensures { result ≡ pair_item f (Item.Number a) b.now }
{
    match b {
        Item::Number(b) => item_of_numbers(f, a, *b),
        Item::Char(_) => character_of(f, false),
    }
}

fn with_character(f: Dyad, a: u8, b: &Item) -> Option<i64>
    ensures { result ≡ pair_item f (Item.Char a) b.now }
{
    match b {
        Item::Number(_) => character_of(f, false),
        Item::Char(b) => character_of(f, a == b.code()),
    }
}
