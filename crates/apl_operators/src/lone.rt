ghost use Rattle.std.specs.Prelude.{◌≡◌, ◌∷◌, [], ℤ, None, IfErr, IfOk, IfSome, IsOk, length, option_to_list};
ghost use Rattle.apl_arrays.specs.Array.{numbers, scalar};
ghost use Rattle.apl_arrays.specs.declared.report.Fail.TheVariants as fail;
ghost use Rattle.apl_arrays.specs.declared.way.Way.{Way as WayOf};
ghost use Rattle.apl_items.specs.Answers.{Answers, AnswersFirst};
ghost use Rattle.apl_items.specs.Places.{OnWantOfMemory};
ghost use Rattle.apl_scalar.specs.Scalar.{dyadic_of};
ghost use Rattle.apl_selection.specs.Compression.{compress_of};

use apl_arrays::{Array, Fail, Items, ItemsRef, List, NumberList, Report, Way};
use apl_scalar::{dyadic, item_of_numbers};
use apl_structure::compress;
use apl_verbs::Dyad;
use std::alloc::Global;

/// What a dyadic scalar function gives of two arrays: of two lone numbers at once, without memory, and of any others item by
/// item. A report comes also where there is no memory.
pub(crate) fn pair(alloc: Global, f: Dyad, a: &Array, b: &Array) -> Result<Array, Fail>
    ensures value { Answers result (dyadic_of f a.now b.now) }
    ensures memory { OnWantOfMemory result (IsOk (dyadic_of f a.now b.now)) }
{
    match lone_pair(a, b) {
        Some(pair) => pair_of_numbers(f, pair.0, pair.1),
        None => dyadic(alloc, f, a, b),
    }
}

/// What compression gives of two arrays: of a lone flag and a lone number at once, and of any others by the places that are
/// kept. A report comes also where there is no memory. It takes memory for the result.
pub(crate) fn compress_by(
    alloc: Global,
    a: &Array,
    b: &Array,
    way: Way,
    axis: Option<i64>,
) -> Result<Array, Fail>
    ensures answer { Answers result (compress_of a.now b.now way axis) }
    ensures memory { OnWantOfMemory result (IsOk (compress_of a.now b.now way axis)) }
{
    match axis {
        None => compress_whole(alloc, a, b, way),
        Some(_) => compress(alloc, a, b, way, axis),
    }
}

// The same, where no axis is named.
fn compress_whole(alloc: Global, a: &Array, b: &Array, way: Way) -> Result<Array, Fail>
    ensures answer { Answers result (compress_of a.now b.now way None) }
    ensures memory { OnWantOfMemory result (IsOk (compress_of a.now b.now way None)) }
{
    match lone_pair(a, b) {
        Some(pair) => kept_number(alloc, pair.0, pair.1),
        None => compress(alloc, a, b, way, None),
    }
}

// The numbers of which two arrays are the scalars.
fn lone_pair(a: &Array, b: &Array) -> Option<(i64, i64)>
    ensures { IfSome result (λ pair. (a.now ≡ scalar pair.0) × (b.now ≡ scalar pair.1)) }
{
    Some((lone(a)?, lone(b)?))
}

// The number of which an array is the scalar.
fn lone(array: &Array) -> Option<i64>
    ensures { IfSome result (λ number. array.now ≡ scalar number) }
{
    match (array.shape(), array.items()) {
        ([], ItemsRef::Numbers([number])) => Some(*number),
        _ => None,
    }
}

// A dyadic function of two numbers; DOMAIN where it gives none.
fn pair_of_numbers(f: Dyad, one: i64, other: i64) -> Result<Array, Fail>
    ensures { AnswersFirst result (dyadic_of f (scalar one) (scalar other)) }
{
    match item_of_numbers(f, one, other) {
        Some(item) => Ok(Array::of_number(item)),
        None => Err(Fail::Report(Report::Domain)),
    }
}

// A number where its flag is 1, and none where it is 0; DOMAIN for any other flag.
fn kept_number(alloc: Global, flag: i64, number: i64) -> Result<Array, Fail>
    ensures { (way : WayOf) → AnswersFirst result (compress_of (scalar flag) (scalar number) way None) }
{
    if flag == 0 {
        vector_of(alloc, None)
    } else if flag == 1 {
        vector_of(alloc, Some(number))
    } else {
        Err(Fail::Report(Report::Domain))
    }
}

// The vector of one number, or of none. It takes memory for it.
fn vector_of(alloc: Global, number: Option<i64>) -> Result<Array, Fail>
    ensures made { IfOk result (λ array. array ≡ record { shape = length (option_to_list number) ∷ []; items = numbers (option_to_list number) }) }
    ensures refused { IfErr result (λ why. why ≡ fail.WantOfMemory) }
{
    match number {
        None => {
            let none = Items::Numbers(NumberList::from(List::new(alloc)));
            Ok(Array::shaped(alloc, &[0], none)?)
        }
        Some(number) => {
            let one = Items::Numbers(NumberList::one(number));
            Ok(Array::shaped(alloc, &[1], one)?)
        }
    }
}
