ghost use Rattle.std.specs.Prelude.{◌≡◌, ◌+◌, true, false, IsOk, is_some, option_copied};
ghost use Rattle.apl_items.specs.Answers.{Answers};
ghost use Rattle.apl_items.specs.Places.{OnWantOfMemory};
ghost use Rattle.operator_rules.specs.Apply.{applied, mixed_dyadic_of, mixed_monadic_of};
ghost use Rattle.apl_verbs.specs.Arguments.{is_dyadic, verb_takes_axis};

use crate::inner_product::inner;
use crate::lone::{compress_by, pair};
use crate::outer_product::outer;
use crate::reducing::reduce;
use crate::scanning::scan;
use crate::steps::Steps;
use apl_arrays::{Array, Fail};
use apl_display::format;
use apl_scalar::monadic;
use apl_search::{decode, encode, grade_down, grade_up, index_of, member};
use apl_structure::{
    catenate, drop_items, expand, iota, ravel, reshape, reverse, rotate, shape_of, take, transpose,
    transpose_by,
};
use apl_verbs::{Mix1, Mix2, Verb};
use std::alloc::Global;
use std::sync::ledger::Ledger;

/// What a function, or an operator with its operands, gives of its arguments: the answer of its call. A left argument is
/// there exactly where it is dyadic, and an axis only where one may stand. A report comes also where there is no memory. It
/// counts one step, and takes the memory of that call.
pub fn apply<L: Ledger>(
    alloc: Global,
    verb: &Verb,
    left: Option<&Array>,
    right: &Array,
    axis: Option<i64>,
    steps: &mut Steps<L>,
) -> Result<Array, Fail>
    requires left { is_some left ≡ is_dyadic verb.now }
    requires axis { is_some axis ≡ true → verb_takes_axis verb.now ≡ true }
    ensures steps { steps.new ≡ steps.old + 1 }
    ensures value { Answers result (applied verb.now (option_copied left.entry) right.now axis) }
    ensures memory { OnWantOfMemory result (IsOk (applied verb.now (option_copied left.entry) right.now axis)) }
{
    steps.tick();
    match *verb {
        Verb::One(f) => monadic(alloc, f, right),
        Verb::Two(f) => pair(alloc, f, left.unwrap(), right),
        Verb::Mixed1(f) => mixed_monadic(alloc, f, right, axis),
        Verb::Mixed2(f) => mixed_dyadic(alloc, f, left.unwrap(), right, axis),
        Verb::Reduce(f, way) => reduce(alloc, f, right, way, axis),
        Verb::Scan(f, way) => scan(alloc, f, right, way, axis),
        Verb::Inner(f, g) => inner(alloc, f, g, left.unwrap(), right),
        Verb::Outer(f) => outer(alloc, f, left.unwrap(), right),
    }
}

/// What a mixed function gives of one argument.
fn mixed_monadic(alloc: Global, f: Mix1, b: &Array, axis: Option<i64>) -> Result<Array, Fail>
    ensures value { Answers result (mixed_monadic_of f b.now axis) }
    ensures memory { OnWantOfMemory result (IsOk (mixed_monadic_of f b.now axis)) }
{
    match f {
        Mix1::Shape => shape_of(alloc, b),
        Mix1::Iota => iota(alloc, b),
        Mix1::Ravel => ravel(alloc, b),
        Mix1::Reverse(way) => reverse(alloc, b, way, axis),
        Mix1::Transpose => transpose(alloc, b),
        Mix1::GradeUp => grade_up(alloc, b),
        Mix1::GradeDown => grade_down(alloc, b),
        Mix1::Format => format(alloc, b),
    }
}

/// What a mixed function gives of two arguments.
fn mixed_dyadic(
    alloc: Global,
    f: Mix2,
    a: &Array,
    b: &Array,
    axis: Option<i64>,
) -> Result<Array, Fail>
    ensures value { Answers result (mixed_dyadic_of f a.now b.now axis) }
    ensures memory { OnWantOfMemory result (IsOk (mixed_dyadic_of f a.now b.now axis)) }
{
    match f {
        Mix2::Reshape => reshape(alloc, a, b),
        Mix2::Catenate => catenate(alloc, a, b, axis),
        Mix2::Take => take(alloc, a, b),
        Mix2::Drop => drop_items(alloc, a, b),
        Mix2::Rotate(way) => rotate(alloc, a, b, way, axis),
        Mix2::TransposeBy => transpose_by(alloc, a, b),
        Mix2::Compress(way) => compress_by(alloc, a, b, way, axis),
        Mix2::Expand(way) => expand(alloc, a, b, way, axis),
        Mix2::IndexOf => index_of(alloc, a, b),
        Mix2::Member => member(alloc, a, b),
        Mix2::Encode => encode(alloc, a, b),
        Mix2::Decode => decode(alloc, a, b),
    }
}
