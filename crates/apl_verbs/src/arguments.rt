ghost use Rattle.std.specs.Prelude.{◌≡◌};
ghost use Rattle.apl_verbs.specs.Arguments.{is_dyadic, mix1_takes_axis, mix2_takes_axis, verb_takes_axis};

use crate::verb::{Mix1, Mix2, Verb};

/// Whether a function takes two arguments.
pub fn is_dyadic(verb: Verb) -> bool
    ensures { result ≡ is_dyadic verb }
{
    matches!(
        verb,
        Verb::Two(_) | Verb::Mixed2(_) | Verb::Inner(..) | Verb::Outer(_)
    )
}

// Whether an axis may stand behind a function of one argument.
fn mix1_takes_axis(function: Mix1) -> bool
    ensures { result ≡ mix1_takes_axis function }
{
    matches!(function, Mix1::Reverse(_))
}

// Whether one may stand behind a function of two.
fn mix2_takes_axis(function: Mix2) -> bool
    ensures { result ≡ mix2_takes_axis function }
{
    matches!(
        function,
        Mix2::Catenate | Mix2::Rotate(_) | Mix2::Compress(_) | Mix2::Expand(_)
    )
}

/// Whether an axis may stand behind the function.
pub fn verb_takes_axis(verb: Verb) -> bool
    ensures { result ≡ verb_takes_axis verb }
{
    match verb {
        Verb::Reduce(..) | Verb::Scan(..) => true,
        Verb::Mixed1(function) => mix1_takes_axis(function),
        Verb::Mixed2(function) => mix2_takes_axis(function),
        Verb::One(_) | Verb::Two(_) | Verb::Inner(..) | Verb::Outer(_) => false,
    }
}
