ghost use Rattle.std.specs.Prelude.{◌≡◌};
ghost use Rattle.apl_scalar.specs.Table.{monadic_item};

use crate::rules::is_truth;
use apl_verbs::Monad;

/// The number itself, for `+`.
pub fn identity(b: i64) -> Option<i64>
    ensures { result ≡ monadic_item Monad.Identity b }
{
    Some(b)
}

/// The ceiling, which is the number itself.
pub fn ceiling(b: i64) -> Option<i64>
    ensures { result ≡ monadic_item Monad.Ceiling b }
{
    Some(b)
}

/// The floor, which is the number itself.
pub fn floor(b: i64) -> Option<i64>
    ensures { result ≡ monadic_item Monad.Floor b }
{
    Some(b)
}

/// The negative.
pub fn negative(b: i64) -> Option<i64>
    ensures { result ≡ monadic_item Monad.Negative b }
{
    b.checked_neg()
}

/// -1, 0 or 1 by the sign.
pub fn sign(b: i64) -> Option<i64>
    ensures { result ≡ monadic_item Monad.Sign b }
{
    Some(b.signum())
}

/// The magnitude.
pub fn magnitude(b: i64) -> Option<i64>
    ensures { result ≡ monadic_item Monad.Magnitude b }
{
    b.checked_abs()
}

/// The reciprocal, of 1 and -1.
pub fn reciprocal(b: i64) -> Option<i64>
    ensures { result ≡ monadic_item Monad.Reciprocal b }
{
    if b == 1 || b == -1 { Some(b) } else { None }
}

/// 1 for 0, and 0 for 1.
pub fn not(b: i64) -> Option<i64>
    ensures { result ≡ monadic_item Monad.Not b }
{
    if is_truth(b) { Some(1 - b) } else { None }
}
