ghost use Rattle.std.specs.Prelude.{◌≡◌, true};
ghost use Rattle.apl_scalar.specs.Table.{item_where};

/// A number in 64 bits, or `None` where it is outside.
pub fn small(number: i128) -> Option<i64>
    ensures { result ≡ item_where true number }
{
    i64::try_from(number).ok()
}
