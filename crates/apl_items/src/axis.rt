ghost use Rattle.std.specs.Prelude.{◌≡◌, ◌<◌, false};
ghost use Rattle.apl_items.specs.Axis.{axis_of, end_axis, lacks_axis};

use apl_arrays::Way;

/// Whether a number is given that names no axis of an array of this rank.
pub fn lacks_axis(rank: usize, axis: Option<i64>) -> bool
    ensures { result ≡ lacks_axis rank axis }
{
    match axis {
        None => false,
        Some(number) => names_none(rank, number),
    }
}

/// Whether a number is not from 1 to the rank.
fn names_none(rank: usize, number: i64) -> bool
    ensures { result ≡ lacks_axis rank (Some number) }
{
    number < 0 || number.unsigned_abs() == 0 || number.unsigned_abs() > rank as u64
}

/// The axis that a function works along: the one that a number names, else the last or the first.
pub fn axis_of(rank: usize, way: Way, axis: Option<i64>) -> usize
    ensures value { result ≡ axis_of rank way axis }
    ensures inside { 0 < rank → lacks_axis rank axis ≡ false → result < rank }
{
    match axis {
        None => end_axis(rank, way),
        Some(number) => (number.unsigned_abs() as usize).saturating_sub(1),
    }
}

/// The last axis or the first.
fn end_axis(rank: usize, way: Way) -> usize
    ensures value { result ≡ end_axis rank way }
    ensures inside { 0 < rank → result < rank }
{
    match way {
        Way::Last => rank.saturating_sub(1),
        Way::First => 0,
    }
}
