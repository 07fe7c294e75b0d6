ghost use Rattle.std.specs.Prelude.{◌≡◌};
ghost use Rattle.std.specs.List.{list_any};
ghost use Rattle.apl_arrays.specs.Array.{IsArray};
ghost use Rattle.apl_items.specs.Answers.{first_report};
ghost use Rattle.apl_arrays.specs.Number.{is_one};
ghost use Rattle.apl_selection.specs.Flags.{flag_faults, is_no_flag, lacks_flags};

use apl_arrays::{Array, Report};
use apl_items::lacks_axis;

/// The report on flags for an axis of B, which are as many as it wants or not, if there is one.
pub(crate) fn flags_report(a: &Array, b: &Array, axis: Option<i64>, fit: bool) -> Option<Report>
    ensures value { result ≡ first_report (flag_faults a.now b.now axis fit) }
    ensures array { IsArray a.now }
{
    let lacks = lacks_axis(b.shape().len(), axis);
    if a.shape().len() > 1 {
        Some(Report::Rank)
    } else if !lacks && !fit {
        Some(Report::Length)
    } else if lacks_flags(a) {
        Some(Report::Domain)
    } else if lacks {
        Some(Report::Index)
    } else {
        None
    }
}

/// Whether an array holds something else than 0 and 1.
pub(crate) fn lacks_flags(a: &Array) -> bool
    ensures { result ≡ lacks_flags a.now }
{
    a.is_chars() || has_no_flag(a.numbers())
}

/// Whether one of some numbers is neither 0 nor 1. It looks at all of them, also past the first that is.
fn has_no_flag(numbers: &[i64]) -> bool
    ensures { result ≡ list_any is_no_flag numbers.now }
{
    let mut wrong = false;
    for number in numbers {
        if is_no_flag(*number) {
            wrong = true;
        }
    }
    wrong
}

/// Whether a number is neither 0 nor 1.
fn is_no_flag(number: i64) -> bool
    ensures { result ≡ is_no_flag number }
{
    number != 0 && number != 1
}

/// Whether a flag is 1.
pub(crate) fn is_one(flag: i64) -> bool
    ensures { result ≡ is_one flag }
{
    flag == 1
}
