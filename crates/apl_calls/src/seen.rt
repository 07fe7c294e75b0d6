ghost use Rattle.std.specs.Prelude.{◌≡◌, ◌^◌, ◌<◌, IfOk};
ghost use Rattle.apl_workspace.specs.Seen.{plain_seen};
ghost use Rattle.apl_meaning.specs.Calls.{local_value};
ghost use Rattle.apl_meaning.specs.Tasks.{following};
ghost use Rattle.apl_statements.specs.Evaluating.{plain_next};
ghost use Rattle.apl_calls.specs.Callings.{takes_so};

use crate::waiting::header_of;
use apl_arrays::{Array, WantOfMemory};
use apl_statements::Next;
use apl_workspace::Seen;
use std::alloc::Global;

/// Whether a name stands for a function with a left and a right argument exactly where these say so.
pub fn takes_so(seen: Seen<'_>, has_left: bool, has_right: bool) -> bool
    ensures { result ≡ takes_so (plain_seen seen.entry) has_left has_right }
{
    match seen {
        Seen::Function(function) => {
            let header = header_of(function);
            header.left.is_some() == has_left && header.right.is_some() == has_right
        }
        _ => false,
    }
}

/// The value of a local name: a label's is the number of its line. It takes memory for it.
pub fn value_seen(alloc: Global, seen: Seen<'_>) -> Result<Option<Array>, WantOfMemory>
    ensures { IfOk result (λ found. found ≡ local_value (plain_seen seen.entry)) }
{
    match seen {
        Seen::Value(value) => Ok(Some(value.copy(alloc)?)),
        Seen::Label(line) => Ok(Some(Array::scalar(alloc, i64::from(line))?)),
        _ => Ok(None),
    }
}

/// The number of the line that follows a line; 0 is that of none.
pub fn following(number: usize, next: Next) -> usize
    requires { number < 2 ^ 32 }
    ensures { result ≡ following number (plain_next next) }
{
    match next {
        Next::GoesOn => number + 1,
        Next::GoesTo(line) => {
            if line < 0 {
                0
            } else {
                line.unsigned_abs() as usize
            }
        }
    }
}
