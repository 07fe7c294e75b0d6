ghost use Rattle.std.specs.Prelude.{◌≡◌, ◌≢◌, ◌<◌, [], true, OnOk, option_map, vec_capacity, vec_len};
ghost use Rattle.std.specs.Arc.{arc_value};
ghost use Rattle.std.specs.Option.{option_copied};
ghost use Rattle.apl_arrays.specs.List.{glyphs_in};
ghost use Rattle.apl_workspace.specs.Workspace.{global_in};
ghost use Rattle.apl_meaning.specs.Tasks.{line_numbered};
ghost use Rattle.apl_statements.specs.Evaluating.{function_in};
ghost use Rattle.apl_calls.specs.Waitings.{AreKeptOrRead, IsKeepingAt, IsKeptAt, IsStandingAt};

use apl_arrays::{Line, Name, WantOfMemory};
use apl_statements::Waiting;
use apl_values::LineReading;
use apl_workspace::{Function, Header, Seen, Workspace};
use std::sync::Arc;

/// The function that a global name stands for.
pub fn function_of<'a>(workspace: &'a Workspace, name: &Name) -> Option<&'a Function>
    ensures { option_copied result ≡ function_in (global_in workspace.now name.now) }
{
    match workspace.global(name) {
        Seen::Function(function) => Some(function),
        _ => None,
    }
}

/// A line of a function by its number; the first has number 1.
pub fn line_numbered(function: &Function, number: usize) -> Option<&Line>
    ensures { option_map glyphs_in (option_copied result) ≡ line_numbered function.now.lines number }
{
    function.lines().get(number.checked_sub(1)?)
}

/// The header of a function.
pub fn header_of(function: &Function) -> &Header
    ensures { result.now ≡ function.now.header }
{
    function.header()
}

/// The innermost function is at this line.
pub fn stand_at(callers: &mut Vec<Waiting>, number: usize)
    requires { callers.old.items ≢ [] }
    ensures { IsStandingAt number callers.old.items callers.new.items }
{
    let last = callers.len() - 1;
    callers[last].number = number;
}

/// Whether a reading is kept of the line of this number; the first has number 1.
pub fn has_reading(readings: &[Option<Arc<LineReading>>], number: usize) -> bool
    ensures { result ≡ true → IsKeptAt readings.now number }
{
    match number.checked_sub(1) {
        None => false,
        Some(at) => match readings.get(at) {
            None => false,
            Some(kept) => kept.is_some(),
        },
    }
}

/// A reading at its place among those that are kept; places before it may be empty. It takes memory for them.
pub fn keep(
    readings: &mut Vec<Option<Arc<LineReading>>>,
    at: usize,
    reading: Arc<LineReading>,
) -> Result<(), WantOfMemory>
    ensures { AreKeptOrRead arc_value at (arc_value reading) readings.old.items readings.new.items }
{
    'places: while readings.len() <= at {
        readings.push(None)?;
    }
    readings[at] = Some(reading);
    Ok(())
}

/// The innermost function keeps a reading at its place. It takes memory for the places before it.
pub fn keep_in(
    callers: &mut Vec<Waiting>,
    at: usize,
    reading: Arc<LineReading>,
) -> Result<(), WantOfMemory>
    requires { callers.old.items ≢ [] }
    ensures { IsKeepingAt at (arc_value reading) callers.old.items callers.new.items }
{
    let last = callers.len() - 1;
    keep(&mut callers[last].readings, at, reading)
}

/// Room for one function more. It takes memory for it.
pub fn make_room(callers: &mut Vec<Waiting>) -> Result<(), WantOfMemory>
    ensures items { callers.new.items ≡ callers.old.items }
    ensures room { OnOk result (vec_len callers.new < vec_capacity callers.new) }
{
    callers.reserve(1)?;
    Ok(())
}
