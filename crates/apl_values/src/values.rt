ghost use Rattle.std.specs.Prelude.{◌≡◌, All, IfOk, IsSome, OnOk, map, slice_get, unwrap_or};
ghost use Rattle.std.specs.Option.{option_copied};
ghost use Rattle.apl_workspace.specs.Seen.{plain_seen};
ghost use Rattle.apl_workspace.specs.Workspace.{look};
ghost use Rattle.apl_meaning.specs.Deeds.{value_of};
ghost use Rattle.apl_values.specs.Values.{IsStackValue, NameHasValue, constant_of, stack_value, no_array, settled};

use crate::part::Part;
use apl_arrays::{Array, Name, WantOfMemory};
use apl_workspace::{Seen, Workspace};
use std::alloc::Global;

/// A value that no part has taken yet: an array that was made, a constant by the place of its part, or the value that a
/// name has now.
#[derive(Debug, Drop)]
pub enum StackValue {
    Made(Array),
    Constant(usize),
    Named(Name),
}

/// The array that a value is.
pub fn array_of<'a>(held: &'a StackValue, parts: &'a [Part], workspace: &'a Workspace) -> &'a Array
    requires { IsStackValue workspace.now parts.now held.now }
    ensures { result.now ≡ stack_value workspace.now parts.now held.now }
{
    match held {
        StackValue::Made(array) => array,
        StackValue::Constant(at) => constant_at(parts, *at),
        StackValue::Named(name) => value_of(workspace, name),
    }
}

// The constant at a place.
fn constant_at(parts: &[Part], at: usize) -> &Array
    requires { IsSome (constant_of (slice_get parts.now at)) }
    ensures { result.now ≡ unwrap_or (constant_of (slice_get parts.now at)) no_array }
{
    match &parts[at] {
        Part::Constant(array) => array,
        Part::Other(_) => unreachable!(),
    }
}

// The value that a name has, a shared one its own copy.
fn value_of<'a>(workspace: &'a Workspace, name: &Name) -> &'a Array
    requires { IsSome (value_of (look workspace.now name.now)) }
    ensures { result.now ≡ unwrap_or (value_of (look workspace.now name.now)) no_array }
{
    match value_seen(workspace.look(name)) {
        Some(array) => array,
        None => unreachable!(),
    }
}

// The value that is seen, a shared one's own copy.
fn value_seen<'a>(seen: Seen<'a>) -> Option<&'a Array>
    ensures { option_copied result ≡ value_of (plain_seen seen.entry) }
{
    match seen {
        Seen::Value(array) => Some(array),
        Seen::Shared(copy) => copy,
        _ => None,
    }
}

/// The array that a value is, as an array of its own. One that was made is moved; any other takes memory for its items.
pub fn owned(
    alloc: Global,
    held: StackValue,
    parts: &[Part],
    workspace: &Workspace,
) -> Result<Array, WantOfMemory>
    requires { IsStackValue workspace.now parts.now held }
    ensures { IfOk result (λ array. array ≡ stack_value workspace.now parts.now held) }
{
    match held {
        StackValue::Made(array) => Ok(array),
        StackValue::Constant(at) => constant_at(parts, at).copy(alloc),
        StackValue::Named(name) => value_of(workspace, &name).copy(alloc),
    }
}

/// Makes an array of each value that a name has, before the workspace changes. It takes memory for their items.
pub fn settle(
    alloc: Global,
    values: &mut Vec<StackValue>,
    workspace: &Workspace,
) -> Result<(), WantOfMemory>
    requires { All (NameHasValue workspace.now) values.old.items }
    ensures { OnOk result (values.new.items ≡ map (settled workspace.now) values.old.items) }
{
    for value in values.iter_mut() {
        settle_one(alloc, value, workspace)?;
    }
    Ok(())
}

// Makes an array of a value that a name has.
fn settle_one(
    alloc: Global,
    value: &mut StackValue,
    workspace: &Workspace,
) -> Result<(), WantOfMemory>
    requires { NameHasValue workspace.now value.old }
    ensures { OnOk result (value.new ≡ settled workspace.now value.old) }
{
    if let StackValue::Named(name) = value {
        let array = value_of(workspace, name).copy(alloc)?;
        *value = StackValue::Made(array);
    }
    Ok(())
}
