ghost use Rattle.std.specs.Prelude.{◌≡◌, ◌≤◌, ◌++◌, OnOk, length};
ghost use Rattle.std.specs.List.{flat_map};
ghost use Rattle.apl_arrays.specs.Array.{seen_items};
ghost use Rattle.apl_workspace.specs.Function.{IsFunction};
ghost use Rattle.apl_workspace.specs.Limits.{most_weight};
ghost use Rattle.apl_workspace.specs.Workspace.{global_in};
ghost use Rattle.ws_codec.specs.Kept.{kept, kept_globals};
ghost use Rattle.ws_codec.specs.SavedText.{kept_bytes, kind_byte, object_bytes, objects_bytes};

use crate::numbers::{add_name, add_number32};
use crate::written_values::{add_array, add_function};
use apl_arrays::{Array, ItemsRef, Name, WantOfMemory};
use apl_workspace::{Function, Meaning, Seen, Workspace};

/// Adds the objects of a workspace, behind how many they are. It takes memory for them, and for the names; where that
/// runs out, a part of them may stand there.
pub fn add_objects(bytes: &mut Vec<u8>, ws: &Workspace) -> Result<(), WantOfMemory>
    ensures { OnOk result (bytes.new.items ≡ bytes.old.items ++ objects_bytes (kept_globals ws.now.globals)) }
{
    let names = ws.all_names()?;
    let names = names.as_slice();
    add_number32(bytes, kept_count(ws, names) as u32)?;
    add_each(bytes, ws, names)
}

/// How many of these names are kept.
fn kept_count(ws: &Workspace, names: &[Name]) -> usize
    ensures value { result ≡ length (flat_map (λ name. kept name (global_in ws.now name)) names.now) }
    ensures within { result ≤ length names.now }
{
    let mut count = 0;
    for name in names {
        count += count_of(ws, name);
    }
    count
}

/// One where a name is kept, else none.
fn count_of(ws: &Workspace, name: &Name) -> usize
    ensures value { result ≡ length (kept name.now (global_in ws.now name.now)) }
    ensures within { result ≤ 1 }
{
    match ws.global(name) {
        Seen::Nothing | Seen::Label(_) | Seen::Shared(None) => 0,
        Seen::Value(_) | Seen::Function(_) | Seen::Shared(Some(_)) => 1,
    }
}

/// Adds what is kept of these names.
fn add_each(bytes: &mut Vec<u8>, ws: &Workspace, names: &[Name]) -> Result<(), WantOfMemory>
    ensures { OnOk result (bytes.new.items ≡ bytes.old.items ++ flat_map (λ name. kept_bytes name (global_in ws.now name)) names.now) }
{
    for name in names {
        add_kept(bytes, ws, name)?;
    }
    Ok(())
}

/// Adds what is kept of a name.
fn add_kept(bytes: &mut Vec<u8>, ws: &Workspace, name: &Name) -> Result<(), WantOfMemory>
    ensures { OnOk result (bytes.new.items ≡ bytes.old.items ++ kept_bytes name.now (global_in ws.now name.now)) }
{
    match ws.global(name) {
        Seen::Nothing | Seen::Label(_) | Seen::Shared(None) => Ok(()),
        Seen::Value(value) | Seen::Shared(Some(value)) => add_variable(bytes, name, value),
        Seen::Function(function) => add_defined(bytes, name, function),
    }
}

/// Adds a variable: its kind, its name and its value.
fn add_variable(bytes: &mut Vec<u8>, name: &Name, value: &Array) -> Result<(), WantOfMemory>
    ensures { OnOk result (bytes.new.items ≡ bytes.old.items ++ object_bytes name.now (Meaning.Value value.now)) }
{
    bytes.push(kind_byte(value.items()))?;
    add_name(bytes, name)?;
    add_array(bytes, value)
}

/// The byte of the kind of a variable.
fn kind_byte(items: ItemsRef<'_>) -> u8
    ensures { result ≡ kind_byte (seen_items items.entry) }
{
    match items {
        ItemsRef::Numbers(_) => 1,
        ItemsRef::Chars(_) => 2,
    }
}

/// Adds a function: its kind, its name, its header and its lines.
fn add_defined(bytes: &mut Vec<u8>, name: &Name, function: &Function) -> Result<(), WantOfMemory>
    requires { IsFunction function.now }
    ensures { OnOk result (bytes.new.items ≡ bytes.old.items ++ object_bytes name.now (Meaning.Function function.now)) }
{
    bytes.push(3)?;
    add_name(bytes, name)?;
    add_function(bytes, function)
}
