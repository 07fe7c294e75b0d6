ghost use Rattle.std.specs.Prelude.{◌≡◌, ◌≤◌, ◌+◌, ◌++◌, ◌∷◌, [], true, None, Some, IfOk, OnOk};
ghost use Rattle.apl_workspace.specs.Function.{IsFunction, function_weight};
ghost use Rattle.apl_workspace.specs.Limits.{most_weight};
ghost use Rattle.apl_workspace.specs.Meaning.{table_weight, value_weight};
ghost use Rattle.ws_codec.specs.Kept.{workspace_of};
ghost use Rattle.ws_codec.specs.Objects.{is_above, read_kind, last_name, read_meaning, read_next_object, read_objects};
ghost use Rattle.ws_codec.specs.Reading.{Gives, read_more, repeated};

use crate::cursor::Cursor;
use crate::functions::read_function;
use crate::kind::{ObjectKind, kind_of};
use crate::saved::SavedRule;
use crate::unread::{Unread, keeps, known};
use crate::values::{read_char_array, read_number_array};
use apl_arrays::{Array, Fail, Name, WantOfMemory};
use apl_workspace::{Function, Meaning, Workspace};
use std::alloc::Global;

/// Reads how many objects there are, and the objects, as the global names of a workspace. It takes memory for them.
#[tactic(auto, unfolding(crate::specs::Objects::read_objects))]
pub fn read_objects(alloc: Global, cursor: &mut Cursor<'_>) -> Result<Workspace, Unread>
    ensures value { Gives (λ ws. (ws.globals, cursor.new)) result (read_objects cursor.old) }
    ensures plain { IfOk result (λ ws. ws ≡ workspace_of ws.globals) }
{
    let count = cursor.number32()?;
    let ws = read_counted(alloc, count, cursor)?;
    Ok(ws)
}

/// Reads so many objects.
fn read_counted(alloc: Global, count: u32, cursor: &mut Cursor<'_>) -> Result<Workspace, Unread>
    ensures value { Gives (λ ws. (ws.globals, cursor.new)) result (repeated read_next_object count [] cursor.old) }
    ensures plain { IfOk result (λ ws. ws ≡ workspace_of ws.globals) }
{
    let mut ws = Workspace::new(alloc);
    let mut before = None;
    for _ in 0..count {
        let name = add_object(alloc, &mut ws, before, cursor)?;
        before = Some(name);
    }
    Ok(ws)
}

/// Reads an object behind others, of which the last has this name, and hands out its name.
#[tactic(auto, unfolding(crate::specs::Objects::object_behind))]
fn add_object(
    alloc: Global,
    ws: &mut Workspace,
    before: Option<Name>,
    cursor: &mut Cursor<'_>,
) -> Result<Name, Unread>
    requires plain { ws.old ≡ workspace_of ws.old.globals }
    requires last { before ≡ last_name ws.old.globals }
    ensures value { Gives (λ _. (ws.new.globals, cursor.new)) result (read_next_object ws.old.globals cursor.old) }
    ensures plain { OnOk result (ws.new ≡ workspace_of ws.new.globals) }
    ensures last { IfOk result (λ name. Some name ≡ last_name ws.new.globals) }
{
    let kind = read_kind(cursor)?;
    let left = cursor.left();
    let name = cursor.name(alloc)?;
    keeps(is_above(before, &name), SavedRule::Order, left)?;
    add_meaning(alloc, ws, kind, name, cursor)?;
    Ok(name)
}

/// Reads a kind.
#[tactic(auto, unfolding(crate::specs::Objects::read_kind))]
fn read_kind(cursor: &mut Cursor<'_>) -> Result<ObjectKind, Unread>
    ensures { Gives (λ kind. (kind, cursor.new)) result (read_kind cursor.old) }
{
    let left = cursor.left();
    let byte = cursor.byte()?;
    let kind = known(kind_of(byte), SavedRule::Kind, left)?;
    Ok(kind)
}

/// Whether a name stands above the one before it, where there is one.
fn is_above(before: Option<Name>, name: &Name) -> bool
    ensures { result ≡ is_above before name.now }
{
    match before {
        None => true,
        Some(before) => before < *name,
    }
}

/// Reads what the object of a kind and a name is, behind others, all of lower names.
#[tactic(auto, unfolding(crate::specs::Objects::read_meaning))]
fn add_meaning(
    alloc: Global,
    ws: &mut Workspace,
    kind: ObjectKind,
    name: Name,
    cursor: &mut Cursor<'_>,
) -> Result<(), Unread>
    requires plain { ws.old ≡ workspace_of ws.old.globals }
    requires above { is_above (last_name ws.old.globals) name ≡ true }
    ensures value { Gives (λ _. (ws.new.globals, cursor.new)) result (read_more ws.old.globals (read_meaning kind name (table_weight ws.old.globals) cursor.old)) }
    ensures plain { OnOk result (ws.new ≡ workspace_of ws.new.globals) }
    ensures last { OnOk result (Some name ≡ last_name ws.new.globals) }
{
    let weight = weight_of(ws);
    match kind {
        ObjectKind::Numbers => {
            let value = read_number_array(alloc, weight, cursor)?;
            put_value(ws, name, value)?;
            Ok(())
        }
        ObjectKind::Chars => {
            let value = read_char_array(alloc, weight, cursor)?;
            put_value(ws, name, value)?;
            Ok(())
        }
        ObjectKind::Defined => {
            let function = read_function(alloc, &name, weight, cursor)?;
            put_function(ws, name, function)?;
            Ok(())
        }
    }
}

/// What the global names of a workspace without frames weigh.
fn weight_of(ws: &Workspace) -> usize
    requires { ws.now ≡ workspace_of ws.now.globals }
    ensures value { result ≡ table_weight ws.now.globals }
    ensures within { result ≤ most_weight }
{
    ws.weight()
}

/// Puts a variable behind all names, where its name is above the last.
fn put_value(ws: &mut Workspace, name: Name, value: Array) -> Result<(), WantOfMemory>
    requires plain { ws.old ≡ workspace_of ws.old.globals }
    requires above { is_above (last_name ws.old.globals) name ≡ true }
    requires light { table_weight ws.old.globals + value_weight value ≤ most_weight }
    ensures globals { OnOk result (ws.new.globals ≡ ws.old.globals ++ (name, Meaning.Value value) ∷ []) }
    ensures plain { OnOk result (ws.new ≡ workspace_of ws.new.globals) }
    ensures last { OnOk result (Some name ≡ last_name ws.new.globals) }
{
    let _ = ws.weight();
    match ws.assign(&name, value) {
        Ok(()) => Ok(()),
        Err(Fail::WantOfMemory) => Err(WantOfMemory),
        Err(Fail::Report(_)) => unreachable!(),
    }
}

/// Puts a function behind all names, where its name is above the last.
fn put_function(ws: &mut Workspace, name: Name, function: Function) -> Result<(), WantOfMemory>
    requires plain { ws.old ≡ workspace_of ws.old.globals }
    requires above { is_above (last_name ws.old.globals) name ≡ true }
    requires whole { IsFunction function }
    requires name { function.header.name ≡ name }
    requires light { table_weight ws.old.globals + function_weight function ≤ most_weight }
    ensures globals { OnOk result (ws.new.globals ≡ ws.old.globals ++ (name, Meaning.Function function) ∷ []) }
    ensures plain { OnOk result (ws.new ≡ workspace_of ws.new.globals) }
    ensures last { OnOk result (Some name ≡ last_name ws.new.globals) }
{
    let _ = ws.weight();
    match ws.define(function) {
        Ok(()) => Ok(()),
        Err(Fail::WantOfMemory) => Err(WantOfMemory),
        Err(Fail::Report(_)) => unreachable!(),
    }
}
