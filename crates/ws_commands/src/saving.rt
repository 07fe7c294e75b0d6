ghost use Rattle.std.specs.Prelude.{◌≡◌, ◌≤◌, [], Some, IfOk, OnErr, if◌then◌else◌};
ghost use Rattle.ws_commands.specs.Library.{dropping, saving};
ghost use Rattle.ws_commands.specs.Shelf.{KeepsEntries, TakesStep};
ghost use Rattle.ws_commands.specs.Todo.{plain_todo, saying};

use crate::lines::{one_line, text_line};
use crate::todo::Todo;
use apl_arrays::{LineList, Name, WantOfMemory};
use apl_io::{Shelf, StoreError};
use apl_workspace::Workspace;
use std::alloc::Global;
use ws_codec::bytes_of;

/// `)SAVE`: the workspace is kept on the shelf under this name, where there is one. It takes memory for the bytes and the
/// lines before it calls the shelf, which is left as that call left it.
pub(crate) fn save<K: Shelf>(
    alloc: Global,
    name: Option<Name>,
    ws: &Workspace,
    user: u32,
    shelf: &mut K,
) -> Result<Todo, WantOfMemory>
    requires frames { ws.now.frames ≡ [] }
    ensures ok { IfOk result (λ todo. TakesStep K.told K.faults user (saving name ws.now) shelf.old (plain_todo todo) shelf.new) }
    ensures kept { OnErr result (KeepsEntries (K.told shelf.old) (K.told shelf.new)) }
    ensures counted { K.faults shelf.old ≤ K.faults shelf.new }
{
    match name {
        None => Ok(Todo::saying(alloc, text_line(alloc, "WS NOT NAMED")?)),
        Some(name) => save_as(alloc, name, ws, user, shelf),
    }
}

// The workspace is kept under a name, which is the id from then on.
fn save_as<K: Shelf>(
    alloc: Global,
    name: Name,
    ws: &Workspace,
    user: u32,
    shelf: &mut K,
) -> Result<Todo, WantOfMemory>
    requires frames { ws.now.frames ≡ [] }
    ensures ok { IfOk result (λ todo. TakesStep K.told K.faults user (saving (Some name) ws.now) shelf.old (plain_todo todo) shelf.new) }
    ensures kept { OnErr result (KeepsEntries (K.told shelf.old) (K.told shelf.new)) }
    ensures counted { K.faults shelf.old ≤ K.faults shelf.new }
{
    let bytes = bytes_of(alloc, ws)?;
    let done = one_line(alloc, "SAVED ", name.glyphs())?;
    let fault = text_line(alloc, "LIBRARY FAULT")?;
    match shelf.write(user, &name, bytes.as_slice()) {
        Ok(()) => Ok(Todo::naming(alloc, name, done)),
        Err(StoreError::Failed) => Ok(Todo::saying(alloc, fault)),
        Err(StoreError::WantOfMemory) => Err(WantOfMemory),
    }
}

/// `)DROP`: what the shelf has under a name goes. It takes memory for the lines before it calls the shelf, which is left as
/// that call left it.
pub(crate) fn drop_saved<K: Shelf>(
    alloc: Global,
    name: &Name,
    user: u32,
    shelf: &mut K,
) -> Result<Todo, WantOfMemory>
    ensures ok { IfOk result (λ todo. TakesStep K.told K.faults user (dropping name.now) shelf.old (plain_todo todo) shelf.new) }
    ensures kept { OnErr result (KeepsEntries (K.told shelf.old) (K.told shelf.new)) }
    ensures counted { K.faults shelf.old ≤ K.faults shelf.new }
{
    let dropped = one_line(alloc, "DROPPED ", name.glyphs())?;
    let missing = text_line(alloc, "WS NOT FOUND")?;
    let fault = text_line(alloc, "LIBRARY FAULT")?;
    match shelf.remove(user, name) {
        Ok(there) => Ok(removed(alloc, there, dropped, missing)),
        Err(StoreError::Failed) => Ok(Todo::saying(alloc, fault)),
        Err(StoreError::WantOfMemory) => Err(WantOfMemory),
    }
}

// What is said of what was there, or was not.
fn removed(alloc: Global, there: bool, dropped: LineList, missing: LineList) -> Todo
    ensures { plain_todo result ≡ (if there then saying dropped.items else saying missing.items) }
{
    if there {
        Todo::saying(alloc, dropped)
    } else {
        Todo::saying(alloc, missing)
    }
}
