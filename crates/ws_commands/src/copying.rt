ghost use Rattle.std.specs.Prelude.{◌≡◌, ◌++◌, [], Ok, IfOk, OnOk, false, is_some, not};
ghost use Rattle.std.specs.List.{flat_map};
ghost use Rattle.std.specs.Option.{option_map};
ghost use Rattle.apl_execute.specs.Merge.{copied_as};
ghost use Rattle.apl_io.specs.Replies.{plain_read};
ghost use Rattle.apl_workspace.specs.Seen.{plain_seen};
ghost use Rattle.ws_codec.specs.Saved.{plain_saved, saved_reading};
ghost use Rattle.ws_commands.specs.Library.{names_asked_for, copied, copied_by, copied_from, copy_lines, left_out, mentioned};
ghost use Rattle.ws_commands.specs.Mention.{mentions_of};
ghost use Rattle.ws_commands.specs.Shelf.{FollowsCall};
ghost use Rattle.ws_commands.specs.Todo.{doing, plain_todo, swap};

use crate::lines::{line_of, one_line, text_line};
use crate::mention::{Mention, mentions_of};
use crate::todo::{Change, Todo, damaged, faulted, unknown};
use apl_arrays::{Bytes, Fail, LineList, Name, NameList, WantOfMemory};
use apl_execute::{Merged, merge};
use apl_io::StoreError;
use apl_workspace::{Seen, Workspace};
use std::alloc::Global;
use ws_codec::{CodecRefused, Saved, read};

/// `)COPY`: what follows from the shelf's answer about a name. It takes memory for the workspace that was saved, for the one
/// that names of it are copied into, and for the lines.
pub(crate) fn copied(
    alloc: Global,
    name: &Name,
    objects: &NameList,
    ws: &Workspace,
    answer: Result<Option<Bytes>, StoreError>,
) -> Result<Todo, WantOfMemory>
    requires { ws.now.frames ≡ [] }
    ensures { IfOk result (λ todo. FollowsCall (copied name.now objects.now.items ws.now) (plain_read answer) (plain_todo todo)) }
{
    match answer {
        Ok(Some(bytes)) => copy_bytes(alloc, name, objects, ws, bytes.as_slice()),
        Ok(None) => unknown(alloc),
        Err(StoreError::Failed) => faulted(alloc),
        Err(StoreError::WantOfMemory) => Err(WantOfMemory),
    }
}

// Names of the workspace that bytes hold come into the active one.
fn copy_bytes(
    alloc: Global,
    name: &Name,
    objects: &NameList,
    ws: &Workspace,
    bytes: &[u8],
) -> Result<Todo, WantOfMemory>
    requires { ws.now.frames ≡ [] }
    ensures { IfOk result (λ todo. plain_todo todo ≡ copied_by name.now objects.now.items ws.now (saved_reading bytes.now)) }
{
    match read(alloc, bytes) {
        Ok(saved) => copy_saved(alloc, name, objects, ws, saved),
        Err(CodecRefused::BadBytes { .. }) => damaged(alloc),
        Err(CodecRefused::WantOfMemory) => Err(WantOfMemory),
    }
}

// Names of a saved workspace come into the active one.
fn copy_saved(
    alloc: Global,
    name: &Name,
    objects: &NameList,
    ws: &Workspace,
    saved: Saved,
) -> Result<Todo, WantOfMemory>
    requires into { ws.now.frames ≡ [] }
    requires from { saved.workspace.frames ≡ [] }
    ensures { IfOk result (λ todo. plain_todo todo ≡ copied_by name.now objects.now.items ws.now (Ok (plain_saved saved))) }
{
    let todo = copy_names(alloc, name, objects, ws, &saved.workspace);
    drop(saved);
    todo
}

// Names of another workspace come into the active one.
fn copy_names(
    alloc: Global,
    name: &Name,
    objects: &NameList,
    ws: &Workspace,
    from: &Workspace,
) -> Result<Todo, WantOfMemory>
    requires into { ws.now.frames ≡ [] }
    requires from { from.now.frames ≡ [] }
    ensures { IfOk result (λ todo. plain_todo todo ≡ copied_from name.now objects.now.items ws.now from.now) }
{
    match merge(alloc, ws, from, asked_for(objects)) {
        Ok(merged) => copy_done(alloc, name, objects, ws, from, merged),
        Err(Fail::Report(_)) => Ok(Todo::saying(alloc, text_line(alloc, "WS FULL")?)),
        Err(Fail::WantOfMemory) => Err(WantOfMemory),
    }
}

// The names that are asked for, where any are.
fn asked_for(objects: &NameList) -> Option<&NameList>
    ensures { option_map (λ asked. asked.now.items) result ≡ names_asked_for objects.now.items }
{
    match objects.as_slice() {
        [] => None,
        [_, ..] => Some(objects),
    }
}

// What is to be done once names are copied.
fn copy_done(
    alloc: Global,
    name: &Name,
    objects: &NameList,
    ws: &Workspace,
    from: &Workspace,
    merged: Merged,
) -> Result<Todo, WantOfMemory>
    ensures { IfOk result (λ todo. plain_todo todo ≡ doing ws.now (swap merged.workspace) (copy_lines name.now objects.now.items ws.now from.now)) }
{
    match copy_lines(alloc, name, objects, ws, from) {
        Ok(lines) => Ok(swapping(alloc, lines, merged)),
        Err(want) => {
            drop(merged);
            Err(want)
        }
    }
}

// A workspace with names copied into it comes in place of the active one.
fn swapping(alloc: Global, lines: LineList, merged: Merged) -> Todo
    ensures { plain_todo result ≡ record { retract = []; lines = lines.items; counted = false; change = swap merged.workspace; remakes = [] } }
{
    Todo::changing(alloc, Change::Swap(merged.workspace), lines)
}

// From where names are copied, and which are left out.
fn copy_lines(
    alloc: Global,
    name: &Name,
    objects: &NameList,
    ws: &Workspace,
    from: &Workspace,
) -> Result<LineList, WantOfMemory>
    ensures { IfOk result (λ lines. lines.items ≡ copy_lines name.now objects.now.items ws.now from.now) }
{
    let mut lines = one_line(alloc, "COPIED ", name.glyphs())?;
    add_mentioned(alloc, &mut lines, objects, ws, from)?;
    Ok(lines)
}

// Adds the lines of names that are left out, of those that are mentioned or of all.
fn add_mentioned(
    alloc: Global,
    lines: &mut LineList,
    objects: &NameList,
    ws: &Workspace,
    from: &Workspace,
) -> Result<(), WantOfMemory>
    ensures { OnOk result (lines.new.items ≡ lines.old.items ++ flat_map (left_out ws.now from.now) (mentions_of (mentioned from.now objects.now.items))) }
{
    match objects.as_slice() {
        [] => {
            let names = from.all_names()?;
            add_all(alloc, lines, names.as_slice(), ws, from)
        }
        [_, ..] => add_all(alloc, lines, objects.as_slice(), ws, from),
    }
}

// Adds the lines of names that are left out of these.
fn add_all(
    alloc: Global,
    lines: &mut LineList,
    names: &[Name],
    ws: &Workspace,
    from: &Workspace,
) -> Result<(), WantOfMemory>
    ensures { OnOk result (lines.new.items ≡ lines.old.items ++ flat_map (left_out ws.now from.now) (mentions_of names.now)) }
{
    let mentions = mentions_of(alloc, names)?;
    for mention in &mentions {
        add_left_out(alloc, lines, mention, ws, from)?;
    }
    Ok(())
}

// Adds the line of a name, where it is left out.
fn add_left_out(
    alloc: Global,
    lines: &mut LineList,
    mention: &Mention,
    ws: &Workspace,
    from: &Workspace,
) -> Result<(), WantOfMemory>
    ensures { OnOk result (lines.new.items ≡ lines.old.items ++ left_out ws.now from.now mention.now) }
{
    if mention.repeated {
        return Ok(());
    }
    if is_missing(from.global(&mention.name)) {
        return lines.push(line_of(alloc, "NOT FOUND: ", mention.name.glyphs())?);
    }
    if ws.is_shared(&mention.name) {
        return lines.push(line_of(alloc, "NOT COPIED: ", mention.name.glyphs())?);
    }
    Ok(())
}

// Whether nothing is copied of a global.
fn is_missing(seen: Seen<'_>) -> bool
    ensures { result ≡ not (is_some (copied_as (plain_seen seen.entry))) }
{
    match seen {
        Seen::Value(_) | Seen::Function(_) | Seen::Shared(Some(_)) => false,
        Seen::Nothing | Seen::Label(_) | Seen::Shared(None) => true,
    }
}
