ghost use Rattle.std.specs.Prelude.{◌≡◌, ◌∷◌, [], ◌++◌, Ok, IfOk, codes, false};
ghost use Rattle.apl_io.specs.Replies.{plain_read};
ghost use Rattle.apl_workspace.specs.Listing.{names_asked};
ghost use Rattle.ws_codec.specs.Saved.{plain_saved, saved_reading};
ghost use Rattle.ws_commands.specs.Library.{loaded, loaded_by};
ghost use Rattle.ws_commands.specs.Shelf.{FollowsCall};
ghost use Rattle.ws_commands.specs.Todo.{plain_todo, replace};

use crate::lines::one_line;
use crate::todo::{Change, Todo, damaged, faulted, unknown};
use apl_arrays::{Bytes, LineList, Name, NameList, WantOfMemory};
use apl_io::StoreError;
use apl_workspace::{What, Workspace};
use std::alloc::Global;
use ws_codec::{CodecRefused, Saved, read};

/// `)LOAD`: what follows from the shelf's answer about a name. It takes memory for the workspace that was saved, and for the
/// lists of what is to be done.
pub(crate) fn loaded(
    alloc: Global,
    name: &Name,
    ws: &Workspace,
    answer: Result<Option<Bytes>, StoreError>,
) -> Result<Todo, WantOfMemory>
    ensures { IfOk result (λ todo. FollowsCall (loaded name.now ws.now) (plain_read answer) (plain_todo todo)) }
{
    match answer {
        Ok(Some(bytes)) => load_bytes(alloc, name, ws, bytes.as_slice()),
        Ok(None) => unknown(alloc),
        Err(StoreError::Failed) => faulted(alloc),
        Err(StoreError::WantOfMemory) => Err(WantOfMemory),
    }
}

// The workspace that bytes hold comes in place of the active one.
fn load_bytes(
    alloc: Global,
    name: &Name,
    ws: &Workspace,
    bytes: &[u8],
) -> Result<Todo, WantOfMemory>
    ensures { IfOk result (λ todo. plain_todo todo ≡ loaded_by name.now ws.now (saved_reading bytes.now)) }
{
    match read(alloc, bytes) {
        Ok(saved) => load_saved(alloc, name, ws, saved),
        Err(CodecRefused::BadBytes { .. }) => damaged(alloc),
        Err(CodecRefused::WantOfMemory) => Err(WantOfMemory),
    }
}

// A saved workspace comes in place of the active one.
fn load_saved(
    alloc: Global,
    name: &Name,
    ws: &Workspace,
    saved: Saved,
) -> Result<Todo, WantOfMemory>
    ensures { IfOk result (λ todo. plain_todo todo ≡ loaded_by name.now ws.now (Ok (plain_saved saved))) }
{
    match load_lists(alloc, name, ws) {
        Ok((retract, lines)) => Ok(replacing(name, retract, lines, saved)),
        Err(want) => {
            drop(saved);
            Err(want)
        }
    }
}

// The shared names of the active workspace, and the line that is printed.
fn load_lists(
    alloc: Global,
    name: &Name,
    ws: &Workspace,
) -> Result<(NameList, LineList), WantOfMemory>
    ensures { IfOk result (λ lists. (lists.0.items ≡ names_asked What.Shares ws.now) × (lists.1.items ≡ (codes "LOADED " ++ name.now) ∷ [])) }
{
    let retract = ws.names(What::Shares)?;
    let lines = one_line(alloc, "LOADED ", name.glyphs())?;
    Ok((retract, lines))
}

// What is to be done for a saved workspace.
fn replacing(name: &Name, retract: NameList, lines: LineList, saved: Saved) -> Todo
    ensures { plain_todo result ≡ record { retract = retract.items; lines = lines.items; counted = false; change = replace (plain_saved saved).workspace name.now; remakes = (plain_saved saved).remakes } }
{
    Todo {
        retract,
        lines,
        counted: false,
        change: Change::Replace(saved.workspace, *name),
        remakes: saved.remakes,
    }
}
