ghost use Rattle.std.specs.Prelude.{◌≡◌, ◌++◌, IfOk, OnOk};
ghost use Rattle.std.specs.List.{flat_map};
ghost use Rattle.apl_io.specs.Replies.{plain_names};
ghost use Rattle.apl_workspace.specs.Listing.{names_asked};
ghost use Rattle.ws_commands.specs.Names.{behind_blanks, listing, names_line};
ghost use Rattle.ws_commands.specs.Shelf.{FollowsCall};
ghost use Rattle.ws_commands.specs.Todo.{counting, plain_todo};

use crate::todo::{Todo, faulted};
use apl_arrays::{Line, LineList, List, Name, NameList, WantOfMemory};
use apl_io::StoreError;
use apl_workspace::{What, Workspace};
use line_text::{add_blanks, add_glyphs};
use std::alloc::Global;

/// `)FNS` and `)VARS`: the names that are asked for, on one line. It takes memory for them and for the line.
pub(crate) fn list_names(alloc: Global, what: What, ws: &Workspace) -> Result<Todo, WantOfMemory>
    ensures { IfOk result (λ todo. plain_todo todo ≡ listing (names_asked what ws.now)) }
{
    let names = ws.names(what)?;
    Ok(Todo::counting(alloc, names_line(alloc, names.as_slice())?))
}

// Names on one line with two blanks between, and no line for none.
fn names_line(alloc: Global, names: &[Name]) -> Result<LineList, WantOfMemory>
    ensures { IfOk result (λ lines. lines.items ≡ names_line names.now) }
{
    let mut lines = LineList::new(alloc);
    let Some((first, others)) = names.split_first() else {
        return Ok(lines);
    };
    let mut line = List::new(alloc);
    add_glyphs(&mut line, first.glyphs())?;
    add_names(&mut line, others)?;
    lines.push(line)?;
    Ok(lines)
}

// Adds names, each behind two blanks.
fn add_names(line: &mut Line, names: &[Name]) -> Result<(), WantOfMemory>
    ensures { OnOk result (line.new.items ≡ line.old.items ++ flat_map behind_blanks names.now) }
{
    for name in names {
        add_name(line, name)?;
    }
    Ok(())
}

// Adds a name behind two blanks.
fn add_name(line: &mut Line, name: &Name) -> Result<(), WantOfMemory>
    ensures { OnOk result (line.new.items ≡ line.old.items ++ behind_blanks name.now) }
{
    add_blanks(line, 2)?;
    add_glyphs(line, name.glyphs())
}

/// `)LIB`: the names on the shelf, one on each line. It takes memory for the lines.
pub(crate) fn library_listed(
    alloc: Global,
    answer: Result<NameList, StoreError>,
) -> Result<Todo, WantOfMemory>
    ensures { IfOk result (λ todo. FollowsCall counting (plain_names answer) (plain_todo todo)) }
{
    match answer {
        Ok(names) => Ok(Todo::counting(alloc, name_lines(alloc, names.as_slice())?)),
        Err(StoreError::Failed) => faulted(alloc),
        Err(StoreError::WantOfMemory) => Err(WantOfMemory),
    }
}

// Names, one on each line.
fn name_lines(alloc: Global, names: &[Name]) -> Result<LineList, WantOfMemory>
    ensures { IfOk result (λ lines. lines.items ≡ names.now) }
{
    let mut lines = LineList::new(alloc);
    for name in names {
        lines.push(List::of(alloc, name.glyphs())?)?;
    }
    Ok(lines)
}
