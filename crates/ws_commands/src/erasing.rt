ghost use Rattle.std.specs.Prelude.{◌≡◌, ◌++◌, ◌||◌, IfOk, OnOk, filter};
ghost use Rattle.std.specs.List.{flat_map};
ghost use Rattle.apl_workspace.specs.Listing.{names_asked};
ghost use Rattle.apl_workspace.specs.Seen.{plain_seen};
ghost use Rattle.apl_workspace.specs.Workspace.{global_in};
ghost use Rattle.ws_commands.specs.Mention.{mentions_of};
ghost use Rattle.ws_commands.specs.Names.{erasing, is_nothing, unfound};
ghost use Rattle.ws_commands.specs.Todo.{is_among, plain_todo};

use crate::lines::line_of;
use crate::mention::{Mention, mentions_of};
use crate::todo::{Change, Todo};
use apl_arrays::{LineList, List, Name, NameList, WantOfMemory};
use apl_workspace::{Seen, What, Workspace};
use std::alloc::Global;

/// `)ERASE`: names are erased, the shared ones of them are retracted first, and each that is not there gets a line. It takes
/// memory for the names and the lines.
pub(crate) fn erase(alloc: Global, names: &NameList, ws: &Workspace) -> Result<Todo, WantOfMemory>
    ensures { IfOk result (λ todo. plain_todo todo ≡ erasing names.now.items ws.now) }
{
    let lines = unfound_lines(alloc, names.as_slice(), ws)?;
    let retract = shared_among(alloc, names.as_slice(), ws)?;
    let names = names.copy(alloc)?;
    Ok(Todo::retracting(alloc, retract, Change::Erase(names), lines))
}

// The lines of names that are not there, or are mentioned again.
fn unfound_lines(alloc: Global, names: &[Name], ws: &Workspace) -> Result<LineList, WantOfMemory>
    ensures { IfOk result (λ lines. lines.items ≡ flat_map (unfound ws.now) (mentions_of names.now)) }
{
    let mentions = mentions_of(alloc, names)?;
    let mut lines = LineList::new(alloc);
    for mention in &mentions {
        add_unfound(alloc, &mut lines, mention, ws)?;
    }
    Ok(lines)
}

// Adds the line of a name, where it gets one.
fn add_unfound(
    alloc: Global,
    lines: &mut LineList,
    mention: &Mention,
    ws: &Workspace,
) -> Result<(), WantOfMemory>
    ensures { OnOk result (lines.new.items ≡ lines.old.items ++ unfound ws.now mention.now) }
{
    if is_unfound(mention, ws) {
        lines.push(line_of(alloc, "NOT FOUND: ", mention.name.glyphs())?)?;
    }
    Ok(())
}

// Whether a name gets a line.
fn is_unfound(mention: &Mention, ws: &Workspace) -> bool
    ensures { result ≡ (mention.now.repeated || is_nothing (global_in ws.now mention.now.name)) }
{
    mention.repeated || is_nothing(ws.global(&mention.name))
}

// Whether a name that stands for this is not there.
fn is_nothing(seen: Seen<'_>) -> bool
    ensures { result ≡ is_nothing (plain_seen seen.entry) }
{
    match seen {
        Seen::Nothing => true,
        Seen::Value(_) | Seen::Function(_) | Seen::Label(_) | Seen::Shared(_) => false,
    }
}

// The shared names of a workspace that are among these, ascending.
fn shared_among(alloc: Global, names: &[Name], ws: &Workspace) -> Result<NameList, WantOfMemory>
    ensures { IfOk result (λ list. list.items ≡ filter (is_among names.now) (names_asked What.Shares ws.now)) }
{
    let shares = ws.names(What::Shares)?;
    let mut list = List::new(alloc);
    for name in shares.as_slice() {
        if is_among(names, name) {
            list.push(*name)?;
        }
    }
    Ok(list)
}

// Whether a name is among these.
fn is_among(names: &[Name], name: &Name) -> bool
    ensures { result ≡ is_among names.now name.now }
{
    names.iter().any(|other| name == other)
}
