ghost use Rattle.std.specs.Prelude.{◌≡◌, [], false, IfOk};
ghost use Rattle.ws_commands.specs.Todo.{counting, damaged, faulted, incorrect, id_and_lines, plain_change, plain_todo, saying, unknown};

use crate::lines::text_line;
use apl_arrays::{LineList, List, Name, NameList, WantOfMemory};
use apl_workspace::{RemakeList, Workspace};
use std::alloc::Global;

/// A change of the workspace and of its id.
#[derive(Drop)]
pub enum Change {
    /// Nothing changes.
    Keep,
    /// The workspace is empty, and has no id.
    Clear,
    /// Another workspace comes in its place, and this is its id.
    Replace(Workspace, Name),
    /// Another workspace comes in its place. The id is kept.
    Swap(Workspace),
    /// These names are erased.
    Erase(NameList),
    /// This is the id.
    SetId(Name),
    /// The session ends.
    Off,
}

/// What is to be done for a command, in this order: shared names are retracted, the change is made, and offers are made again;
/// then the lines are printed, whose glyphs are counted or not.
#[derive(Drop)]
pub struct Todo {
    pub retract: NameList,
    pub lines: LineList,
    pub counted: bool,
    pub change: Change,
    pub remakes: RemakeList,
}

impl Todo {
    /// Lines, and nothing else.
    pub(crate) fn saying(alloc: Global, lines: LineList) -> Todo
        ensures { plain_todo result ≡ saying lines.items }
    {
        Todo::changing(alloc, Change::Keep, lines)
    }

    /// Lines whose glyphs are counted, and nothing else.
    pub(crate) fn counting(alloc: Global, lines: LineList) -> Todo
        ensures { plain_todo result ≡ counting lines.items }
    {
        Todo {
            retract: List::new(alloc),
            lines,
            counted: true,
            change: Change::Keep,
            remakes: List::new(alloc),
        }
    }

    /// An id and lines, and nothing else.
    pub(crate) fn naming(alloc: Global, name: Name, lines: LineList) -> Todo
        ensures { plain_todo result ≡ id_and_lines name lines.items }
    {
        Todo::changing(alloc, Change::SetId(name), lines)
    }

    /// A change for which no name is retracted, and lines.
    pub(crate) fn changing(alloc: Global, change: Change, lines: LineList) -> Todo
        ensures { plain_todo result ≡ record { retract = []; lines = lines.items; counted = false; change = plain_change change; remakes = [] } }
    {
        Todo::retracting(alloc, List::new(alloc), change, lines)
    }

    /// A change for which names are retracted, and lines.
    pub(crate) fn retracting(
        alloc: Global,
        retract: NameList,
        change: Change,
        lines: LineList,
    ) -> Todo
        ensures { plain_todo result ≡ record { retract = retract.items; lines = lines.items; counted = false; change = plain_change change; remakes = [] } }
    {
        Todo {
            retract,
            lines,
            counted: false,
            change,
            remakes: List::new(alloc),
        }
    }
}

/// What is no command. It takes memory for the line.
pub(crate) fn incorrect(alloc: Global) -> Result<Todo, WantOfMemory>
    ensures { IfOk result (λ todo. plain_todo todo ≡ incorrect) }
{
    Ok(Todo::saying(alloc, text_line(alloc, "INCORRECT COMMAND")?))
}

/// A call of the shelf failed. It takes memory for the line.
pub(crate) fn faulted(alloc: Global) -> Result<Todo, WantOfMemory>
    ensures { IfOk result (λ todo. plain_todo todo ≡ faulted) }
{
    Ok(Todo::saying(alloc, text_line(alloc, "LIBRARY FAULT")?))
}

/// The shelf has nothing under a name. It takes memory for the line.
pub(crate) fn unknown(alloc: Global) -> Result<Todo, WantOfMemory>
    ensures { IfOk result (λ todo. plain_todo todo ≡ unknown) }
{
    Ok(Todo::saying(alloc, text_line(alloc, "WS NOT FOUND")?))
}

/// The shelf has bytes under a name that are no workspace. It takes memory for the line.
pub(crate) fn damaged(alloc: Global) -> Result<Todo, WantOfMemory>
    ensures { IfOk result (λ todo. plain_todo todo ≡ damaged) }
{
    Ok(Todo::saying(alloc, text_line(alloc, "WS DAMAGED")?))
}
