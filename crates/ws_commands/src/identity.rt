ghost use Rattle.std.specs.Prelude.{◌≡◌, ◌∷◌, [], IfOk};
ghost use Rattle.std.specs.Option.{option_copied};
ghost use Rattle.ws_commands.specs.Names.{id_line, identifying, old_id_line};
ghost use Rattle.ws_commands.specs.Todo.{plain_todo};

use crate::lines::{one_line, text_line};
use crate::todo::Todo;
use apl_arrays::{LineList, Name, WantOfMemory};
use std::alloc::Global;

/// `)WSID`: without a name the id is told; else this name is the id, and what it was is told. It takes memory for the line.
pub(crate) fn identify(
    alloc: Global,
    given: Option<Name>,
    wsid: Option<&Name>,
) -> Result<Todo, WantOfMemory>
    ensures { IfOk result (λ todo. plain_todo todo ≡ identifying given (option_copied wsid.entry)) }
{
    match given {
        None => Ok(Todo::saying(alloc, id_line(alloc, wsid)?)),
        Some(name) => {
            let lines = old_id_line(alloc, wsid)?;
            Ok(Todo::naming(alloc, name, lines))
        }
    }
}

// What the id is.
fn id_line(alloc: Global, wsid: Option<&Name>) -> Result<LineList, WantOfMemory>
    ensures { IfOk result (λ lines. lines.items ≡ id_line (option_copied wsid.entry) ∷ []) }
{
    match wsid {
        None => text_line(alloc, "CLEAR WS"),
        Some(name) => one_line(alloc, "IS ", name.glyphs()),
    }
}

// What the id was.
fn old_id_line(alloc: Global, wsid: Option<&Name>) -> Result<LineList, WantOfMemory>
    ensures { IfOk result (λ lines. lines.items ≡ old_id_line (option_copied wsid.entry) ∷ []) }
{
    match wsid {
        None => text_line(alloc, "WAS CLEAR WS"),
        Some(name) => one_line(alloc, "WAS ", name.glyphs()),
    }
}
