use crate::calls::no_shelf::NoShelf;
use crate::desk::Desk;
use anyhow::Result;
use apl_arrays::Line;
use apl_io::{CallNumbers, MemoryShelf};
use apl_workspace::Workspace;
use case_fields::{line_of, report_text};
use case_tables::{Calls, Looks};
use case_workspaces::{step, workspace_of};
use std::alloc::Global;
use ws_commands::prepare;

// Steps that make a workspace.
const STEPS: [&str; 3] = ["assign X N()3", "define F B⋄B", "mark Y C(2)'AB' S 10"];

// Commands on it, one after another, and what each gives.
const COMMANDS: [(&str, &str); 16] = [
    (")WSID", "CLEAR WS"),
    (")SAVE", "WS NOT NAMED"),
    (")SAVE W", "SAVED W"),
    (")FNS", "F ; counted"),
    (")VARS", "X  Y ; counted"),
    (")ERASE X Z", "NOT FOUND: Z"),
    (")COPY W", "COPIED W / NOT COPIED: Y"),
    (")COPY W Z X", "COPIED W / NOT FOUND: Z"),
    (")LOAD W", "LOADED W ; retract Y ; remakes Y S 10"),
    (")LIB", "W ; counted"),
    (")WSID V", "WAS W"),
    (")CLEAR", "CLEAR WS"),
    (")DROP W", "DROPPED W"),
    (")DROP W", "WS NOT FOUND"),
    (")X", "INCORRECT COMMAND"),
    (")OFF", "- ; off"),
];

// Commands over a shelf for which memory runs out, and whether each calls it.
const REFUSED: [(&str, bool); 10] = [
    (")SAVE W", true),
    (")LOAD W", true),
    (")COPY W X", true),
    (")DROP W", true),
    (")LIB", true),
    (")SAVE", false),
    (")CLEAR", false),
    (")ERASE X", false),
    (")WSID W", false),
    (")OFF", false),
];

/// Commands that are given one after another, and commands over a shelf for which memory runs out.
#[derive(Clone, Copy, Debug)]
pub struct Commands;

impl Calls for Commands {
    fn make(&self, alloc: Global, looks: &mut Looks) -> Result<()> {
        let mut desk = Desk::new(alloc, MemoryShelf::new(alloc, CallNumbers::new(alloc)));
        let given = give_all(&mut desk, looks);
        drop(desk);
        given?;
        let ws = workspace_of(alloc, "assign X N()3")?;
        let refused = refuse_all(alloc, &ws, looks);
        drop(ws);
        refused
    }
}

// Whether a command gives this, at the second time where memory was refused at the first.
fn gives(desk: &mut Desk, command: &str, wanted: &str) -> bool {
    let text = match desk.command(command) {
        Ok(text) => Ok(text),
        Err(_) => desk.command(command),
    };
    text.is_ok_and(|text| text.as_str() == wanted)
}

// Whether a step is done, and not refused with a report. An error says that memory was refused.
fn is_done(desk: &mut Desk, text: &str) -> Result<bool> {
    match step(desk.alloc, &mut desk.ws, text)? {
        Ok(()) => Ok(true),
        Err(fail) => {
            report_text(fail)?;
            Ok(false)
        }
    }
}

fn give_all(desk: &mut Desk, looks: &mut Looks) -> Result<()> {
    for text in STEPS {
        looks.holds(is_done(desk, text)?);
    }
    for (command, wanted) in COMMANDS {
        looks.holds(gives(desk, command, wanted));
    }
    Ok(())
}

// How a command ended over a shelf for which memory runs out: it was done, or memory was refused before it called the shelf
// or by the shelf.
#[derive(Clone, Copy)]
enum End {
    Done,
    Before,
    ByShelf,
}

fn end_of(alloc: Global, line: &Line, ws: &Workspace) -> End {
    if ws.depth() > 0 {
        return End::Done;
    }
    let mut shelf = NoShelf { calls: 0 };
    let todo = prepare(alloc, line, ws, None, 1001, &mut shelf);
    let is_refused = todo.is_err();
    drop(todo);
    match shelf.calls {
        0 if is_refused => End::Before,
        1 if is_refused => End::ByShelf,
        _ => End::Done,
    }
}

// Whether a command calls the shelf and is refused memory by it, at the second time where it was refused before the call at
// the first.
fn is_refused(alloc: Global, line: &Line, ws: &Workspace) -> bool {
    match end_of(alloc, line, ws) {
        End::Done => false,
        End::Before => matches!(end_of(alloc, line, ws), End::ByShelf),
        End::ByShelf => true,
    }
}

fn refuse_all(alloc: Global, ws: &Workspace, looks: &mut Looks) -> Result<()> {
    for (command, is_wanted) in REFUSED {
        let line = line_of(alloc, command)?;
        looks.holds(is_refused(alloc, &line, ws) == is_wanted);
    }
    Ok(())
}
