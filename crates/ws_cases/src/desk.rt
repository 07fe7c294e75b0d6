ghost use Rattle.std.specs.Prelude.{◌≡◌, [], IfSome};
ghost use Rattle.ws_commands.specs.Finish.{MayComeIn, workspace_brought};
ghost use Rattle.ws_commands.specs.Todo.{given_up, plain_change};

use anyhow::{Result, ensure};
use apl_arrays::{LineList, Name};
use apl_io::MemoryShelf;
use apl_workspace::{Remake, Workspace};
use case_fields::{glyphs_text, line_of, push_names};
use case_workspaces::offers_text;
use std::alloc::Global;
use ws_commands::{Change, Todo, finish, prepare, retractions_follow_each_other};

// Who gives commands at first.
const FIRST_USER: u32 = 1001;

/// A workspace, its id, the user who gives commands, and the shelf.
#[derive(Drop)]
pub struct Desk {
    pub alloc: Global,
    pub ws: Workspace,
    pub id: Option<Name>,
    pub user: u32,
    pub shelf: MemoryShelf,
}

impl Desk {
    /// An empty workspace without an id, and this shelf.
    pub fn new(alloc: Global, shelf: MemoryShelf) -> Desk {
        Desk {
            alloc,
            ws: Workspace::new(alloc),
            id: None,
            user: FIRST_USER,
            shelf,
        }
    }

    /// Does what a command asks. The text is the lines that it prints, and what else is to be done for it. An error leaves the
    /// workspace and its id as they were.
    pub fn command(&mut self, text: &str) -> Result<String> {
        ensure!(self.ws.depth() == 0, "a function is under way");
        let line = line_of(self.alloc, text)?;
        let id = self.id;
        let todo = prepare(
            self.alloc,
            &line,
            &self.ws,
            id.as_ref(),
            self.user,
            &mut self.shelf,
        );
        drop(line);
        self.finish(todo?)
    }

    // Does what is to be done for a command, and tells it.
    fn finish(&mut self, todo: Todo) -> Result<String>
        requires retract { todo.retract.items ≡ given_up (plain_change todo.change) self.old.ws }
        requires comes { IfSome (workspace_brought (plain_change todo.change)) (MayComeIn self.old.ws) }
    {
        match told_at_last(self.alloc, &todo) {
            Ok(text) => self.make(todo, text),
            Err(error) => {
                drop(todo);
                Err(error)
            }
        }
    }

    // Makes what is to be done, of which this is told. Where it ends the session, that is told too.
    fn make(&mut self, todo: Todo, told: String) -> Result<String>
        requires retract { todo.retract.items ≡ given_up (plain_change todo.change) self.old.ws }
        requires comes { IfSome (workspace_brought (plain_change todo.change)) (MayComeIn self.old.ws) }
    {
        let Todo {
            retract,
            lines,
            change,
            remakes,
            ..
        } = todo;
        drop(lines);
        drop(remakes);
        let is_off = self.change(retract.as_slice(), change);
        drop(retract);
        ended_text(told, is_off)
    }

    // Takes names back, and makes the change. Whether it ends the session.
    fn change(&mut self, names: &[Name], change: Change) -> bool
        requires retract { names.now ≡ given_up (plain_change change) self.old.ws }
        requires comes { IfSome (workspace_brought (plain_change change)) (MayComeIn self.old.ws) }
    {
        take_back(&change, &mut self.ws, names);
        finish(self.alloc, change, &mut self.ws, &mut self.id)
    }
}

// The shared names that a change gives up are taken back: each has the value of its own copy then.
fn take_back(change: &Change, ws: &mut Workspace, names: &[Name])
    requires { given_up (plain_change change.now) ws.old ≡ names.now }
    ensures retracted { given_up (plain_change change.now) ws.new ≡ [] }
    ensures printed { ws.new.printed ≡ ws.old.printed }
{
    retractions_follow_each_other();
    for name in names {
        let _ = ws.weight();
        ws.unmark_with_copy(name);
    }
}

// What was told, and that the session ends where it does.
fn ended_text(told: String, is_off: bool) -> Result<String> {
    let mut text = told;
    if is_off {
        text.push_str(" ; off")?;
    }
    Ok(text)
}

// The lines that are printed, or `-` where there are none.
fn lines_text(alloc: Global, lines: &LineList) -> Result<String> {
    let lines = lines.as_slice();
    if lines.is_empty() {
        return Ok(String::from_str(alloc, "-")?);
    }
    let mut texts = Vec::new(alloc);
    for line in lines {
        texts.push(glyphs_text(alloc, line.as_slice())?)?;
    }
    Ok(texts.join(alloc, " / ")?)
}

// Adds the names that are taken back, where there are any.
fn push_retracted(alloc: Global, text: &mut String, names: &[Name]) -> Result<()> {
    if !names.is_empty() {
        text.push_str(" ; retract")?;
        push_names(alloc, text, names)?;
    }
    Ok(())
}

// Adds the offers that are to be made again, where there are any.
fn push_remakes(alloc: Global, text: &mut String, offers: &[Remake]) -> Result<()> {
    if !offers.is_empty() {
        text.push_str(" ; remakes ")?;
        text.push_str(offers_text(alloc, offers)?.as_str())?;
    }
    Ok(())
}

// The lines that are printed, and behind ` ; ` the names that are taken back, whether lines are counted, and the offers that
// are to be made again.
fn todo_text(alloc: Global, todo: &Todo) -> Result<String> {
    let mut text = lines_text(alloc, &todo.lines)?;
    push_retracted(alloc, &mut text, todo.retract.as_slice())?;
    if todo.counted {
        text.push_str(" ; counted")?;
    }
    push_remakes(alloc, &mut text, todo.remakes.as_slice())?;
    Ok(text)
}

// The same, at the second time where memory was refused at the first.
fn told_at_last(alloc: Global, todo: &Todo) -> Result<String> {
    match todo_text(alloc, todo) {
        Ok(text) => Ok(text),
        Err(_) => todo_text(alloc, todo),
    }
}
