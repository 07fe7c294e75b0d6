use crate::calls::counts::counts_at_last;
use anyhow::{Result, bail};
use apl_arrays::{Fail, Line, LineList, Name, WantOfMemory};
use apl_workspace::{Seen, Workspace};
use case_fields::line_of;
use case_tables::{Calls, Looks};
use case_workspaces::is_variable;
use fn_editor::{Editor, Opened};
use std::alloc::Global;

// The line that opens a definition, and lines of it; the prompt after each, and how many lines are shown then.
const FIRST: &str = "∇F B";

const LINES: [(&str, &str, usize); 6] = [
    ("L:B", "[2]   ", 3),
    (" C", "[3]   ", 4),
    ("[1.5]D", "[1.6] ", 5),
    ("[∆1]", "[1]   ", 4),
    ("[0]R←F B;X", "[1]   ", 4),
    ("[⎕]", "[1]   ", 4),
];

// The line that closes the definition, and the lines of the function then.
const LAST: &str = "E∇";

const DEFINED: [&str; 3] = ["E", "D", " C"];

// A line that changes it, and its lines then.
const CHANGE: &str = "∇F[2]G∇";

const CHANGED: [&str; 3] = ["E", "G", " C"];

/// A definition that is opened, changed line by line, shown and closed, and one line that changes the function.
#[derive(Clone, Copy, Debug)]
pub struct Editing;

impl Calls for Editing {
    fn make(&self, alloc: Global, looks: &mut Looks) -> Result<()> {
        let mut ws = Workspace::new(alloc);
        ws.count_printed(9);
        let made = define(alloc, &mut ws, looks);
        drop(ws);
        made
    }
}

// A definition is opened, and its lines entered.
fn define(alloc: Global, ws: &mut Workspace, looks: &mut Looks) -> Result<()> {
    let Some(mut editor) = opened(alloc, ws, FIRST)? else {
        looks.holds(false);
        return Ok(());
    };
    match enter_lines(alloc, &mut editor, looks) {
        Ok(()) => close_and_change(alloc, editor, ws, looks),
        Err(refused) => {
            drop(editor);
            Err(refused)
        }
    }
}

// The definition is closed, and one line changes the function.
fn close_and_change(
    alloc: Global,
    editor: Editor,
    ws: &mut Workspace,
    looks: &mut Looks,
) -> Result<()> {
    let name = editor.name();
    let close = closed(editor, ws);
    if close == Close::Refused && matches!(ws.look(&name), Seen::Nothing) {
        bail!("out of memory");
    }
    looks.holds(close == Close::Done);
    if close == Close::Done {
        looks.holds(has_lines(alloc, ws, &name, &DEFINED)?);
        looks.holds(is_changed(alloc, ws, &name)?);
        looks.holds(has_lines(alloc, ws, &name, &CHANGED)?);
    }
    Ok(())
}

// The definition that a line opens, at the second time where memory was refused at the first, or nothing where it opens
// none.
fn opened(alloc: Global, ws: &Workspace, text: &str) -> Result<Option<Editor>> {
    let line = line_of(alloc, text)?;
    let opened = match Editor::start(alloc, &line, ws) {
        Err(Fail::WantOfMemory) => Editor::start(alloc, &line, ws),
        opened => opened,
    };
    drop(line);
    Ok(opened.ok().map(definition_of))
}

fn definition_of(opened: Opened) -> Editor {
    let Opened { editor, shown, .. } = opened;
    drop(shown);
    editor
}

// What a line shows, or nothing where the definition is closed or a report comes of it.
fn fed(editor: &mut Editor, line: &Line) -> Result<Option<LineList>, WantOfMemory> {
    if editor.is_closed() {
        return Ok(None);
    }
    match editor.feed(line) {
        Ok(done) => Ok(Some(done.shown)),
        Err(Fail::Report(_)) => Ok(None),
        Err(Fail::WantOfMemory) => Err(WantOfMemory),
    }
}

// What `[⎕]` shows, at the second time where memory was refused at the first, or nothing where it shows nothing.
fn shown_by(editor: &mut Editor, ask: &Line) -> Option<LineList> {
    match fed(editor, ask) {
        Ok(shown) => shown,
        Err(WantOfMemory) => fed(editor, ask).unwrap_or(None),
    }
}

// Whether `[⎕]` shows these lines.
fn shows(editor: &mut Editor, ask: &Line, lines: &LineList) -> bool {
    let shown = shown_by(editor, ask);
    shown.is_some_and(|shown| shown.as_slice() == lines.as_slice())
}

// Whether a line is done.
fn is_fed(editor: &mut Editor, line: &Line) -> Result<bool, WantOfMemory> {
    let shown = fed(editor, line)?;
    let is_done = shown.is_some();
    drop(shown);
    Ok(is_done)
}

// Whether a line is done, at the second time where memory was refused at the first and the definition was shown then as
// before.
fn is_done_from(editor: &mut Editor, ask: &Line, line: &Line, before: &LineList) -> bool {
    let prompt = editor.prompt();
    match is_fed(editor, line) {
        Ok(is_so) => is_so,
        Err(WantOfMemory) => {
            let is_same = editor.prompt().glyphs() == prompt.glyphs();
            is_same && shows(editor, ask, before) && is_fed(editor, line) == Ok(true)
        }
    }
}

// Whether a line is done, and the definition shown before it.
fn is_done(editor: &mut Editor, ask: &Line, line: &Line) -> bool {
    match shown_by(editor, ask) {
        None => false,
        Some(before) => {
            let is_so = is_done_from(editor, ask, line, &before);
            drop(before);
            is_so
        }
    }
}

// All lines of the definition.
fn enter_lines(alloc: Global, editor: &mut Editor, looks: &mut Looks) -> Result<()> {
    let ask = line_of(alloc, "[⎕]")?;
    for (text, prompt, count) in LINES {
        looks.holds(is_done(editor, &ask, &line_of(alloc, text)?));
        let prompt = line_of(alloc, prompt)?;
        looks.holds(editor.prompt().glyphs() == prompt.as_slice());
        let shown = shown_by(editor, &ask);
        looks.holds(shown.is_some_and(|lines| lines.as_slice().len() == count));
    }
    looks.holds(is_done(editor, &ask, &line_of(alloc, LAST)?));
    Ok(())
}

// How the close of a definition ended: it was done, or memory was refused and the workspace has the counts that it had, or
// neither.
#[derive(Clone, Copy, Debug, PartialEq, Eq)]
enum Close {
    Done,
    Refused,
    Wrong,
}

fn closed(editor: Editor, ws: &mut Workspace) -> Close {
    if !editor.is_closed() || is_variable(ws, &editor.name()) {
        drop(editor);
        return Close::Wrong;
    }
    let before = counts_at_last(ws);
    match editor.close(ws) {
        Ok(()) => Close::Done,
        Err(fail) => {
            let is_same = before.is_some() && counts_at_last(ws) == before;
            match fail {
                Fail::WantOfMemory if is_same => Close::Refused,
                _ => Close::Wrong,
            }
        }
    }
}

// Whether a name stands for a function with these lines.
fn has_lines(alloc: Global, ws: &Workspace, name: &Name, lines: &[&str]) -> Result<bool> {
    let Seen::Function(function) = ws.look(name) else {
        return Ok(false);
    };
    let mut is_so = function.lines().len() == lines.len();
    for (line, text) in function.lines().iter().zip(lines) {
        is_so = *line == line_of(alloc, *text)? && is_so;
    }
    Ok(is_so)
}

// How the line ended that changes the function.
fn changed(alloc: Global, ws: &mut Workspace) -> Result<Close> {
    match opened(alloc, ws, CHANGE)? {
        Some(editor) => Ok(closed(editor, ws)),
        None => Ok(Close::Wrong),
    }
}

// Whether one line changes the function that is there, at the second time where memory was refused at the first and the
// function was as before.
fn is_changed(alloc: Global, ws: &mut Workspace, name: &Name) -> Result<bool> {
    match changed(alloc, ws)? {
        Close::Done => Ok(true),
        Close::Wrong => Ok(false),
        Close::Refused => {
            let is_same = has_lines(alloc, ws, name, &DEFINED)?;
            Ok(is_same && changed(alloc, ws).unwrap_or(Close::Wrong) == Close::Done)
        }
    }
}
