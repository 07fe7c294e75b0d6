ghost use Rattle.std.specs.Prelude.{◌≡◌, true};

use anyhow::{Result, bail, ensure};
use apl_workspace::{Seen, Workspace};
use case_fields::{glyphs_text, line_of, push_lines, report_text, unescaped};
use case_workspaces::{
    LINE_END, STEP_END, answers, function_text, is_variable, kept, natural_of, workspace_of,
};
use fn_editor::{Editor, Fed, Opened};
use std::alloc::Global;
use std::mem;

// The prompt of a definition, with _ for each blank.
fn prompt_text(alloc: Global, editor: &Editor) -> Result<String> {
    let prompt = glyphs_text(alloc, editor.prompt().glyphs())?;
    Ok(prompt.replace(alloc, " ", "_")?)
}

// Whether a line was done. The lines that it shows are added, or its report.
fn feed(alloc: Global, text: &mut String, editor: &mut Editor, line: &str) -> Result<bool> {
    ensure!(!editor.is_closed(), "the definition is closed");
    let line = line_of(alloc, line)?;
    let fed = editor.feed(&line);
    drop(line);
    match fed {
        Ok(Fed { shown, .. }) => {
            push_lines(alloc, text, &shown, LINE_END)?;
            Ok(true)
        }
        Err(fail) => {
            text.push_str(report_text(fail)?)?;
            Ok(false)
        }
    }
}

// Enters the lines A1, A2 and so on up to a number, of which the last hundred stay. Whether all were done.
fn go_on(alloc: Global, text: &mut String, editor: &mut Editor, number: u32) -> Result<bool> {
    let mut all_done = true;
    for at in 1..=number {
        let entered = format!(in alloc; "[{at}]A{at}")?;
        all_done = feed(alloc, text, editor, entered.as_str())? && all_done;
        if at > 100 {
            let gone = format!(in alloc; "[∆{}]", at - 100)?;
            all_done = feed(alloc, text, editor, gone.as_str())? && all_done;
        }
    }
    Ok(all_done)
}

// What is seen of a definition: its prompt and what `[⎕]` shows, or that it was closed.
fn view(alloc: Global, editor: &mut Editor) -> Result<String> {
    if editor.is_closed() {
        return Ok(String::from_str(alloc, "closed")?);
    }
    let mut text = prompt_text(alloc, editor)?;
    let is_shown = feed(alloc, &mut text, editor, "[⎕]")?;
    ensure!(is_shown, "a definition is not shown");
    Ok(text)
}

// A workspace on which lines are entered, the definition that is open, and what they did.
#[derive(Drop)]
struct Desk {
    alloc: Global,
    ws: Workspace,
    open: Option<Editor>,
    told: String,
}

impl Desk {
    // Closes a definition, and tells what is defined then.
    fn close(&mut self, editor: Editor) -> Result<()>
        requires { editor.closed ≡ true }
    {
        let name = editor.name();
        if is_variable(&self.ws, &name) {
            drop(editor);
            bail!("a variable is not defined");
        }
        if let Err(fail) = editor.close(&mut self.ws) {
            self.told.push_str(report_text(fail)?)?;
            return Ok(());
        }
        let Seen::Function(function) = self.ws.global(&name) else {
            bail!("nothing was defined");
        };
        let defined = function_text(self.alloc, function)?;
        write!(self.told, "= {defined}")?;
        Ok(())
    }

    // Tells the prompt of a definition.
    fn tell_prompt(&mut self, editor: &Editor) -> Result<()> {
        let prompt = prompt_text(self.alloc, editor)?;
        self.told.push_str(prompt.as_str())?;
        Ok(())
    }

    // What is left behind a line that was done: nothing where it closed the definition, else the definition, of which the
    // prompt is told.
    fn settle(&mut self, editor: Editor) -> Result<Option<Editor>> {
        if editor.is_closed() {
            self.close(editor)?;
            return Ok(None);
        }
        let told = self.tell_prompt(&editor);
        Ok(Some(kept(editor, told)?))
    }

    // What a line does where no definition is open.
    fn start(&mut self, line: &str) -> Result<Option<Editor>> {
        let line = line_of(self.alloc, line)?;
        let started = Editor::start(self.alloc, &line, &self.ws);
        drop(line);
        match started {
            Ok(opened) => self.show(opened),
            Err(fail) => {
                self.told.push_str(report_text(fail)?)?;
                Ok(None)
            }
        }
    }

    // What is left behind a line that opened a definition. The lines that it shows are told.
    fn show(&mut self, opened: Opened) -> Result<Option<Editor>> {
        let Opened { editor, shown, .. } = opened;
        let told = push_lines(self.alloc, &mut self.told, &shown, LINE_END);
        drop(shown);
        self.settle(kept(editor, told)?)
    }

    // Whether a line was done: `»N` goes on to a number, and any other is read as it stands. One that is refused leaves the
    // definition as it was; where it does not, what is seen of it then is told.
    fn edit(&mut self, editor: &mut Editor, line: &str) -> Result<bool> {
        let before = view(self.alloc, editor)?;
        let is_done = match line.strip_prefix("»") {
            Some(number) => go_on(self.alloc, &mut self.told, editor, natural_of(number)?)?,
            None => feed(self.alloc, &mut self.told, editor, line)?,
        };
        if !is_done {
            let after = view(self.alloc, editor)?;
            if after != before {
                write!(self.told, ", and leaves {after}")?;
            }
        }
        Ok(is_done)
    }

    // What a line does to a definition that is open.
    fn enter(&mut self, mut editor: Editor, line: &str) -> Result<Option<Editor>> {
        match self.edit(&mut editor, line) {
            Ok(true) => self.settle(editor),
            Ok(false) => Ok(Some(editor)),
            Err(error) => {
                drop(editor);
                Err(error)
            }
        }
    }

    // Does what a line asks.
    fn take(&mut self, line: &str) -> Result<()> {
        let open = match self.open.take() {
            None => self.start(line)?,
            Some(editor) => self.enter(editor, line)?,
        };
        drop(mem::replace(&mut self.open, open));
        Ok(())
    }

    // Does what lines ask one after another, and tells what the workspace tells after them.
    fn take_all(&mut self, lines: &str, asked: &str) -> Result<()> {
        for (at, line) in unescaped(self.alloc, lines)?.split(STEP_END).enumerate() {
            if at > 0 {
                self.told.push_str(STEP_END)?;
            }
            self.take(line)?;
        }
        let after = answers(self.alloc, &self.ws, ("refused", "-"), asked, STEP_END)?;
        write!(self.told, " ¦ {after}")?;
        Ok(())
    }
}

/// What each line does on the workspace that steps make, and what it tells after them.
pub fn definition_text(alloc: Global, steps: &str, lines: &str, asked: &str) -> Result<String> {
    let mut desk = Desk {
        alloc,
        ws: workspace_of(alloc, steps)?,
        open: None,
        told: String::new(alloc),
    };
    let taken = desk.take_all(lines, asked);
    let Desk { ws, open, told, .. } = desk;
    drop(ws);
    drop(open);
    kept(told, taken)
}
