ghost use Rattle.std.specs.Prelude.{◌≡◌, ◌+◌, ◌<◌, ◌≤◌, false, true, Some, IfOk, IfErr, OnOk, OnErr, length, map, min, if◌then◌else◌};
ghost use Rattle.apl_arrays.specs.Limits.{most_line_glyphs};
ghost use Rattle.apl_arrays.specs.List.{glyphs_in};
ghost use Rattle.std.specs.Option.{option_map};
ghost use Rattle.std.specs.BTreeMap.{btree_map_len, is_at};
ghost use Rattle.std.specs.Map.{lookup};
ghost use Rattle.std.specs.Ordering.{nat_cmp};
ghost use Rattle.apl_workspace.specs.Function.{IsFunction, function_weight};
ghost use Rattle.apl_workspace.specs.Header.{header_of};
ghost use Rattle.apl_workspace.specs.Limits.{most_function_lines, most_weight};
ghost use Rattle.apl_workspace.specs.Meaning.{is_variable_meaning};
ghost use Rattle.apl_workspace.specs.declared.meaning.Meaning.{Meaning};
ghost use Rattle.apl_workspace.specs.Workspace.{IsFull, global_in, with_global, workspace_weight};
ghost use Rattle.fn_editor.specs.Bracket.{bracket_in};
ghost use Rattle.fn_editor.specs.Closing.{behind_glyph, body};
ghost use Rattle.fn_editor.specs.Editing.{IsRefusal, bracket_reads, by_bracket, bracket_done, deleted, edited, fed, is_header_bracket, is_in_reach, may_enter, quietly, reads_header, with_current_number, with_header, with_text};
ghost use Rattle.fn_editor.specs.Editor.{defined_function, editor_of, has_line, numbered, shown_definition, with_line_at, without_line};
ghost use Rattle.fn_editor.specs.Number.{line_number};
ghost use Rattle.fn_editor.specs.Opening.{new_editor};
ghost use Rattle.fn_editor.specs.Prompt.{prompt_text};

use crate::bracket::{Bracket, bracket_in};
use crate::closing::{behind_glyph, is_blank_text, split_close};
use crate::content::{LineText, copied_line, lines_weight};
use crate::number::{LineNumber, WHOLE_LIMIT};
use crate::prompt::Prompt;
use crate::showing::shown;
use apl_arrays::{Fail, Glyph, LINE_GLYPH_LIMIT, Line, LineList, Name, Report, WantOfMemory};
use apl_workspace::{
    FUNCTION_LINE_LIMIT, Function, Header, WEIGHT_LIMIT, Workspace, without_blanks,
};
use std::alloc::Global;
use std::collections::BTreeMap;
use std::marker::Model;

/// An open definition of a function. It is seen as plain data: its header as entered and what that is, its lines with
/// their numbers, the current number, and whether it was closed.
#[derive(Drop)]
pub struct Editor {
    alloc: Global,
    text: Line,
    header: Header,
    lines: BTreeMap<LineNumber, LineText>,
    number: LineNumber,
    closed: bool,
}

impl Model for Editor {
    ghost use Rattle.fn_editor.specs.Editor.{PlainEditor, IsEditor};

    ghost Value = { PlainEditor };

    ghost view = { λ e. record { text = e.text.items; header = e.header; lines = e.lines.entries; number = e.number; closed = e.closed } };

    ghost invariant = { λ e. IsEditor (record { text = e.text.items; header = e.header; lines = e.lines.entries; number = e.number; closed = e.closed }) };
}

/// What a line did: the lines that are shown, and whether it closed the definition.
#[derive(Debug, Drop)]
pub struct Fed {
    pub shown: LineList,
    pub closed: bool,
}

impl Editor {
    /// The prompt of the current number: the number in brackets, filled with one blank at least until it has six glyphs.
    pub fn prompt(&self) -> Prompt
        ensures { result ≡ prompt_text self.now.number }
    {
        Prompt::of(self.number)
    }

    /// The name of the function.
    pub fn name(&self) -> Name
        ensures { result ≡ self.now.header.name }
    {
        let header = &self.header;
        header.name
    }

    /// Whether the definition was closed.
    pub fn is_closed(&self) -> bool
        ensures { result ≡ self.now.closed }
    {
        self.closed
    }

    /// Does what a line asks: a bracket at its start, or text that enters at the current number; then a closing `∇`
    /// closes the definition. The answer tells what is shown; the name stays. `Defn` where the rules have nothing for the
    /// line, also where there is no memory, unless a header is to be read; it leaves the definition as it was, and so does
    /// `WantOfMemory`. It takes memory for a text or a header that enters, and for lines that are shown.
    pub fn feed(&mut self, line: &Line) -> Result<Fed, Fail>
        requires { self.old.closed ≡ false }
        ensures ok { IfOk result (λ done. fed self.old line.now.items ≡ Some (record { editor = self.new; shown = done.shown.items })) }
        ensures closed { IfOk result (λ done. done.closed ≡ self.new.closed) }
        ensures name { self.new.header.name ≡ self.old.header.name }
        ensures refused { IfErr result (λ fail. IsRefusal (reads_header (body line.now.items)) (fed self.old line.now.items) fail) }
        ensures err { OnErr result (self.new ≡ self.old) }
    {
        let (body, closes) = split_close(line.as_slice());
        let shown = self.edit(body)?;
        self.closed = closes;
        Ok(Fed {
            shown,
            closed: closes,
        })
    }

    /// Defines the function in a workspace, its lines renumbered from 1, in place of one that is there. `WsFull` where
    /// the workspace would weigh more than it may, also where there is no memory; it leaves the workspace as it was, and so
    /// does `WantOfMemory`. The definition is gone in any case.
    pub fn close(self, ws: &mut Workspace) -> Result<(), Fail>
        requires closed { self.closed ≡ true }
        requires no_variable { is_variable_meaning (global_in ws.old self.header.name) ≡ false }
        ensures ok { OnOk result (ws.new ≡ with_global ws.old self.header.name (Meaning.Function (defined_function self))) }
        ensures fits { OnOk result (workspace_weight (with_global ws.old self.header.name (Meaning.Function (defined_function self))) ≤ most_weight) }
        ensures err { OnErr result (ws.new ≡ ws.old) }
        ensures full { IfErr result (IsFull (with_global ws.old self.header.name (Meaning.Function (defined_function self)))) }
    {
        let name = self.name();
        let weight = self.weight();
        if !ws.has_room(&name, weight) {
            drop(self);
            return Err(Fail::Report(Report::WsFull));
        }
        let function = self.into_function()?;
        ws.define(function)
    }

    /// A definition of a new function, without lines.
    pub(crate) fn new(alloc: Global, text: Line, header: Header) -> Editor
        requires header { header_of text.items ≡ Some header }
        requires short { length text.items ≤ most_line_glyphs }
        ensures { result ≡ new_editor text.items header }
    {
        Editor {
            alloc,
            text,
            header,
            lines: BTreeMap::new(alloc),
            number: LineNumber::of(1, 0),
            closed: false,
        }
    }

    /// A definition of a function that is there. It takes memory for its texts.
    pub(crate) fn of(alloc: Global, function: &Function) -> Result<Editor, WantOfMemory>
        requires { IsFunction function.now }
        ensures { IfOk result (λ editor. editor ≡ editor_of function.now) }
    {
        let (lines, number) = numbered(alloc, function.lines())?;
        Ok(Editor {
            alloc,
            text: function.text().copy(alloc)?,
            header: function.header().copy(alloc)?,
            lines,
            number,
            closed: false,
        })
    }

    /// It closed, or open.
    pub(crate) fn then_closed(self, closed: bool) -> Editor
        ensures { result ≡ record self { closed = closed } }
    {
        Editor { closed, ..self }
    }

    /// Does what a line without a closing `∇` asks.
    pub(crate) fn edit(&mut self, line: &[Glyph]) -> Result<LineList, Fail>
        ensures ok { IfOk result (λ shown. edited self.old line.now ≡ Some (record { editor = self.new; shown = shown.items })) }
        ensures refused { IfErr result (λ fail. IsRefusal (reads_header line.now) (edited self.old line.now) fail) }
        ensures err { OnErr result (self.new ≡ self.old) }
    {
        match behind_glyph(without_blanks(line), Glyph::LEFT_BRACKET) {
            None => {
                let number = self.number;
                self.enter(number, line)?;
                Ok(LineList::new(self.alloc))
            }
            Some(rest) => self.bracketed(rest),
        }
    }

    /// Does what a bracket asks, behind its `[`.
    pub(crate) fn bracketed(&mut self, rest: &[Glyph]) -> Result<LineList, Fail>
        ensures ok { IfOk result (λ shown. by_bracket self.old (bracket_in rest.now) ≡ Some (record { editor = self.new; shown = shown.items })) }
        ensures refused { IfErr result (λ fail. IsRefusal (bracket_reads (bracket_in rest.now)) (by_bracket self.old (bracket_in rest.now)) fail) }
        ensures err { OnErr result (self.new ≡ self.old) }
    {
        match bracket_in(rest) {
            None => Err(Fail::Report(Report::Defn)),
            Some((bracket, text)) => self.do_bracket(bracket, text),
        }
    }

    fn do_bracket(&mut self, bracket: Bracket, text: &[Glyph]) -> Result<LineList, Fail>
        ensures ok { IfOk result (λ shown. bracket_done self.old bracket text.now ≡ Some (record { editor = self.new; shown = shown.items })) }
        ensures refused { IfErr result (λ fail. IsRefusal (is_header_bracket bracket) (bracket_done self.old bracket text.now) fail) }
        ensures err { OnErr result (self.new ≡ self.old) }
    {
        match bracket {
            Bracket::Show => self.show(text),
            Bracket::Delete(number) => {
                self.delete(number, text)?;
                Ok(LineList::new(self.alloc))
            }
            Bracket::Header => {
                self.replace_header(text)?;
                Ok(LineList::new(self.alloc))
            }
            Bracket::At(number) => {
                self.enter_at(number, text)?;
                Ok(LineList::new(self.alloc))
            }
        }
    }

    // Shows the definition, where no text follows.
    fn show(&self, text: &[Glyph]) -> Result<LineList, Fail>
        ensures ok { IfOk result (λ lines. bracket_done self.now Bracket.Show text.now ≡ Some (record { editor = self.now; shown = lines.items })) }
        ensures refused { IfErr result (λ fail. IsRefusal false (bracket_done self.now Bracket.Show text.now) fail) }
    {
        if !is_blank_text(text) {
            return Err(Fail::Report(Report::Defn));
        }
        Ok(shown(self.alloc, self.text.as_slice(), &self.lines)?)
    }

    // Text enters at a number, and the number moves on; blank text only moves the number there.
    fn enter(&mut self, number: LineNumber, text: &[Glyph]) -> Result<(), Fail>
        ensures ok { OnOk result (with_text (with_current_number self.old number) text.now ≡ Some self.new) }
        ensures refused { IfErr result (λ fail. IsRefusal false (with_text (with_current_number self.old number) text.now) fail) }
        ensures err { OnErr result (self.new ≡ self.old) }
    {
        if is_blank_text(text) {
            self.number = number;
            return Ok(());
        }
        if !self.may_enter(number, text) {
            return Err(Fail::Report(Report::Defn));
        }
        let entered = LineText::of(self.alloc, text)?;
        put_line(&mut self.lines, number, entered)?;
        self.number = number.next();
        Ok(())
    }

    fn may_enter(&self, number: LineNumber, text: &[Glyph]) -> bool
        ensures { result ≡ may_enter (with_current_number self.now number) text.now }
    {
        text.len() <= LINE_GLYPH_LIMIT
            && number.whole_part() <= WHOLE_LIMIT
            && (self.lines.contains_key(&number) || self.lines.len() < FUNCTION_LINE_LIMIT)
    }

    // Goes to a number that is in reach, and enters the text there.
    fn enter_at(&mut self, number: LineNumber, text: &[Glyph]) -> Result<(), Fail>
        ensures ok { OnOk result (bracket_done self.old (Bracket.At number) text.now ≡ Some (quietly self.new)) }
        ensures refused { IfErr result (λ fail. IsRefusal false (bracket_done self.old (Bracket.At number) text.now) fail) }
        ensures err { OnErr result (self.new ≡ self.old) }
    {
        if !self.is_in_reach(number) {
            return Err(Fail::Report(Report::Defn));
        }
        self.enter(number, text)
    }

    #[tactic(auto, using(crate::proofs::LastNumber::last_number_found))]
    fn is_in_reach(&self, number: LineNumber) -> bool
        ensures { result ≡ is_in_reach self.now number }
    {
        match self.lines.last_key_value() {
            None => number.whole_part() <= 1,
            Some((last, _)) => number.whole_part() <= last.whole_part() + 1,
        }
    }

    // Deletes the line at a number, where there is one and no text follows, and goes there.
    fn delete(&mut self, number: LineNumber, text: &[Glyph]) -> Result<(), Fail>
        ensures ok { OnOk result (bracket_done self.old (Bracket.Delete number) text.now ≡ Some (quietly self.new)) }
        ensures refused { IfErr result (λ fail. IsRefusal false (bracket_done self.old (Bracket.Delete number) text.now) fail) }
        ensures err { OnErr result (self.new ≡ self.old) }
    {
        if !is_blank_text(text) || !self.lines.contains_key(&number) {
            return Err(Fail::Report(Report::Defn));
        }
        remove_line(&mut self.lines, number);
        self.number = number;
        Ok(())
    }

    // Takes a header of the same name in place of the one there is.
    fn replace_header(&mut self, text: &[Glyph]) -> Result<(), Fail>
        ensures ok { OnOk result (option_map quietly (with_header self.old text.now (header_of text.now)) ≡ Some (quietly self.new)) }
        ensures refused { IfErr result (λ fail. IsRefusal true (option_map quietly (with_header self.old text.now (header_of text.now))) fail) }
        ensures err { OnErr result (self.new ≡ self.old) }
    {
        let text = copied_line(self.alloc, text)?;
        let header = Header::read(self.alloc, &text)?;
        self.take_read(text, header)
    }

    // Takes a header that was read, where the text is one. It takes no memory.
    fn take_read(&mut self, text: Line, header: Option<Header>) -> Result<(), Fail>
        requires { header ≡ header_of text.items }
        ensures ok { OnOk result (with_header self.old text.items header ≡ Some self.new) }
        ensures refused { IfErr result (λ fail. IsRefusal false (with_header self.old text.items header) fail) }
        ensures err { OnErr result (self.new ≡ self.old) }
    {
        match header {
            None => Err(Fail::Report(Report::Defn)),
            Some(header) => self.take_header(text, header),
        }
    }

    fn take_header(&mut self, text: Line, header: Header) -> Result<(), Fail>
        requires { header_of text.items ≡ Some header }
        ensures ok { OnOk result (with_header self.old text.items (Some header) ≡ Some self.new) }
        ensures refused { IfErr result (λ fail. IsRefusal false (with_header self.old text.items (Some header)) fail) }
        ensures err { OnErr result (self.new ≡ self.old) }
    {
        if text.as_slice().len() > LINE_GLYPH_LIMIT || self.header.name != header.name {
            return Err(Fail::Report(Report::Defn));
        }
        self.text = text;
        self.header = header;
        Ok(())
    }

    // What the function of the definition weighs, or one more than a workspace may weigh where that is less.
    fn weight(&self) -> usize
        ensures { result ≡ min (function_weight (defined_function self.now)) (most_weight + 1) }
    {
        let text = self.text.as_slice().len().min(WEIGHT_LIMIT);
        (text + 1 + lines_weight(&self.lines)).min(WEIGHT_LIMIT + 1)
    }

    // The function of the definition.
    fn into_function(self) -> Result<Function, WantOfMemory>
        ensures value { IfOk result (λ function. function ≡ defined_function self) }
        ensures whole { IfOk result (λ function. IsFunction function) }
    {
        let mut lines = LineList::new(self.alloc);
        lines.reserve(self.lines.len())?;
        for text in self.lines.into_values() {
            lines.push(text.into_line())?;
        }
        Function::from_parts(self.alloc, self.text, self.header, lines)
    }
}

// Lines with the numbers 1, 2 and so on, and the number after them.
fn numbered(
    alloc: Global,
    lines: &[Line],
) -> Result<(BTreeMap<LineNumber, LineText>, LineNumber), WantOfMemory>
    requires { length lines.now ≤ most_function_lines }
    ensures { IfOk result (λ found. (found.0.entries ≡ numbered 1 (map glyphs_in lines.now)) × (found.1 ≡ line_number (length lines.now + 1) 0)) }
{
    let mut map = BTreeMap::new(alloc);
    let mut number = LineNumber::of(1, 0);
    for line in lines {
        put_line(&mut map, number, LineText::of(alloc, line.as_slice())?)?;
        number = number.next();
    }
    Ok((map, number))
}

// The text becomes the line at a number, in place of one that is there.
fn put_line(
    lines: &mut BTreeMap<LineNumber, LineText>,
    number: LineNumber,
    text: LineText,
) -> Result<(), WantOfMemory>
    ensures ok { OnOk result (lines.new.entries ≡ with_line_at lines.old.entries number text) }
    ensures len { OnOk result (btree_map_len lines.new ≡ btree_map_len lines.old + (if has_line lines.old.entries number then 0 else 1)) }
    ensures err { OnErr result (lines.new.entries ≡ lines.old.entries) }
{
    let before = lines.insert(number, text)?;
    drop(before);
    Ok(())
}

// The lines without the one at a number.
fn remove_line(lines: &mut BTreeMap<LineNumber, LineText>, number: LineNumber)
    ensures { lines.new.entries ≡ without_line lines.old.entries number }
{
    let before = lines.remove(&number);
    drop(before);
}
