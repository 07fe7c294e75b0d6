ghost use Rattle.std.specs.Prelude.{◌≡◌, false, true, Some, IfOk, IfErr};
ghost use Rattle.std.specs.Option.{option_map};
ghost use Rattle.apl_workspace.specs.Header.{header_of};
ghost use Rattle.apl_workspace.specs.Meaning.{is_variable_meaning};
ghost use Rattle.apl_workspace.specs.Workspace.{global_in};
ghost use Rattle.apl_workspace.specs.declared.meaning.Meaning.{Meaning};
ghost use Rattle.fn_editor.specs.Editing.{IsRefusal, bracket_reads, by_bracket, quietly};
ghost use Rattle.fn_editor.specs.Editor.{editor_of};
ghost use Rattle.apl_workspace.specs.Function.{IsFunction};
ghost use Rattle.fn_editor.specs.Bracket.{bracket_in};
ghost use Rattle.fn_editor.specs.Opening.{is_bare, line_takes_first, name_with_bracket, opened, opened_as, opened_at, opened_by, opened_by_header, takes_memory_first};

use crate::Editor;
use crate::asking::may_ask;
use crate::closing::{behind_glyph, split_close};
use crate::content::copied_line;
use apl_arrays::{Fail, Glyph, LINE_GLYPH_LIMIT, Line, LineList, Name, Report};
use apl_workspace::{Function, Header, Seen, Workspace, without_blanks};
use std::alloc::Global;

/// What a line opened: the definition, the lines that are shown, and whether the line closed it.
#[derive(Drop)]
pub struct Opened {
    pub editor: Editor,
    pub shown: LineList,
    pub closed: bool,
}

impl Editor {
    /// Opens a definition by a line that begins with `∇`, blanks aside: by a header whose name stands for nothing, or by
    /// the bare name of a function, which one bracket may follow; then a closing `∇` closes it. The answer tells what is
    /// shown. `Defn` where the rules open nothing: the name of what is opened is no variable. It comes also where there is
    /// no memory, unless a header is to be read. It takes memory for the texts of the function or of a header, and for
    /// lines that are shown.
    pub fn start(alloc: Global, line: &Line, ws: &Workspace) -> Result<Opened, Fail>
        ensures ok { IfOk result (λ done. opened ws.now line.now.items ≡ Some (record { editor = done.editor; shown = done.shown.items })) }
        ensures no_variable { IfOk result (λ done. is_variable_meaning (global_in ws.now done.editor.header.name) ≡ false) }
        ensures closed { IfOk result (λ done. done.closed ≡ done.editor.closed) }
        ensures refused { IfErr result (λ fail. IsRefusal (line_takes_first line.now.items) (opened ws.now line.now.items) fail) }
    {
        match behind_glyph(without_blanks(line.as_slice()), Glyph::DEL) {
            None => Err(Fail::Report(Report::Defn)),
            Some(rest) => {
                let (body, closes) = split_close(rest);
                let (editor, shown) = open(alloc, body, ws)?;
                Ok(Opened {
                    editor: editor.then_closed(closes),
                    shown,
                    closed: closes,
                })
            }
        }
    }
}

// Opens a definition by what stands behind the first ∇, without a closing one.
fn open(alloc: Global, text: &[Glyph], ws: &Workspace) -> Result<(Editor, LineList), Fail>
    ensures ok { IfOk result (λ done. opened_by ws.now text.now ≡ Some (record { editor = done.0; shown = done.1.items })) }
    ensures no_variable { IfOk result (λ done. is_variable_meaning (global_in ws.now done.0.header.name) ≡ false) }
    ensures refused { IfErr result (λ fail. IsRefusal (takes_memory_first (name_with_bracket text.now)) (opened_by ws.now text.now) fail) }
{
    match name_with_bracket(text) {
        None => open_by_header(alloc, text, ws),
        Some((name, rest)) => open_at(alloc, &name, rest, ws),
    }
}

// The name at the front, and what follows the bracket behind it.
fn name_with_bracket(text: &[Glyph]) -> Option<(Name, &[Glyph])>
    ensures { option_map (λ found. (found.0, found.1.now)) result ≡ name_with_bracket text.now }
{
    let text = without_blanks(text);
    let (name, count) = Name::longest(text)?;
    let rest = behind_glyph(without_blanks(&text[count..]), Glyph::LEFT_BRACKET)?;
    Some((name, rest))
}

// Opens the function that a name stands for, with a bracket behind the name.
#[tactic(auto, using(crate::proofs::Editors::whole_function))]
fn open_at(
    alloc: Global,
    name: &Name,
    rest: &[Glyph],
    ws: &Workspace,
) -> Result<(Editor, LineList), Fail>
    ensures ok { IfOk result (λ done. opened_at rest.now (global_in ws.now name.now) ≡ Some (record { editor = done.0; shown = done.1.items })) }
    ensures no_variable { IfOk result (λ done. is_variable_meaning (global_in ws.now done.0.header.name) ≡ false) }
    ensures refused { IfErr result (λ fail. IsRefusal (bracket_reads (bracket_in rest.now)) (opened_at rest.now (global_in ws.now name.now)) fail) }
{
    match ws.global(name) {
        Seen::Function(function) => open_function(alloc, function, rest),
        _ => Err(Fail::Report(Report::Defn)),
    }
}

// Opens a function with a bracket behind its name. The bracket is looked at before memory is taken.
fn open_function(
    alloc: Global,
    function: &Function,
    rest: &[Glyph],
) -> Result<(Editor, LineList), Fail>
    requires { IsFunction function.now }
    ensures ok { IfOk result (λ done. by_bracket (editor_of function.now) (bracket_in rest.now) ≡ Some (record { editor = done.0; shown = done.1.items })) }
    ensures name { IfOk result (λ done. done.0.header.name ≡ function.now.header.name) }
    ensures refused { IfErr result (λ fail. IsRefusal (bracket_reads (bracket_in rest.now)) (by_bracket (editor_of function.now) (bracket_in rest.now)) fail) }
{
    if !may_ask(function, rest) {
        return Err(Fail::Report(Report::Defn));
    }
    let mut editor = Editor::of(alloc, function)?;
    let shown = editor.bracketed(rest)?;
    Ok((editor, shown))
}

// Opens a definition by a header, or by the bare name of a function.
fn open_by_header(alloc: Global, text: &[Glyph], ws: &Workspace) -> Result<(Editor, LineList), Fail>
    ensures ok { IfOk result (λ done. opened_by_header ws.now text.now (header_of text.now) ≡ Some (record { editor = done.0; shown = done.1.items })) }
    ensures no_variable { IfOk result (λ done. is_variable_meaning (global_in ws.now done.0.header.name) ≡ false) }
    ensures refused { IfErr result (λ fail. IsRefusal true (opened_by_header ws.now text.now (header_of text.now)) fail) }
{
    let text = copied_line(alloc, text)?;
    let header = Header::read(alloc, &text)?;
    let editor = open_read(alloc, text, header, ws)?;
    Ok((editor, LineList::new(alloc)))
}

// Opens a definition by a header that was read, where the text is one.
fn open_read(
    alloc: Global,
    text: Line,
    header: Option<Header>,
    ws: &Workspace,
) -> Result<Editor, Fail>
    requires { header ≡ header_of text.items }
    ensures ok { IfOk result (λ editor. opened_by_header ws.now text.items header ≡ Some (quietly editor)) }
    ensures no_variable { IfOk result (λ editor. is_variable_meaning (global_in ws.now editor.header.name) ≡ false) }
    ensures refused { IfErr result (λ fail. IsRefusal false (opened_by_header ws.now text.items header) fail) }
{
    match header {
        None => Err(Fail::Report(Report::Defn)),
        Some(header) => open_as(alloc, text, header, ws),
    }
}

// Opens a definition by what the name of its header stands for.
#[tactic(auto, using(crate::proofs::Editors::whole_function))]
fn open_as(alloc: Global, text: Line, header: Header, ws: &Workspace) -> Result<Editor, Fail>
    requires { header_of text.items ≡ Some header }
    ensures ok { IfOk result (λ editor. opened_as text.items header (global_in ws.now header.name) ≡ Some (quietly editor)) }
    ensures no_variable { IfOk result (λ editor. is_variable_meaning (global_in ws.now editor.header.name) ≡ false) }
    ensures refused { IfErr result (λ fail. IsRefusal false (opened_as text.items header (global_in ws.now header.name)) fail) }
{
    match ws.global(&header.name) {
        Seen::Nothing => open_new(alloc, text, header),
        Seen::Function(function) if is_bare(&header) => Ok(Editor::of(alloc, function)?),
        _ => Err(Fail::Report(Report::Defn)),
    }
}

// Opens a definition of a new function.
fn open_new(alloc: Global, text: Line, header: Header) -> Result<Editor, Fail>
    requires { header_of text.items ≡ Some header }
    ensures ok { IfOk result (λ editor. opened_as text.items header Meaning.Nothing ≡ Some (quietly editor)) }
    ensures name { IfOk result (λ editor. editor.header.name ≡ header.name) }
    ensures refused { IfErr result (λ fail. IsRefusal false (opened_as text.items header Meaning.Nothing) fail) }
{
    if text.as_slice().len() > LINE_GLYPH_LIMIT {
        return Err(Fail::Report(Report::Defn));
    }
    Ok(Editor::new(alloc, text, header))
}

// Whether a header is a name and nothing else.
fn is_bare(header: &Header) -> bool
    ensures { result ≡ is_bare header.now }
{
    header.left.is_none()
        && header.right.is_none()
        && header.result.is_none()
        && header.locals.as_slice().is_empty()
}
