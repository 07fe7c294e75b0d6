ghost use Rattle.std.specs.Prelude.{◌≡◌, ◌≤◌, ◌∷◌, [], ℕ, true, None, Some, IfOk, IfSome, IsSome, List, OnErr, map};
ghost use Rattle.apl_arrays.specs.Array.{plain_items};
ghost use Rattle.apl_arrays.specs.Glyph.{left_arrow};
ghost use Rattle.apl_items.specs.Places.{OnWantOfMemory};
ghost use Rattle.line_scanner.specs.Token as plain;
ghost use Rattle.line_scanner.specs.Token.{plain_kind, plain_token};
ghost use Rattle.apl_workspace.specs.Limits.{most_weight};
ghost use Rattle.apl_workspace.specs.Meaning.{is_shared_meaning};
ghost use Rattle.apl_workspace.specs.Workspace.{look, with_global, workspace_weight};
ghost use Rattle.apl_workspace.specs.declared.meaning.Meaning.TheVariants as meaning;
ghost use Rattle.apl_meaning.specs.Answers.{got, report_of_kind, with_copy};
ghost use Rattle.apl_meaning.specs.Printing.{value_printed};
ghost use Rattle.apl_meaning.specs.State.{and_then};
ghost use Rattle.sv_events.specs.Answer.{plain_answer};
ghost use Rattle.sv_events.specs.Row.{answer_row};
ghost use Rattle.apl_values.specs.Parts.{IsConstant};
ghost use Rattle.apl_statements.specs.Led.{HasLed};
ghost use Rattle.apl_statements.specs.Wants.{CopyFits};
ghost use Rattle.apl_acts.specs.Alone.{IsConstantOf, IsActOf, IsOnShared, answer_outcome, kinds_of};

use apl_arrays::{Array, Fail, Glyph, Items, LineList, Name, Report, WantOfMemory};
use apl_display::lines_of;
use apl_statements::print_lines;
use apl_values::{Part, constant, report_of, value_in};
use apl_workspace::{Seen, Workspace};
use line_scanner::{Token, TokenKind};
use std::alloc::Global;
use sv_events::{Act, Answer};

/// The act that tokens are alone, if they are one: the use of a shared name, or its set to a constant. It takes memory for
/// the constant.
pub fn act_alone(
    alloc: Global,
    workspace: &Workspace,
    tokens: &[Token],
) -> Result<Option<Act>, WantOfMemory>
    ensures kinds { IfOk result (λ found. IfSome found (IsActOf (kinds_of (map plain_token tokens.now)))) }
    ensures shared { IfOk result (λ found. IfSome found (IsOnShared workspace.now)) }
{
    match tokens {
        [token] => Ok(use_alone(workspace, token)),
        [target, arrow, constant] => set_alone(alloc, workspace, target, arrow, constant),
        _ => Ok(None),
    }
}

// The use of a shared name.
fn use_alone(workspace: &Workspace, token: &Token) -> Option<Act>
    ensures kinds { IfSome result (IsActOf (plain_kind token.now.kind ∷ [])) }
    ensures shared { IfSome result (IsOnShared workspace.now) }
{
    match shared_name(workspace, token) {
        Some(name) => Some(Act::Use(name)),
        None => None,
    }
}

// The set of a shared name to a constant.
fn set_alone(
    alloc: Global,
    workspace: &Workspace,
    target: &Token,
    arrow: &Token,
    constant: &Token,
) -> Result<Option<Act>, WantOfMemory>
    ensures kinds { IfOk result (λ found. IfSome found (IsActOf (plain_kind target.now.kind ∷ plain_kind arrow.now.kind ∷ plain_kind constant.now.kind ∷ []))) }
    ensures shared { IfOk result (λ found. IfSome found (IsOnShared workspace.now)) }
{
    if !is_arrow(arrow) {
        return Ok(None);
    }
    match shared_name(workspace, target) {
        None => Ok(None),
        Some(name) => match constant_of(alloc, constant)? {
            None => Ok(None),
            Some(value) => Ok(Some(Act::Set(name, value))),
        },
    }
}

// The name that a token is, if it is shared.
fn shared_name(workspace: &Workspace, token: &Token) -> Option<Name>
    ensures kind { IfSome result (λ name. plain_kind token.now.kind ≡ plain.name name) }
    ensures shared { IfSome result (λ name. is_shared_meaning (look workspace.now name) ≡ true) }
{
    match &token.kind {
        TokenKind::Name(name) => match workspace.look(name) {
            Seen::Shared(_) => Some(*name),
            _ => None,
        },
        _ => None,
    }
}

// Whether a token is the arrow of an assignment.
fn is_arrow(token: &Token) -> bool
    ensures { result ≡ true → plain_kind token.now.kind ≡ plain.sign left_arrow }
{
    match &token.kind {
        TokenKind::Sign(glyph) => *glyph == Glyph::LEFT_ARROW,
        _ => false,
    }
}

// The array of a constant, unless it would be too large. It takes memory for its items.
fn constant_of(alloc: Global, token: &Token) -> Result<Option<Array>, WantOfMemory>
    ensures items { IfOk result (λ found. IfSome found (λ value. IsConstantOf (plain_kind token.now.kind) value.items)) }
    ensures constant { IfOk result (λ found. IfSome found IsConstant) }
{
    match &token.kind {
        TokenKind::Numbers(list) => array_of(alloc, Items::Numbers(list.copy(alloc)?)),
        TokenKind::Chars(list) => array_of(alloc, Items::Chars(list.copy(alloc)?)),
        _ => Ok(None),
    }
}

// The array of the items of a constant, unless it would be too large. It takes memory, but for a lone number.
fn array_of(alloc: Global, items: Items) -> Result<Option<Array>, WantOfMemory>
    ensures items { IfOk result (λ found. IfSome found (λ value. value.items ≡ plain_items items)) }
    ensures constant { IfOk result (λ found. IfSome found IsConstant) }
{
    match constant(alloc, items)? {
        Part::Constant(array) => Ok(Some(array)),
        Part::Other(_) => Ok(None),
    }
}

/// Does what the answer to an act does that a line is alone: the own copy of the name is its value from then on, and the
/// value of a use is printed. The lines that are printed go last in the output; the report by which the line ends is
/// answered; that of an answer which ends the line, and WS FULL where the workspace would weigh too much with the copy, also
/// where there is no memory. It takes memory for the value and the lines.
pub fn hear_alone(
    alloc: Global,
    workspace: &mut Workspace,
    act: &Act,
    answer: Answer,
    output: &mut LineList,
) -> Result<(), Fail>
    requires { IsOnShared workspace.old act.now }
    ensures led { HasLed workspace.old output.old.items (answer_outcome act.now (plain_answer answer)) workspace.new output.new.items result }
    ensures memory { OnWantOfMemory result (report_of_kind (answer_row (plain_answer answer)).row.kind ≡ None) }
    ensures room { OnWantOfMemory result (CopyFits workspace.old act.now (plain_answer answer)) }
    ensures frames { workspace.new.frames ≡ workspace.old.frames }
{
    if let Some(report) = report_of(answer.row().kind) {
        return Err(Fail::Report(report));
    }
    match act {
        Act::Use(name) => hear_value(alloc, workspace, name, answer, output),
        Act::Set(name, value) => keep_set(alloc, workspace, name, value),
        _ => unreachable!(),
    }
}

// The value of a use is the own copy, and is printed. WS FULL where the workspace would weigh too much comes also where there
// is no memory.
fn hear_value(
    alloc: Global,
    workspace: &mut Workspace,
    name: &Name,
    answer: Answer,
    output: &mut LineList,
) -> Result<(), Fail>
    requires { is_shared_meaning (look workspace.old name.now) ≡ true }
    ensures led { HasLed workspace.old output.old.items (λ s. and_then (got name.now (answer_row (plain_answer answer)).value s) value_printed) workspace.new output.new.items result }
    ensures memory { OnWantOfMemory result (IsSome (answer_row (plain_answer answer)).value) }
    ensures room { OnWantOfMemory result (IfSome (answer_row (plain_answer answer)).value (λ value. workspace_weight (with_global workspace.old name.now (meaning.Shared (Some value))) ≤ most_weight)) }
    ensures frames { workspace.new.frames ≡ workspace.old.frames }
{
    let value = value_in(answer)?;
    keep_and_print(alloc, workspace, name, value, output)
}

// A value is the own copy of a name, and is printed.
fn keep_and_print(
    alloc: Global,
    workspace: &mut Workspace,
    name: &Name,
    value: Array,
    output: &mut LineList,
) -> Result<(), Fail>
    requires { is_shared_meaning (look workspace.old name.now) ≡ true }
    ensures led { HasLed workspace.old output.old.items (λ s. and_then (with_copy name.now value s) (λ _ t. value_printed value t)) workspace.new output.new.items result }
    ensures room { OnWantOfMemory result (workspace_weight (with_global workspace.old name.now (meaning.Shared (Some value))) ≤ most_weight) }
    ensures frames { workspace.new.frames ≡ workspace.old.frames }
{
    if !workspace.takes_copy(name, &value) {
        drop(value);
        return Err(Fail::Report(Report::WsFull));
    }
    let lines = lines_of(alloc, &value)?;
    renew(workspace, name, value)?;
    print_lines(workspace, output, lines.into_vec())
}

// The own copy of a name is the value that it was set to. WS FULL where the workspace would weigh too much comes also where
// there is no memory to copy it.
fn keep_set(
    alloc: Global,
    workspace: &mut Workspace,
    name: &Name,
    value: &Array,
) -> Result<(), Fail>
    requires { is_shared_meaning (look workspace.old name.now) ≡ true }
    ensures led { (before : List (List ℕ)) → HasLed workspace.old before (with_copy name.now value.now) workspace.new before result }
    ensures room { OnWantOfMemory result (workspace_weight (with_global workspace.old name.now (meaning.Shared (Some value.now))) ≤ most_weight) }
    ensures frames { workspace.new.frames ≡ workspace.old.frames }
{
    if !workspace.takes_copy(name, value) {
        return Err(Fail::Report(Report::WsFull));
    }
    renew(workspace, name, value.copy(alloc)?)
}

// The own copy of a shared name is this value; WS FULL where the workspace would weigh too much. It takes no memory.
fn renew(workspace: &mut Workspace, name: &Name, value: Array) -> Result<(), Fail>
    requires { is_shared_meaning (look workspace.old name.now) ≡ true }
    ensures led { (before : List (List ℕ)) → HasLed workspace.old before (with_copy name.now value) workspace.new before result }
    ensures memory { OnWantOfMemory result ⊥ }
    ensures err { OnErr result (workspace.new ≡ workspace.old) }
    ensures frames { workspace.new.frames ≡ workspace.old.frames }
{
    let _weight = workspace.weight();
    workspace.renew(name, value)
}
