ghost use Rattle.std.specs.Prelude.{◌≡◌, [], Some, None, Ok, Err, true, false, IfErr, IfOk, IfSome, IsSome, OnOk, option_map, reverse};
ghost use Rattle.std.specs.Option.{option_copied};
ghost use Rattle.apl_arrays.specs.declared.report.Report.TheVariants as reports;
ghost use Rattle.apl_items.specs.Places.{OnWantOfMemory};
ghost use Rattle.apl_workspace.specs.Meaning.{is_function_meaning};
ghost use Rattle.apl_workspace.specs.Workspace.{PlainWorkspace, global_in};
ghost use Rattle.apl_meaning.specs.Nodes.{found_in};
ghost use Rattle.apl_meaning.specs.Tasks.{line_numbered};
ghost use Rattle.apl_meaning.specs.Statements.{branch_to, next_of};
ghost use Rattle.apl_values.specs.Values.{IsStackValue, stack_value};
ghost use Rattle.apl_statements.specs.Evaluating.{evaluation_of, function_by, innermost_begun, line_shown_of, plain_next, plain_purpose, waiting_shown};
ghost use Rattle.apl_statements.specs.Interpreter.{here};
ghost use Rattle.apl_statements.specs.Moves.{Comes, value_put};
ghost use Rattle.apl_statements.specs.Sound.{IsEvaluation, IsFlow};
ghost use Rattle.apl_statements.specs.Stack.{branches, executes, prints};
ghost use Rattle.apl_statements.specs.Holding.{parts_of};
ghost use Rattle.apl_statements.specs.Wants.{NoReportIsDue};
ghost use Rattle.apl_statements.specs.Work.{Falls};
ghost use Rattle.apl_calls.specs.Ended.{ended_by, looked_at};

use crate::calling::begin_text;
use crate::waiting::{function_of, header_of, line_numbered};
use apl_arrays::{Array, Fail, ItemsRef, Line, Report, WantOfMemory};
use apl_display::lines_of;
use apl_execute::text_of;
use apl_meaning::{function_line_shown, input_shown, report_line};
use apl_statements::{Evaluation, Flow, Interpreter, Next, Purpose, Waiting};
use apl_values::{StackValue, array_of};
use apl_workspace::{Function, Workspace};
use std::alloc::Global;

/// A statement has its value, or has none: it leads to a line, it is printed, or it is executed. What cannot be executed, or
/// branched to, ends the line also where there is no memory. Its list of values goes to the next statement.
pub fn end_statement(interpreter: &mut Interpreter, e: Evaluation) -> Result<Flow, Fail>
    requires sound { IsEvaluation interpreter.old.workspace e }
    ensures comes { Comes interpreter.old (value_put interpreter.old e (plain_purpose e.purpose)) 0 interpreter.new result }
    ensures memory { OnWantOfMemory result (NoReportIsDue interpreter.old (looked_at (plain_purpose e.purpose) (found_in (evaluation_of interpreter.old.workspace e).values))) }
    ensures sound { IfOk result (IsFlow interpreter.new) }
    ensures falls { IfOk result (Falls interpreter.old interpreter.new) }
{
    let mut e = e;
    let ended = put_value(interpreter, &mut e);
    interpreter.give_room(e);
    ended
}

// What becomes of the value of a statement.
fn put_value(interpreter: &mut Interpreter, e: &mut Evaluation) -> Result<Flow, Fail>
    requires sound { IsEvaluation interpreter.old.workspace e.old }
    ensures comes { Comes interpreter.old (value_put interpreter.old e.old (plain_purpose e.old.purpose)) 0 interpreter.new result }
    ensures memory { OnWantOfMemory result (NoReportIsDue interpreter.old (looked_at (plain_purpose e.old.purpose) (found_in (evaluation_of interpreter.old.workspace e.old).values))) }
    ensures sound { IfOk result (IsFlow interpreter.new) }
    ensures falls { IfOk result (Falls interpreter.old interpreter.new) }
{
    match e.purpose {
        Purpose::Branches => branch(interpreter, e),
        Purpose::Prints(true) => Ok(Flow::Leads(Next::GoesOn)),
        Purpose::Prints(false) => show(interpreter, e),
        Purpose::Executes => execute(interpreter, e),
    }
}

// A branch to the value.
fn branch(interpreter: &Interpreter, e: &mut Evaluation) -> Result<Flow, Fail>
    requires sound { IsEvaluation interpreter.now.workspace e.old }
    ensures comes { Comes interpreter.now (value_put interpreter.now e.old branches) 0 interpreter.now result }
    ensures memory { OnWantOfMemory result ⊥ }
    ensures sound { IfOk result (IsFlow interpreter.now) }
    ensures falls { IfOk result (Falls interpreter.now interpreter.now) }
{
    let held = needed(e)?;
    Ok(Flow::Leads(branch_to(array_of(&held, e.parts(), &interpreter.workspace))?))
}

// The value is printed where there is one.
fn show(interpreter: &mut Interpreter, e: &mut Evaluation) -> Result<Flow, Fail>
    requires sound { IsEvaluation interpreter.old.workspace e.old }
    ensures comes { Comes interpreter.old (value_put interpreter.old e.old (prints false)) 0 interpreter.new result }
    ensures sound { IfOk result (IsFlow interpreter.new) }
    ensures falls { IfOk result (Falls interpreter.old interpreter.new) }
{
    if let Some(held) = found(e) {
        let lines = lines_of(
            interpreter.alloc,
            array_of(&held, e.parts(), &interpreter.workspace),
        )?;
        interpreter.print_lines(lines.into_vec())?;
    }
    Ok(Flow::Leads(Next::GoesOn))
}

// The value is executed as a text.
fn execute(interpreter: &mut Interpreter, e: &mut Evaluation) -> Result<Flow, Fail>
    requires sound { IsEvaluation interpreter.old.workspace e.old }
    ensures comes { Comes interpreter.old (value_put interpreter.old e.old executes) 0 interpreter.new result }
    ensures memory { OnWantOfMemory result (NoReportIsDue interpreter.old (looked_at executes (found_in (evaluation_of interpreter.old.workspace e.old).values))) }
    ensures sound { IfOk result (IsFlow interpreter.new) }
    ensures falls { IfOk result (Falls interpreter.old interpreter.new) }
{
    let held = needed(e)?;
    let text = text_of(
        interpreter.alloc,
        array_of(&held, e.parts(), &interpreter.workspace),
    )?;
    begin_text(interpreter, e.place.of_text(), &text)
}

/// Ends the line by a report: its two lines are printed, and all functions under way are left. It takes memory for the
/// lines.
pub fn end_by(interpreter: &mut Interpreter, report: Report) -> Result<(), WantOfMemory>
    ensures { OnOk result (interpreter.new ≡ ended_by report interpreter.old) }
{
    let first = report_line(interpreter.alloc, report)?;
    let second = here(interpreter)?;
    interpreter.output.push(first)?;
    interpreter.output.push(second)?;
    leave_all(interpreter);
    Ok(())
}

// Leaves all functions under way.
fn leave_all(interpreter: &mut Interpreter)
    ensures { interpreter.new ≡ record interpreter.old { workspace = record interpreter.old.workspace { frames = [] }; stack = [] } }
{
    'functions: while let Some(_waiting) = interpreter.callers.pop() {
        interpreter.workspace.pop_frame();
    }
}

// The second line of a report: the line of the function under way, or the line as read.
fn here(interpreter: &Interpreter) -> Result<Line, WantOfMemory>
    ensures { IfOk result (λ line. line.items ≡ here interpreter.now) }
{
    match innermost_begun(&interpreter.callers) {
        None => input_shown(interpreter.alloc, interpreter.input.as_slice()),
        Some(waiting) => line_shown(interpreter.alloc, &interpreter.workspace, waiting),
    }
}

// The innermost function of which a line was begun.
fn innermost_begun(callers: &[Waiting]) -> Option<&Waiting>
    ensures { option_copied result ≡ innermost_begun (reverse callers.now) }
{
    callers.iter().rev().find(|waiting| waiting.number > 0)
}

// The line of a function under way, as a report shows it.
fn line_shown(alloc: Global, workspace: &Workspace, waiting: &Waiting) -> Result<Line, WantOfMemory>
    requires function { is_function_meaning (global_in workspace.now waiting.now.name) ≡ true }
    requires begun { IsSome (line_numbered (function_by (global_in workspace.now waiting.now.name)).lines waiting.now.number) }
    ensures { IfOk result (λ line. line.items ≡ waiting_shown workspace.now waiting.now) }
{
    match function_of(workspace, &waiting.name) {
        None => unreachable!(),
        Some(function) => shown_of(alloc, function, waiting.number),
    }
}

// A line of a function, as a report shows it.
fn shown_of(alloc: Global, function: &Function, number: usize) -> Result<Line, WantOfMemory>
    requires { IsSome (line_numbered function.now.lines number) }
    ensures { IfOk result (λ line. line.items ≡ line_shown_of function.now number) }
{
    match line_numbered(function, number) {
        None => unreachable!(),
        Some(line) => {
            let name = &header_of(function).name;
            function_line_shown(alloc, name, number as u64, line.as_slice())
        }
    }
}

// The value of a statement, if it has one.
fn found(e: &mut Evaluation) -> Option<StackValue>
    ensures found { (w : PlainWorkspace) → option_map (stack_value w (parts_of e.old)) result ≡ found_in (evaluation_of w e.old).values }
    ensures held { (w : PlainWorkspace) → IsEvaluation w e.old → IfSome result (IsStackValue w (parts_of e.old)) }
    ensures same { e.new ≡ record e.old { values = e.new.values } }
{
    if e.is_wanting { None } else { e.values.pop() }
}

// The value of a statement; VALUE ERROR where it has none.
fn needed(e: &mut Evaluation) -> Result<StackValue, Report>
    ensures found { IfOk result (λ held. (w : PlainWorkspace) → found_in (evaluation_of w e.old).values ≡ Some (stack_value w (parts_of e.old) held)) }
    ensures held { (w : PlainWorkspace) → IsEvaluation w e.old → IfOk result (IsStackValue w (parts_of e.old)) }
    ensures none { IfErr result (λ why. (why ≡ reports.Value) × ((w : PlainWorkspace) → found_in (evaluation_of w e.old).values ≡ None)) }
    ensures same { e.new ≡ record e.old { values = e.new.values } }
{
    match found(e) {
        Some(held) => Ok(held),
        None => Err(Report::Value),
    }
}

/// Where a branch to a value leads: DOMAIN ERROR for characters, else RANK ERROR over one axis; on where it is empty, else to
/// the line of its first number.
pub fn branch_to(target: &Array) -> Result<Next, Report>
    ensures ok { IfOk result (λ next. branch_to target.now ≡ Ok (plain_next next)) }
    ensures refused { IfErr result (λ why. branch_to target.now ≡ Err why) }
{
    match target.items() {
        ItemsRef::Chars(_) => Err(Report::Domain),
        ItemsRef::Numbers(list) => {
            if target.shape().len() > 1 {
                Err(Report::Rank)
            } else {
                Ok(next_of(list))
            }
        }
    }
}

// Where numbers lead.
fn next_of(numbers: &[i64]) -> Next
    ensures { plain_next result ≡ next_of numbers.now }
{
    match numbers.first() {
        None => Next::GoesOn,
        Some(line) => Next::GoesTo(*line),
    }
}
