ghost use Rattle.std.specs.Prelude.{◌≡◌, ◌≢◌, ◌+◌, ◌≤◌, ◌<◌, [], false, true, Ok, IfErr, IfOk, IfSome, IsSome, OnErr, OnOk, drop, length, unwrap_or};
ghost use Rattle.std.specs.Arc.{arc_value};
ghost use Rattle.line_trees.specs.Trees.{line_tree_of};
ghost use Rattle.apl_meaning.specs.Meaning.{ran};
ghost use Rattle.apl_meaning.specs.Statements.{line_outcome, text_outcome};
ghost use Rattle.apl_meaning.specs.Tasks.{begun, in_function};
ghost use Rattle.apl_values.specs.Parts.{IsLineReading, reading_tree};
ghost use Rattle.apl_statements.specs.Evaluating.{evaluation_of, line_of_innermost, plain_next, plain_purpose};
ghost use Rattle.apl_statements.specs.Holding.{parts_of};
ghost use Rattle.apl_statements.specs.Moves.{Comes, Moves, statement_leads, value_put};
ghost use Rattle.apl_statements.specs.Sound.{IsEvaluation};
ghost use Rattle.apl_statements.specs.Stack.{behind, branches, from_end, from_line, onward};
ghost use Rattle.apl_statements.specs.Work.{caller_parts, machine_work, parts_left};
ghost use Rattle.apl_calls.specs.WentOn.{gone_on};

use crate::calling::{
    count_one, has_line, keeps_from, leave, purpose_of, reading_of_line, stand_at_line,
};
use crate::ending::branch_to;
use crate::seen::following;
use apl_arrays::{Fail, WantOfMemory};
use apl_statements::{Evaluation, Interpreter, Next, Purpose};
use apl_values::{LineReading, Place, array_of};
use std::mem;
use std::sync::Arc;

/// A statement that is over is followed in its place, by a line of the function under way, or by the statement that called the
/// function where it has no such line. It tells whether it was; where it was not, nothing has changed. INTERRUPT where a line
/// follows and no statement may be begun.
pub fn follow_here(interpreter: &mut Interpreter, e: &mut Evaluation) -> Result<bool, Fail>
    requires sound { IsEvaluation interpreter.old.workspace e.old }
    requires over { length (parts_of e.old) ≤ e.old.at }
    ensures comes { Comes interpreter.old (λ s. onward (evaluation_of interpreter.old.workspace e.old) interpreter.old.stack s) 0 interpreter.new (gone_on e.new result) }
    ensures sound { OnOk result (IsEvaluation interpreter.new.workspace e.new) }
    ensures left { result ≡ Ok false → (interpreter.new ≡ interpreter.old) × (e.new ≡ e.old) }
    ensures falls { result ≡ Ok true → machine_work interpreter.new + 2 ≤ machine_work interpreter.old }
{
    match leads_to(interpreter, e) {
        None => Ok(false),
        Some(next) => lead(interpreter, e, next),
    }
}

// Where a statement that is over leads, if it prints nothing, executes nothing and ends no line.
fn leads_to(interpreter: &Interpreter, e: &Evaluation) -> Option<Next>
    requires sound { IsEvaluation interpreter.now.workspace e.now }
    ensures { IfSome result (λ next. Moves interpreter.now (value_put interpreter.now e.now (plain_purpose e.now.purpose)) 0 interpreter.now (λ s. behind interpreter.now.stack (plain_next next) s)) }
{
    match e.purpose {
        Purpose::Branches => target_of(interpreter, e),
        Purpose::Prints(true) => Some(Next::GoesOn),
        Purpose::Prints(false) => None,
        Purpose::Executes => None,
    }
}

// Where a branch leads, if it leads somewhere.
fn target_of(interpreter: &Interpreter, e: &Evaluation) -> Option<Next>
    requires sound { IsEvaluation interpreter.now.workspace e.now }
    ensures { IfSome result (λ next. Moves interpreter.now (value_put interpreter.now e.now branches) 0 interpreter.now (λ s. behind interpreter.now.stack (plain_next next) s)) }
{
    if e.is_wanting {
        return None;
    }
    match e.values.last() {
        None => None,
        Some(held) => match branch_to(array_of(held, e.parts(), &interpreter.workspace)) {
            Ok(next) => Some(next),
            Err(_) => None,
        },
    }
}

// A statement led somewhere: what follows takes its place, if a function is under way. It tells whether one is; where none is,
// nothing has changed.
fn lead(interpreter: &mut Interpreter, e: &mut Evaluation, next: Next) -> Result<bool, Fail>
    ensures comes { result ≢ Ok false → Comes interpreter.old (λ s. behind interpreter.old.stack (plain_next next) s) 0 interpreter.new (gone_on e.new result) }
    ensures sound { result ≢ Ok false → OnOk result (IsEvaluation interpreter.new.workspace e.new) }
    ensures left { result ≡ Ok false → (interpreter.new ≡ interpreter.old) × (e.new ≡ e.old) }
    ensures falls { result ≡ Ok true → machine_work interpreter.new + 2 ≤ machine_work interpreter.old }
{
    interpreter.rules();
    match interpreter.callers.last() {
        None => Ok(false),
        Some(waiting) => {
            let number = following(waiting.number, next);
            begin_or_leave(interpreter, e, number)?;
            Ok(true)
        }
    }
}

// A line of the function under way takes the place of a statement, or the statement that called the function where it has no
// line of this number.
fn begin_or_leave(
    interpreter: &mut Interpreter,
    e: &mut Evaluation,
    number: usize,
) -> Result<(), Fail>
    requires some { interpreter.old.stack ≢ [] }
    ensures comes { Comes interpreter.old (from_line interpreter.old.stack number) 0 interpreter.new (gone_on e.new result) }
    ensures sound { OnOk result (IsEvaluation interpreter.new.workspace e.new) }
    ensures falls { OnOk result (machine_work interpreter.new + 2 ≤ machine_work interpreter.old) }
{
    if has_line(interpreter, number) {
        begin_here(interpreter, e, number)
    } else {
        leave_here(interpreter, e)?;
        Ok(())
    }
}

/// The function under way is left, and the statement that called it goes on in the place of a statement, with its result.
pub fn leave_here(interpreter: &mut Interpreter, e: &mut Evaluation) -> Result<(), WantOfMemory>
    requires some { interpreter.old.stack ≢ [] }
    ensures comes { OnOk result (Moves interpreter.old (from_end interpreter.old.stack) 0 interpreter.new (λ s. onward (evaluation_of interpreter.new.workspace e.new) interpreter.new.stack s)) }
    ensures sound { OnOk result (IsEvaluation interpreter.new.workspace e.new) }
    ensures stack { OnOk result (interpreter.new.stack ≡ drop 1 interpreter.old.stack) }
    ensures statements { OnOk result (interpreter.new.statements ≡ interpreter.old.statements) }
    ensures parts { OnOk result (parts_left e.new ≡ caller_parts interpreter.old.stack) }
{
    let caller = leave(interpreter)?;
    let over = mem::replace(e, caller);
    interpreter.give_room(over);
    Ok(())
}

/// A line that the function under way has takes the place of a statement.
pub fn begin_here(
    interpreter: &mut Interpreter,
    e: &mut Evaluation,
    number: usize,
) -> Result<(), Fail>
    requires { IsSome (line_of_innermost interpreter.old.stack number) }
    ensures comes { Comes interpreter.old (from_line interpreter.old.stack number) 0 interpreter.new (gone_on e.new result) }
    ensures sound { OnOk result (IsEvaluation interpreter.new.workspace e.new) }
    ensures falls { OnOk result (machine_work interpreter.new + 4 ≤ machine_work interpreter.old) }
{
    let keeps = keeps_from(interpreter, number);
    stand_at_line(interpreter, number);
    begin_text_here(interpreter, e, number, keeps)
}

// The text of a line of the function under way takes the place of a statement, and its reading is kept where that is asked for.
fn begin_text_here(
    interpreter: &mut Interpreter,
    e: &mut Evaluation,
    number: usize,
    keeps: bool,
) -> Result<(), Fail>
    requires { IsSome (line_of_innermost interpreter.old.stack number) }
    ensures comes { Comes interpreter.old (statement_leads interpreter.old (λ s. begun (text_outcome ran in_function (unwrap_or (line_of_innermost interpreter.old.stack number) [])) s)) 0 interpreter.new (gone_on e.new result) }
    ensures sound { OnOk result (IsEvaluation interpreter.new.workspace e.new) }
    ensures falls { OnOk result (machine_work interpreter.new + 4 ≤ machine_work interpreter.old) }
{
    count_one(interpreter)?;
    let reading = reading_of_line(interpreter, number, keeps)?;
    begin_reading_here(interpreter, e, reading);
    Ok(())
}

// A line that was read takes the place of a statement. One that is empty stands behind its last part, and is silent.
fn begin_reading_here(interpreter: &Interpreter, e: &mut Evaluation, reading: Arc<LineReading>)
    requires sound { IsLineReading (arc_value reading) }
    ensures comes { Moves interpreter.now (statement_leads interpreter.now (λ s. line_outcome ran in_function (line_tree_of (reading_tree (arc_value reading))) s)) 0 interpreter.now (λ s. onward (evaluation_of interpreter.now.workspace e.new) interpreter.now.stack s) }
    ensures sound { IsEvaluation interpreter.now.workspace e.new }
{
    match purpose_of(&reading) {
        None => {
            let behind = reading.parts.len();
            stand(e, behind, Purpose::Prints(true), reading)
        }
        Some(purpose) => stand(e, 0, purpose, reading),
    }
}

// A statement is another one, of a function, at one of its parts, and without values.
fn stand(e: &mut Evaluation, at: usize, purpose: Purpose, reading: Arc<LineReading>)
    ensures place { e.new.place ≡ Place.InFunction }
    ensures purpose { e.new.purpose ≡ purpose }
    ensures reading { arc_value e.new.reading ≡ arc_value reading }
    ensures at { e.new.at ≡ at }
    ensures values { e.new.values.items ≡ [] }
    ensures there { e.new.is_wanting ≡ false }
{
    e.place = Place::InFunction;
    e.purpose = purpose;
    e.reading = reading;
    e.at = at;
    e.values.clear();
    e.is_wanting = false;
}
