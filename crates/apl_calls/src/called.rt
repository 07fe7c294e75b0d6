ghost use Rattle.std.specs.Prelude.{◌≡◌, ◌+◌, ◌<◌, ◌≤◌, Ok, true, false, IfErr, IfSome, OnOk, length};
ghost use Rattle.apl_arrays.specs.declared.report.Fail.TheVariants as fail;
ghost use Rattle.apl_items.specs.Places.{OnWantOfMemory};
ghost use Rattle.apl_workspace.specs.Limits.{most_depth, most_weight};
ghost use Rattle.apl_workspace.specs.Workspace.{look, with_frame, workspace_weight};
ghost use Rattle.apl_meaning.specs.Calls.{call};
ghost use Rattle.apl_meaning.specs.Meaning.{ran};
ghost use Rattle.apl_values.specs.Values.{IsStackValue};
ghost use Rattle.apl_statements.specs.Evaluating.{takes_by};
ghost use Rattle.apl_statements.specs.Holding.{parts_of};
ghost use Rattle.apl_statements.specs.Moves.{Comes, Moves, part_gives};
ghost use Rattle.apl_statements.specs.Sound.{IsCaller, IsEvaluation};
ghost use Rattle.apl_statements.specs.Stack.{from_line};
ghost use Rattle.apl_statements.specs.Work.{machine_work, parts_left};
ghost use Rattle.apl_calls.specs.Callings.{MayBeCalled, arguments};
ghost use Rattle.apl_calls.specs.Waitings.{StandsOver};
ghost use Rattle.apl_calls.specs.WentOn.{gone_on};

use crate::calling::{has_line, twin};
use crate::entry::{args_of, enter, frame_fits_with, may_be_called};
use crate::straight::{begin_here, leave_here};
use apl_arrays::{Fail, Name, WantOfMemory};
use apl_statements::{Evaluation, Interpreter, Purpose};
use apl_values::{Place, StackValue};
use apl_workspace::Args;
use std::mem;

/// Enters a function, as `call_with` does: its first line takes the place of the statement that calls it, and waits for it. It
/// tells whether a line began; a function without lines is left at once, and then the statement goes on.
pub fn call_here(
    interpreter: &mut Interpreter,
    e: &mut Evaluation,
    name: Name,
    left: Option<StackValue>,
    right: StackValue,
) -> Result<bool, Fail>
    requires sound { IsCaller interpreter.old.workspace e.old }
    requires left { IfSome left (IsStackValue interpreter.old.workspace (parts_of e.old)) }
    requires right { IsStackValue interpreter.old.workspace (parts_of e.old) right }
    ensures comes { Comes interpreter.old (part_gives interpreter.old e.old (λ s. call ran name (arguments interpreter.old.workspace e.old left right) s)) 0 interpreter.new (gone_on e.new result) }
    ensures memory { OnWantOfMemory result (MayBeCalled interpreter.old.workspace name (arguments interpreter.old.workspace e.old left right)) }
    ensures sound { OnOk result (IsEvaluation interpreter.new.workspace e.new) }
    ensures falls { result ≡ Ok true → machine_work interpreter.new + 2 ≤ machine_work interpreter.old }
    ensures stays { result ≡ Ok false → (machine_work interpreter.new ≡ machine_work interpreter.old) × (parts_left e.new ≤ parts_left e.old) }
{
    let fits = frame_fits_with(interpreter, e, &name, left.as_ref(), &right);
    may_be_called(interpreter, &name, left.is_some(), true, fits)?;
    let args = args_of(interpreter, e, left, right)?;
    begin_call_here(interpreter, e, name, args)
}

// Begins a call of a function that may be entered with these arguments, and whose frame does not weigh too much, in the place of
// the statement that calls it.
fn begin_call_here(
    interpreter: &mut Interpreter,
    e: &mut Evaluation,
    name: Name,
    args: Args,
) -> Result<bool, Fail>
    requires sound { IsCaller interpreter.old.workspace e.old }
    requires takes { takes_by (look interpreter.old.workspace name) args ≡ true }
    requires shallow { length interpreter.old.workspace.frames < most_depth }
    requires fits { workspace_weight (with_frame interpreter.old.workspace name args) ≤ most_weight }
    ensures comes { Comes interpreter.old (part_gives interpreter.old e.old (λ s. call ran name args s)) 0 interpreter.new (gone_on e.new result) }
    ensures sound { OnOk result (IsEvaluation interpreter.new.workspace e.new) }
    ensures falls { result ≡ Ok true → machine_work interpreter.new + 2 ≤ machine_work interpreter.old }
    ensures stays { result ≡ Ok false → (machine_work interpreter.new ≡ machine_work interpreter.old) × (parts_left e.new ≤ parts_left e.old) }
{
    enter_here(interpreter, e, name, args)?;
    if has_line(interpreter, 1) {
        begin_here(interpreter, e, 1)?;
        Ok(true)
    } else {
        leave_here(interpreter, e)?;
        Ok(false)
    }
}

// A function is entered: the statement that calls it waits, and another one stands in its place.
fn enter_here(
    interpreter: &mut Interpreter,
    e: &mut Evaluation,
    name: Name,
    args: Args,
) -> Result<(), Fail>
    requires sound { IsCaller interpreter.old.workspace e.old }
    requires takes { takes_by (look interpreter.old.workspace name) args ≡ true }
    requires shallow { length interpreter.old.workspace.frames < most_depth }
    requires fits { workspace_weight (with_frame interpreter.old.workspace name args) ≤ most_weight }
    ensures moves { OnOk result (Moves interpreter.old (part_gives interpreter.old e.old (λ s. call ran name args s)) 0 interpreter.new (from_line interpreter.new.stack 1)) }
    ensures waits { OnOk result (StandsOver interpreter.old.stack (parts_left e.old) interpreter.new.stack) }
    ensures statements { OnOk result (interpreter.new.statements ≡ interpreter.old.statements) }
    ensures refused { IfErr result (λ why. why ≡ fail.WantOfMemory) }
{
    e.settle(interpreter.alloc, &interpreter.workspace)?;
    let inner = stand_in(interpreter, e)?;
    let caller = mem::replace(e, inner);
    enter(interpreter, caller, name, args)?;
    Ok(())
}

// A statement for the place of one that waits.
fn stand_in(interpreter: &mut Interpreter, e: &Evaluation) -> Result<Evaluation, WantOfMemory>
    ensures { interpreter.new ≡ interpreter.old }
{
    let room = interpreter.take_room();
    let reading = twin(&e.reading)?;
    Ok(Evaluation::new(room, Place::InFunction, Purpose::Prints(true), reading))
}
