ghost use Rattle.std.specs.Prelude.{◌≡◌, ◌<◌, ◌≤◌, ◌∷◌, true, IfErr, IfOk, IfSome, OnOk, length, nat_le};
ghost use Rattle.std.specs.Option.{option_copied};
ghost use Rattle.apl_arrays.specs.declared.report.Fail.TheVariants as fail;
ghost use Rattle.apl_items.specs.Places.{OnWantOfMemory};
ghost use Rattle.apl_workspace.specs.Limits.{most_depth, most_weight};
ghost use Rattle.apl_workspace.specs.Workspace.{empty_workspace, look, with_frame, workspace_weight};
ghost use Rattle.apl_meaning.specs.Calls.{call, entering};
ghost use Rattle.apl_meaning.specs.Meaning.{ran};
ghost use Rattle.apl_values.specs.Values.{IsStackValue};
ghost use Rattle.apl_statements.specs.Evaluating.{caller_of, function_by, takes_by};
ghost use Rattle.apl_statements.specs.Interpreter.{here};
ghost use Rattle.apl_statements.specs.Moves.{Comes, HasDone, part_gives};
ghost use Rattle.apl_statements.specs.Sound.{IsCaller, IsFlow};
ghost use Rattle.apl_statements.specs.Stack.{at_line};
ghost use Rattle.apl_statements.specs.Holding.{parts_of};
ghost use Rattle.apl_statements.specs.Work.{StaysWithin};
ghost use Rattle.apl_calls.specs.Callings.{IsNotCalled, MayBeCalled, arguments, takes_so};

use crate::calling::{begin_line_there, has_line, leave};
use crate::seen::takes_so;
use crate::waiting::make_room;
use apl_arrays::{Fail, Name, Report};
use apl_statements::{Evaluation, Flow, Interpreter, Waiting};
use apl_values::{StackValue, array_of};
use apl_workspace::{Args, DEPTH_LIMIT};

/// Enters a function, and begins its first line; where it has none it is left at once. SYNTAX ERROR where the name is no
/// function of these arguments, else WS FULL where 100 functions are under way, or its frame would weigh too much, each also
/// where there is no memory.
pub fn call(
    interpreter: &mut Interpreter,
    caller: Evaluation,
    name: Name,
    args: Args,
) -> Result<Flow, Fail>
    requires sound { IsCaller interpreter.old.workspace caller }
    ensures comes { Comes interpreter.old (part_gives interpreter.old caller (λ s. call ran name args s)) 0 interpreter.new result }
    ensures memory { OnWantOfMemory result (MayBeCalled interpreter.old.workspace name args) }
    ensures sound { IfOk result (IsFlow interpreter.new) }
    ensures within { IfOk result (StaysWithin interpreter.old caller interpreter.new) }
{
    let fits = frame_fits(interpreter, &name, &args);
    may_be_called(
        interpreter,
        &name,
        args.left.is_some(),
        args.right.is_some(),
        fits,
    )?;
    begin_call(interpreter, caller, name, args)
}

/// The same with a right argument, and a left one where it is there, which are copied where they have not been made: what a call
/// tells comes also where there is no memory for copies.
pub fn call_with(
    interpreter: &mut Interpreter,
    caller: Evaluation,
    name: Name,
    left: Option<StackValue>,
    right: StackValue,
) -> Result<Flow, Fail>
    requires sound { IsCaller interpreter.old.workspace caller }
    requires left { IfSome left (IsStackValue interpreter.old.workspace (parts_of caller)) }
    requires right { IsStackValue interpreter.old.workspace (parts_of caller) right }
    ensures comes { Comes interpreter.old (part_gives interpreter.old caller (λ s. call ran name (arguments interpreter.old.workspace caller left right) s)) 0 interpreter.new result }
    ensures memory { OnWantOfMemory result (MayBeCalled interpreter.old.workspace name (arguments interpreter.old.workspace caller left right)) }
    ensures sound { IfOk result (IsFlow interpreter.new) }
    ensures within { IfOk result (StaysWithin interpreter.old caller interpreter.new) }
{
    let fits = frame_fits_with(interpreter, &caller, &name, left.as_ref(), &right);
    may_be_called(interpreter, &name, left.is_some(), true, fits)?;
    let args = args_of(interpreter, &caller, left, right)?;
    begin_call(interpreter, caller, name, args)
}

/// Whether a name is a function of such arguments that may be entered: SYNTAX ERROR where it is none, else WS FULL where 100
/// functions are under way, or its frame does not fit.
pub fn may_be_called(
    interpreter: &Interpreter,
    name: &Name,
    has_left: bool,
    has_right: bool,
    fits: bool,
) -> Result<(), Report>
    ensures ok { OnOk result ((takes_so (look interpreter.now.workspace name.now) has_left has_right ≡ true) × (length interpreter.now.workspace.frames < most_depth)) }
    ensures fits { OnOk result (fits ≡ true) }
    ensures err { IfErr result (IsNotCalled (takes_so (look interpreter.now.workspace name.now) has_left has_right) fits (length interpreter.now.workspace.frames)) }
{
    if !takes_so(interpreter.workspace.look(name), has_left, has_right) {
        Err(Report::Syntax)
    } else if !fits {
        Err(Report::WsFull)
    } else if is_too_deep(interpreter) {
        Err(Report::WsFull)
    } else {
        Ok(())
    }
}

// Whether the workspace weighs no more than it may with the frame of a function of these arguments.
fn frame_fits(interpreter: &Interpreter, name: &Name, args: &Args) -> bool
    ensures { result ≡ nat_le (workspace_weight (with_frame interpreter.now.workspace name.now args.now)) most_weight }
{
    interpreter
        .workspace
        .frame_fits(name, args.left.as_ref(), args.right.as_ref())
}

/// The same with arguments that a statement holds.
pub fn frame_fits_with(
    interpreter: &Interpreter,
    caller: &Evaluation,
    name: &Name,
    left: Option<&StackValue>,
    right: &StackValue,
) -> bool
    requires left { IfSome (option_copied left) (IsStackValue interpreter.now.workspace (parts_of caller.now)) }
    requires right { IsStackValue interpreter.now.workspace (parts_of caller.now) right.now }
    ensures { result ≡ nat_le (workspace_weight (with_frame interpreter.now.workspace name.now (arguments interpreter.now.workspace caller.now (option_copied left.entry) right.now))) most_weight }
{
    let workspace = &interpreter.workspace;
    let right = array_of(right, caller.parts(), workspace);
    match left {
        None => workspace.frame_fits(name, None, Some(right)),
        Some(held) => {
            let left = array_of(held, caller.parts(), workspace);
            workspace.frame_fits(name, Some(left), Some(right))
        }
    }
}

/// The arguments of a call as arrays of their own.
pub fn args_of(
    interpreter: &Interpreter,
    caller: &Evaluation,
    left: Option<StackValue>,
    right: StackValue,
) -> Result<Args, Fail>
    requires left { IfSome left (IsStackValue interpreter.now.workspace (parts_of caller.now)) }
    requires right { IsStackValue interpreter.now.workspace (parts_of caller.now) right }
    ensures ok { IfOk result (λ args. args ≡ arguments interpreter.now.workspace caller.now left right) }
    ensures refused { IfErr result (λ why. why ≡ fail.WantOfMemory) }
{
    let right = interpreter.owned(caller, right)?;
    let left = match left {
        None => None,
        Some(held) => Some(interpreter.owned(caller, held)?),
    };
    Ok(Args {
        left,
        right: Some(right),
    })
}

// Begins a call of a function that may be entered with these arguments, and whose frame does not weigh too much.
fn begin_call(
    interpreter: &mut Interpreter,
    caller: Evaluation,
    name: Name,
    args: Args,
) -> Result<Flow, Fail>
    requires sound { IsCaller interpreter.old.workspace caller }
    requires takes { takes_by (look interpreter.old.workspace name) args ≡ true }
    requires shallow { length interpreter.old.workspace.frames < most_depth }
    requires fits { workspace_weight (with_frame interpreter.old.workspace name args) ≤ most_weight }
    ensures comes { Comes interpreter.old (part_gives interpreter.old caller (λ s. call ran name args s)) 0 interpreter.new result }
    ensures sound { IfOk result (IsFlow interpreter.new) }
    ensures within { IfOk result (StaysWithin interpreter.old caller interpreter.new) }
{
    let mut caller = caller;
    caller.settle(interpreter.alloc, &interpreter.workspace)?;
    enter(interpreter, caller, name, args)?;
    if has_line(interpreter, 1) {
        begin_line_there(interpreter, 1)
    } else {
        Ok(Flow::Evaluates(leave(interpreter)?))
    }
}

// Whether as many functions are under way as may be.
fn is_too_deep(interpreter: &Interpreter) -> bool
    ensures { result ≡ nat_le most_depth (length interpreter.now.workspace.frames) }
{
    interpreter.workspace.depth() >= DEPTH_LIMIT
}

/// A function has its frame, which does not weigh too much, and its caller waits under it. There is room for the caller before
/// there is a frame.
pub fn enter(
    interpreter: &mut Interpreter,
    caller: Evaluation,
    name: Name,
    args: Args,
) -> Result<(), Fail>
    requires settled { IsCaller empty_workspace caller }
    requires takes { takes_by (look interpreter.old.workspace name) args ≡ true }
    requires shallow { length interpreter.old.workspace.frames < most_depth }
    requires fits { workspace_weight (with_frame interpreter.old.workspace name args) ≤ most_weight }
    ensures done { HasDone interpreter.old (λ s. entering name args s) interpreter.new result }
    ensures refused { IfErr result (λ why. why ≡ fail.WantOfMemory) }
    ensures stack { OnOk result (interpreter.new.stack ≡ at_line (function_by (look interpreter.old.workspace name)) 0 (caller_of empty_workspace (here interpreter.old) caller) ∷ interpreter.old.stack) }
    ensures beside { OnOk result (interpreter.new ≡ record interpreter.old { workspace = interpreter.new.workspace; stack = interpreter.new.stack }) }
{
    interpreter.rules();
    make_room(&mut interpreter.callers)?;
    interpreter.workspace.push_frame(&name, args)?;
    interpreter.callers.push_reserved(Waiting {
        name,
        number: 0,
        readings: Vec::new(interpreter.alloc),
        caller,
    });
    Ok(())
}
