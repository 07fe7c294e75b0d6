ghost use Rattle.std.specs.Prelude.{◌≡◌, ◌≢◌, ◌+◌, ◌<◌, ◌≤◌, None, Some, Ok, false, true, IfSome, OnOk, length};
ghost use Rattle.apl_items.specs.Places.{OnWantOfMemory};
ghost use Rattle.line_trees.specs.Nodes.{plain_node};
ghost use Rattle.line_trees.specs.declared.tree.Fun.TheVariants as fun;
ghost use Rattle.apl_meaning.specs.Meaning.{ran};
ghost use Rattle.apl_meaning.specs.Nodes.{apply_step};
ghost use Rattle.apl_statements.specs.Evaluating.{evaluation_of};
ghost use Rattle.apl_statements.specs.Holding.{parts_of, stack_values};
ghost use Rattle.apl_statements.specs.Moves.{Comes, if_there, part_takes};
ghost use Rattle.apl_statements.specs.Sound.{IsCaller, IsEvaluation};
ghost use Rattle.apl_statements.specs.Stack.{onward};
ghost use Rattle.apl_statements.specs.Wants.{NoReportIsDue};
ghost use Rattle.apl_statements.specs.Work.{machine_work, parts_left};
ghost use Rattle.apl_calls.specs.WentOn.{gone_on};
ghost use Rattle.apl_machine.specs.Calls.{CallsNext, IsCallOf};
ghost use Rattle.apl_machine.specs.Wants.{no_lines};

use apl_arrays::{Fail, Name};
use apl_calls::call_here;
use apl_statements::{Evaluation, Interpreter, Operands};
use apl_values::Part;
use line_trees::{Fun, Node};

/// The function that the next part calls is called: its first line takes the place of the statement. It tells whether a line began;
/// a function without lines gives nothing, and the statement goes on.
pub fn call_next(
    interpreter: &mut Interpreter,
    e: &mut Evaluation,
    name: Name,
    has_left: bool,
) -> Result<bool, Fail>
    requires sound { IsEvaluation interpreter.old.workspace e.old }
    requires next { e.old.at < length (parts_of e.old) }
    requires calls { CallsNext e.old name has_left }
    ensures comes { Comes interpreter.old (λ s. onward (evaluation_of interpreter.old.workspace e.old) interpreter.old.stack s) 0 interpreter.new (gone_on e.new result) }
    ensures sound { OnOk result (IsEvaluation interpreter.new.workspace e.new) }
    ensures falls { result ≡ Ok true → machine_work interpreter.new + 2 ≤ machine_work interpreter.old }
    ensures stays { result ≡ Ok false → (machine_work interpreter.new ≡ machine_work interpreter.old) × (parts_left e.new < parts_left e.old) }
{
    e.at += 1;
    perform_call(interpreter, e, name, has_left)
}

// The function of its newest values that a statement calls takes its place. A report comes also where there is no memory, but for
// what the lines of the function tell.
fn perform_call(
    interpreter: &mut Interpreter,
    e: &mut Evaluation,
    name: Name,
    has_left: bool,
) -> Result<bool, Fail>
    requires sound { IsCaller interpreter.old.workspace e.old }
    ensures comes { Comes interpreter.old (part_takes interpreter.old e.old (apply_step ran (fun.Defined name) (if_there has_left) (if_there false))) 0 interpreter.new (gone_on e.new result) }
    ensures memory { OnWantOfMemory result (NoReportIsDue interpreter.old (apply_step no_lines (fun.Defined name) (if_there has_left) (if_there false) (stack_values interpreter.old.workspace e.old))) }
    ensures sound { OnOk result (IsEvaluation interpreter.new.workspace e.new) }
    ensures falls { result ≡ Ok true → machine_work interpreter.new + 2 ≤ machine_work interpreter.old }
    ensures stays { result ≡ Ok false → (machine_work interpreter.new ≡ machine_work interpreter.old) × (parts_left e.new ≤ parts_left e.old) }
{
    let Operands { left, axis, right } = e.take_operands(has_left, false)?;
    drop(axis);
    call_here(interpreter, e, name, left, right)
}

/// The function of a name that the next part calls, with a left argument or without; none where it does something else, or a value is
/// wanting.
pub fn call_of(e: &Evaluation) -> Option<(Name, bool)>
    requires { e.now.at < length (parts_of e.now) }
    ensures { IfSome result (λ call. CallsNext e.now call.0 call.1) }
{
    if e.is_wanting {
        return None;
    }
    match &e.reading.parts[e.at] {
        Part::Constant(_) => None,
        Part::Other(node) => call_in(node),
    }
}

// What a node calls.
fn call_in(node: &Node) -> Option<(Name, bool)>
    ensures { IfSome result (λ call. IsCallOf (plain_node node.now) call.0 call.1) }
{
    match node {
        Node::Apply {
            function,
            left,
            axis,
            ..
        } => match axis {
            None => defined(function, left.is_some()),
            Some(_) => None,
        },
        _ => None,
    }
}

// The name of a function that a name stands for.
fn defined(function: &Fun, has_left: bool) -> Option<(Name, bool)>
    ensures { IfSome result (λ call. (function.now ≡ fun.Defined call.0) × (call.1 ≡ has_left)) }
{
    match function {
        Fun::Defined(name) => Some((*name, has_left)),
        _ => None,
    }
}
