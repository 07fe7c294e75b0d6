ghost use Rattle.std.specs.Prelude.{◌≡◌, ◌-◌, ◌≤◌, false, IfErr, IfOk, IfSome, option_map};
ghost use Rattle.apl_items.specs.Places.{OnWantOfMemory};
ghost use Rattle.apl_meaning.specs.Meaning.{ran};
ghost use Rattle.apl_meaning.specs.Nodes.{apply_step};
ghost use Rattle.line_trees.specs.declared.tree.Fun.TheVariants as fun;
ghost use Rattle.apl_values.specs.Values.{IsStackValue, stack_value};
ghost use Rattle.apl_statements.specs.Moves.{Comes, if_there, part_takes};
ghost use Rattle.apl_statements.specs.Sound.{IsCaller, IsFlow};
ghost use Rattle.apl_statements.specs.Holding.{parts_of, stack_values};
ghost use Rattle.apl_statements.specs.Wants.{NoReportIsDue};
ghost use Rattle.apl_statements.specs.Work.{StaysWithin};
ghost use Rattle.apl_machine.specs.Axes.{IsAxis, IsNoAxis};
ghost use Rattle.apl_machine.specs.Wants.{no_lines};

use crate::verbs::{number_of_axis, perform_verb};
use apl_acts::system;
use apl_arrays::Fail;
use apl_calls::call_with;
use apl_operators::Steps;
use apl_statements::{Evaluation, Flow, Interpreter, Operands};
use apl_values::StackValue;
use apl_verbs::Verb;
use line_trees::Fun;
use std::sync::ledger::Ledger;

/// A function of its arguments, all of which are evaluated: a primitive one, a defined one, or a system function. A report comes
/// also where there is no memory, but for what the lines of a function tell.
pub fn perform<L: Ledger>(
    interpreter: &mut Interpreter,
    e: Evaluation,
    function: Fun,
    has_left: bool,
    has_axis: bool,
    steps: &mut Steps<L>,
) -> Result<Flow, Fail>
    requires sound { IsCaller interpreter.old.workspace e }
    ensures rises { steps.old ≤ steps.new }
    ensures comes { Comes interpreter.old (part_takes interpreter.old e (apply_step ran function (if_there has_left) (if_there has_axis))) (steps.new - steps.old) interpreter.new result }
    ensures memory { OnWantOfMemory result (NoReportIsDue interpreter.old (apply_step no_lines function (if_there has_left) (if_there has_axis) (stack_values interpreter.old.workspace e))) }
    ensures sound { IfOk result (IsFlow interpreter.new) }
    ensures within { IfOk result (StaysWithin interpreter.old e interpreter.new) }
{
    if let Fun::Verb(verb) = function {
        return verb_flow(interpreter, e, verb, has_left, has_axis, steps);
    }
    let mut e = e;
    let Operands { left, axis, right } = e.take_operands(has_left, has_axis)?;
    let number = axis_of(interpreter, &e, axis)?;
    match function {
        Fun::Verb(_) => unreachable!(),
        Fun::Defined(name) => call_with(interpreter, e, name, left, right),
        Fun::System(name) => system(interpreter, e, name, left, right),
    }
}

// A primitive function, as a flow.
fn verb_flow<L: Ledger>(
    interpreter: &Interpreter,
    e: Evaluation,
    verb: Verb,
    has_left: bool,
    has_axis: bool,
    steps: &mut Steps<L>,
) -> Result<Flow, Fail>
    requires sound { IsCaller interpreter.now.workspace e }
    ensures rises { steps.old ≤ steps.new }
    ensures comes { Comes interpreter.now (part_takes interpreter.now e (apply_step ran (fun.Verb verb) (if_there has_left) (if_there has_axis))) (steps.new - steps.old) interpreter.now result }
    ensures memory { OnWantOfMemory result (NoReportIsDue interpreter.now (apply_step no_lines (fun.Verb verb) (if_there has_left) (if_there has_axis) (stack_values interpreter.now.workspace e))) }
    ensures sound { IfOk result (IsFlow interpreter.now) }
    ensures within { IfOk result (StaysWithin interpreter.now e interpreter.now) }
{
    let mut e = e;
    match perform_verb(interpreter, &mut e, verb, has_left, has_axis, steps) {
        Ok(()) => Ok(Flow::Evaluates(e)),
        Err(fail) => Err(fail),
    }
}

// The axis that a value names, which is let go: LENGTH ERROR where it has not one element, else DOMAIN ERROR for a character.
fn axis_of(
    interpreter: &Interpreter,
    e: &Evaluation,
    axis: Option<StackValue>,
) -> Result<Option<i64>, Fail>
    requires { IfSome axis (IsStackValue interpreter.now.workspace (parts_of e.now)) }
    ensures ok { IfOk result (IsAxis (option_map (stack_value interpreter.now.workspace (parts_of e.now)) axis)) }
    ensures refused { IfErr result (IsNoAxis (option_map (stack_value interpreter.now.workspace (parts_of e.now)) axis)) }
{
    let number = number_of_axis(interpreter, e, axis.as_ref());
    drop(axis);
    number
}
