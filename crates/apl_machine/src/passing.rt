ghost use Rattle.std.specs.Prelude.{◌≡◌, ◌-◌, ◌<◌, ◌≤◌, IfOk, OnOk, length};
ghost use Rattle.apl_items.specs.Places.{OnWantOfMemory};
ghost use Rattle.line_trees.specs.Nodes.{PlainNode, plain_node};
ghost use Rattle.apl_meaning.specs.Nodes.{node_step};
ghost use Rattle.apl_statements.specs.Evaluating.{evaluation_of};
ghost use Rattle.apl_statements.specs.Holding.{parts_of, stack_values};
ghost use Rattle.apl_statements.specs.Moves.{Comes};
ghost use Rattle.apl_statements.specs.Sound.{IsEvaluation};
ghost use Rattle.apl_statements.specs.Stack.{onward};
ghost use Rattle.apl_statements.specs.Wants.{NoReportIsDue};
ghost use Rattle.apl_statements.specs.Work.{machine_work};
ghost use Rattle.apl_answers.specs.WentOn.{went_on};
ghost use Rattle.apl_machine.specs.Nexts.{HasPassed, IsNext, IsNextStep, IsStepOf};
ghost use Rattle.apl_machine.specs.Wants.{no_lines};

use crate::verbs::perform_verb;
use apl_answers::{assign_unshared, is_seen_shared};
use apl_arrays::{Fail, Name};
use apl_operators::Steps;
use apl_statements::{Evaluation, Interpreter};
use apl_values::Part;
use apl_verbs::Verb;
use line_trees::{Fun, Node};
use std::sync::ledger::Ledger;

/// What a part does behind which its statement goes on in any case: a pair of parentheses; a primitive function, with a left
/// argument and an axis or without; an assignment to a name. Any other part does something else.
#[derive(Clone, Copy, Debug)]
pub enum PlainStep {
    Parentheses,
    Applies(Verb, bool, bool),
    Assigns(Name),
    Other,
}

/// The next part is done where the statement stands, if it is a pair of parentheses, a primitive function, or an assignment to a
/// name that is not shared. It tells whether it was done; where it was not, nothing has changed. A report comes also where there
/// is no memory.
pub fn pass_step<L: Ledger>(
    interpreter: &mut Interpreter,
    e: &mut Evaluation,
    steps: &mut Steps<L>,
) -> Result<bool, Fail>
    requires sound { IsEvaluation interpreter.old.workspace e.old }
    requires next { e.old.at < length (parts_of e.old) }
    ensures rises { steps.old ≤ steps.new }
    ensures comes { Comes interpreter.old (λ s. onward (evaluation_of interpreter.old.workspace e.old) interpreter.old.stack s) (steps.new - steps.old) interpreter.new (went_on e.new result) }
    ensures memory { (n : PlainNode) → IsNext e.old n → OnWantOfMemory result (NoReportIsDue interpreter.old (node_step no_lines n (stack_values interpreter.old.workspace e.old))) }
    ensures sound { OnOk result (IsEvaluation interpreter.new.workspace e.new) }
    ensures work { OnOk result (machine_work interpreter.new ≡ machine_work interpreter.old) }
    ensures passed { IfOk result (HasPassed e.old e.new) }
{
    match plain_step(e) {
        PlainStep::Parentheses => {
            e.at += 1;
            Ok(true)
        }
        PlainStep::Applies(verb, has_left, has_axis) => {
            e.at += 1;
            perform_verb(interpreter, e, verb, has_left, has_axis, steps)?;
            Ok(true)
        }
        PlainStep::Assigns(name) => {
            if is_seen_shared(interpreter, &name) {
                return Ok(false);
            }
            e.at += 1;
            assign_unshared(interpreter, e, name)?;
            Ok(true)
        }
        PlainStep::Other => Ok(false),
    }
}

// What the next part does; something else where a value is wanting.
fn plain_step(e: &Evaluation) -> PlainStep
    requires { e.now.at < length (parts_of e.now) }
    ensures { IsNextStep e.now result }
{
    if e.is_wanting {
        return PlainStep::Other;
    }
    match &e.reading.parts[e.at] {
        Part::Constant(_) => PlainStep::Other,
        Part::Other(node) => step_of(node),
    }
}

// What a node does.
fn step_of(node: &Node) -> PlainStep
    ensures { IsStepOf (plain_node node.now) result }
{
    match node {
        Node::Paren(_) => PlainStep::Parentheses,
        Node::Apply {
            function,
            left,
            axis,
            ..
        } => match function {
            Fun::Verb(verb) => PlainStep::Applies(*verb, left.is_some(), axis.is_some()),
            _ => PlainStep::Other,
        },
        Node::Assign { target, subs, .. } => match subs {
            None => PlainStep::Assigns(*target),
            Some(_) => PlainStep::Other,
        },
        _ => PlainStep::Other,
    }
}
