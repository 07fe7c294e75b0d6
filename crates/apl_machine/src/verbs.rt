ghost use Rattle.std.specs.Prelude.{◌≡◌, ◌+◌, ◌-◌, ◌<◌, ◌≤◌, ◌&&◌, ◌||◌, ◌++◌, [], ◌∷◌, None, false, IfErr, IfOk, IfSome, OnOk, if◌then◌else◌, length, not, option_map, take};
ghost use Rattle.std.specs.Option.{option_copied};
ghost use Rattle.apl_items.specs.Places.{OnWantOfMemory};
ghost use Rattle.apl_meaning.specs.Expressions.{valued};
ghost use Rattle.apl_meaning.specs.Meaning.{ran};
ghost use Rattle.apl_meaning.specs.Nodes.{apply_step};
ghost use Rattle.apl_meaning.specs.Verbs.{application, both_or_neither, named_axis};
ghost use Rattle.apl_verbs.specs.Arguments.{is_dyadic, verb_takes_axis};
ghost use Rattle.line_trees.specs.declared.tree.Fun.TheVariants as fun;
ghost use Rattle.apl_values.specs.Values.{IsStackValue, stack_value};
ghost use Rattle.apl_values.specs.declared.values.StackValue.TheVariants as held;
ghost use Rattle.apl_statements.specs.Holding.{IsWithValues, parts_of, stack_values};
ghost use Rattle.apl_statements.specs.Moves.{Comes, if_there, part_gives, part_takes};
ghost use Rattle.apl_statements.specs.Operands.{operand_count};
ghost use Rattle.apl_statements.specs.Sound.{IsCaller, IsEvaluation};
ghost use Rattle.apl_statements.specs.Wants.{NoReportIsDue};
ghost use Rattle.apl_statements.specs.Work.{parts_left};
ghost use Rattle.apl_statements.specs.declared.evaluation.Evaluation.{Evaluation as EvaluationOf};
ghost use Rattle.apl_answers.specs.WentOn.{went_on};
ghost use Rattle.apl_machine.specs.Axes.{IsAxis, IsNoAxis};
ghost use Rattle.apl_machine.specs.Given.{ComesToGive};
ghost use Rattle.apl_machine.specs.Wants.{UnlessReport, no_lines};

use apl_acts::lent;
use apl_arrays::{Array, Fail, ItemsRef, Report};
use apl_operators::{Steps, apply};
use apl_statements::{Evaluation, Interpreter};
use apl_values::{StackValue, array_of};
use apl_verbs::{Verb, is_dyadic, verb_takes_axis};
use std::sync::ledger::Ledger;

/// A primitive function, or an operator with its operands, of the newest values of a statement: the right argument, and above it
/// the axis and the left one where they are asked for. The statement goes on with what the function gives, in their place. A
/// report comes also where there is no memory.
pub fn perform_verb<L: Ledger>(
    interpreter: &Interpreter,
    e: &mut Evaluation,
    verb: Verb,
    has_left: bool,
    has_axis: bool,
    steps: &mut Steps<L>,
) -> Result<(), Fail>
    requires sound { IsCaller interpreter.now.workspace e.old }
    ensures rises { steps.old ≤ steps.new }
    ensures comes { Comes interpreter.now (part_takes interpreter.now e.old (apply_step ran (fun.Verb verb) (if_there has_left) (if_there has_axis))) (steps.new - steps.old) interpreter.now (went_on e.new result) }
    ensures memory { OnWantOfMemory result (NoReportIsDue interpreter.now (apply_step no_lines (fun.Verb verb) (if_there has_left) (if_there has_axis) (stack_values interpreter.now.workspace e.old))) }
    ensures sound { OnOk result (IsEvaluation interpreter.now.workspace e.new) }
    ensures left { OnOk result (parts_left e.new ≡ parts_left e.old) }
{
    match first_operand(e, has_left, has_axis) {
        None => Err(Fail::Report(Report::Value)),
        Some(first) => {
            let array = verb_of(interpreter, e, verb, first, has_left, has_axis, steps)?;
            put_at(e, first, array);
            Ok(())
        }
    }
}

// An array takes the place of the values of a statement from a place on.
fn put_at(e: &mut Evaluation, place: usize, array: Array)
    requires { place < length e.old.values.items }
    ensures { IsWithValues e.old (take place e.old.values.items ++ held.Made array ∷ []) e.new }
{
    e.values[place] = StackValue::Made(array);
    e.values.truncate(place + 1);
}

// The place of the right argument among the values of a statement, where all arguments are there.
fn first_operand(e: &Evaluation, has_left: bool, has_axis: bool) -> Option<usize>
    ensures some { IfSome result (λ first. first + operand_count has_left has_axis ≡ length e.now.values.items) }
    ensures none { result ≡ None → length e.now.values.items < operand_count has_left has_axis }
{
    e.values
        .len()
        .checked_sub(operand_count(has_left, has_axis))
}

// How many arguments a function takes.
fn operand_count(has_left: bool, has_axis: bool) -> usize
    ensures { result ≡ operand_count has_left has_axis }
{
    match (has_left, has_axis) {
        (false, false) => 1,
        (false, true) => 2,
        (true, false) => 2,
        (true, true) => 3,
    }
}

// What a primitive function gives of the values of a statement from a place on. It counts one application.
fn verb_of<L: Ledger>(
    interpreter: &Interpreter,
    e: &Evaluation,
    verb: Verb,
    first: usize,
    has_left: bool,
    has_axis: bool,
    steps: &mut Steps<L>,
) -> Result<Array, Fail>
    requires sound { IsCaller interpreter.now.workspace e.now }
    requires first { first + operand_count has_left has_axis ≡ length e.now.values.items }
    ensures rises { steps.old ≤ steps.new }
    ensures gives { (under : EvaluationOf) → IsWithValues e.now (take first e.now.values.items) under → ComesToGive interpreter.now (part_takes interpreter.now e.now (apply_step ran (fun.Verb verb) (if_there has_left) (if_there has_axis))) (steps.new - steps.old) under result }
    ensures memory { UnlessReport result (NoReportIsDue interpreter.now (apply_step no_lines (fun.Verb verb) (if_there has_left) (if_there has_axis) (stack_values interpreter.now.workspace e.now))) }
{
    let right = &e.values[first];
    let left = if_asked(has_left, e.values.last());
    let axis = if_asked(has_axis, e.values.get(first + 1));
    let number = number_of_axis(interpreter, e, axis)?;
    apply_verb(interpreter, e, verb, left, right, number, steps)
}

// A value where it is asked for.
fn if_asked(is_asked: bool, value: Option<&StackValue>) -> Option<&StackValue>
    ensures { option_copied result ≡ (if is_asked then option_copied value.entry else None) }
{
    if is_asked { value } else { None }
}

/// The axis that a value names: LENGTH ERROR where it has not one element, else DOMAIN ERROR for a character.
pub fn number_of_axis(
    interpreter: &Interpreter,
    e: &Evaluation,
    axis: Option<&StackValue>,
) -> Result<Option<i64>, Fail>
    requires { IfSome (option_copied axis) (IsStackValue interpreter.now.workspace (parts_of e.now)) }
    ensures ok { IfOk result (IsAxis (option_map (stack_value interpreter.now.workspace (parts_of e.now)) (option_copied axis.entry))) }
    ensures refused { IfErr result (IsNoAxis (option_map (stack_value interpreter.now.workspace (parts_of e.now)) (option_copied axis.entry))) }
{
    match axis {
        None => Ok(None),
        Some(held) => Ok(Some(named_axis(array_of(held, e.parts(), &interpreter.workspace))?)),
    }
}

// A primitive function, or an operator with its operands, through the one door. It counts one application. A report comes
// also where there is no memory.
fn apply_verb<L: Ledger>(
    interpreter: &Interpreter,
    e: &Evaluation,
    verb: Verb,
    left: Option<&StackValue>,
    right: &StackValue,
    axis: Option<i64>,
    steps: &mut Steps<L>,
) -> Result<Array, Fail>
    requires left { IfSome (option_copied left) (IsStackValue interpreter.now.workspace (parts_of e.now)) }
    requires right { IsStackValue interpreter.now.workspace (parts_of e.now) right.now }
    ensures rises { steps.old ≤ steps.new }
    ensures gives { (under : EvaluationOf) → ComesToGive interpreter.now (part_gives interpreter.now under (λ s. valued (application verb (option_map (stack_value interpreter.now.workspace (parts_of e.now)) (option_copied left.entry)) (stack_value interpreter.now.workspace (parts_of e.now) right.now) axis s))) (steps.new - steps.old) under result }
    ensures memory { UnlessReport result (NoReportIsDue interpreter.now (application verb (option_map (stack_value interpreter.now.workspace (parts_of e.now)) (option_copied left.entry)) (stack_value interpreter.now.workspace (parts_of e.now) right.now) axis)) }
{
    if !may_be_applied(&verb, left.is_some(), axis.is_some()) {
        return Err(Fail::Report(Report::Syntax));
    }
    apply(
        interpreter.alloc,
        &verb,
        lent(interpreter, e, left),
        array_of(right, e.parts(), &interpreter.workspace),
        axis,
        steps,
    )
}

// Whether a function may be applied so: with a left argument exactly where it takes two, and an axis only where one may stand.
fn may_be_applied(verb: &Verb, has_left: bool, has_axis: bool) -> bool
    ensures { result ≡ (both_or_neither (is_dyadic verb.now) has_left && (not has_axis || verb_takes_axis verb.now)) }
{
    is_dyadic(*verb) == has_left && (!has_axis || verb_takes_axis(*verb))
}

// The number of an axis.
fn named_axis(axis: &Array) -> Result<i64, Report>
    ensures { result ≡ named_axis axis.now }
{
    if axis.items().len() != 1 {
        return Err(Report::Length);
    }
    match axis.items() {
        ItemsRef::Numbers(list) => Ok(list[0]),
        ItemsRef::Chars(_) => Err(Report::Domain),
    }
}
