ghost use Rattle.std.specs.Prelude.{◌≡◌, ◌+◌, ◌-◌, ◌<◌, ◌≤◌, None, Some, true, false, IfErr, IfOk, IfSome, OnOk, length, option_map, pos, slice_get};
ghost use Rattle.apl_arrays.specs.Array.{scalar};
ghost use Rattle.apl_arrays.specs.declared.report.Fail.TheVariants as fail;
ghost use Rattle.apl_arrays.specs.declared.report.Report.TheVariants as report;
ghost use Rattle.apl_items.specs.Answers.{Answers, first_report};
ghost use Rattle.apl_items.specs.Places.{OnWantOfMemory};
ghost use Rattle.apl_selection.specs.Indexing.{index_faults, selection_of};
ghost use Rattle.apl_workspace.specs.Workspace.{look};
ghost use Rattle.apl_meaning.specs.Expressions.{valued};
ghost use Rattle.line_trees.specs.Nodes.{PlainNode};
ghost use Rattle.apl_meaning.specs.Nodes.{assign_step, indexed_step, node_step};
ghost use Rattle.apl_meaning.specs.Variables.{reference};
ghost use Rattle.apl_values.specs.Parts.{is_paren, plain_part};
ghost use Rattle.apl_values.specs.Values.{IsStackValue, stack_value};
ghost use Rattle.apl_statements.specs.Evaluating.{evaluation_of};
ghost use Rattle.apl_statements.specs.Moves.{Comes, ComesToPause, Moves, flow_to_come, part_gives, part_takes};
ghost use Rattle.apl_statements.specs.Sound.{IsCaller, IsEvaluation, IsFlow, IsPause};
ghost use Rattle.apl_statements.specs.Stack.{assignment_step, onward};
ghost use Rattle.apl_statements.specs.Holding.{parts_of, stack_values};
ghost use Rattle.apl_statements.specs.Wants.{NoReportIsDue};
ghost use Rattle.apl_statements.specs.Work.{Falls, StaysWithin, TakesAStep, machine_work};
ghost use Rattle.apl_statements.specs.declared.flow.Flow.TheVariants as flow;
ghost use Rattle.apl_subscripts.specs.Held.{places_at, subs_held};
ghost use Rattle.apl_answers.specs.WentOn.{went_on};
ghost use Rattle.apl_machine.specs.Nexts.{HasPassed, IsHeldAs, IsHeldFor, IsNextStackValue, MayBeAssigned, given_places};
ghost use Rattle.apl_machine.specs.Wants.{looks_first, no_lines};

use crate::applying::perform;
use crate::calls::{call_next, call_of};
use crate::passing::pass_step;
use apl_answers::{assign, assign_items, lone_number};
use apl_arrays::{Array, Fail, Name, Report, WantOfMemory};
use apl_calls::{call, end_statement, follow, follow_here};
use apl_operators::Steps;
use apl_statements::{Evaluation, Flow, Interpreter, Pause};
use apl_subscripts::{index_held, let_go_of_subs, places_at};
use apl_values::{ActPurpose, Part, StackValue, array_of};
use apl_workspace::{Args, Seen};
use line_trees::Node;
use std::sync::ledger::Ledger;

/// Goes on from a flow until the line is over, or an act is opened.
pub fn run_from<L: Ledger>(
    interpreter: &mut Interpreter,
    flow: Flow,
    steps: &mut Steps<L>,
) -> Result<Pause, Fail>
    requires sound { IsFlow interpreter.old flow }
    ensures rises { steps.old ≤ steps.new }
    ensures comes { ComesToPause interpreter.old (flow_to_come interpreter.old flow) (steps.new - steps.old) interpreter.new result }
    ensures sound { IfOk result (IsPause interpreter.new) }
{
    let mut flow = flow;
    'steps: loop {
        match flow {
            Flow::Evaluates(evaluation) => flow = evaluate(interpreter, evaluation, steps)?,
            Flow::Begins(evaluation) => flow = evaluate(interpreter, evaluation, steps)?,
            Flow::Leads(next) => flow = follow(interpreter, next)?,
            Flow::Opens(pending, evaluation) => return Ok(Pause::Opens(pending, evaluation)),
            Flow::Ends => return Ok(Pause::Ends),
        }
    }
}

// A statement goes on to its end, to an act, or to the first line of a function that it calls; what follows it in a function
// takes its place.
fn evaluate<L: Ledger>(
    interpreter: &mut Interpreter,
    evaluation: Evaluation,
    steps: &mut Steps<L>,
) -> Result<Flow, Fail>
    requires sound { IsEvaluation interpreter.old.workspace evaluation }
    ensures rises { steps.old ≤ steps.new }
    ensures comes { Comes interpreter.old (λ s. onward (evaluation_of interpreter.old.workspace evaluation) interpreter.old.stack s) (steps.new - steps.old) interpreter.new result }
    ensures sound { IfOk result (IsFlow interpreter.new) }
    ensures falls { IfOk result (Falls interpreter.old interpreter.new) }
{
    let mut e = evaluation;
    'statements: loop {
        let mut began = false;
        'parts: while !began && e.goes_on() {
            if !pass(interpreter, &mut e, steps)? {
                match call_of(&e) {
                    Some((name, has_left)) => {
                        began = call_next(interpreter, &mut e, name, has_left)?;
                    }
                    None => match go_on(interpreter, e, steps)? {
                        Flow::Evaluates(next) => e = next,
                        other => return Ok(other),
                    },
                }
            }
        }
        if !began && !follow_here(interpreter, &mut e)? {
            return end_statement(interpreter, e);
        }
    }
}

// The next part is done where the statement stands, if it only gives a value, or the statement goes on behind it in any case. It
// tells whether it was done; where it was not, nothing has changed.
fn pass<L: Ledger>(
    interpreter: &mut Interpreter,
    e: &mut Evaluation,
    steps: &mut Steps<L>,
) -> Result<bool, Fail>
    requires sound { IsEvaluation interpreter.old.workspace e.old }
    requires next { e.old.at < length (parts_of e.old) }
    ensures rises { steps.old ≤ steps.new }
    ensures comes { Comes interpreter.old (λ s. onward (evaluation_of interpreter.old.workspace e.old) interpreter.old.stack s) (steps.new - steps.old) interpreter.new (went_on e.new result) }
    ensures sound { OnOk result (IsEvaluation interpreter.new.workspace e.new) }
    ensures work { OnOk result (machine_work interpreter.new ≡ machine_work interpreter.old) }
    ensures passed { IfOk result (HasPassed e.old e.new) }
{
    if pass_plain(interpreter, e)? {
        return Ok(true);
    }
    pass_step(interpreter, e, steps)
}

// The next part is done at once where it only gives a value: a constant, or a name that has one or is a label. It takes
// memory for the value.
fn pass_plain(interpreter: &Interpreter, e: &mut Evaluation) -> Result<bool, WantOfMemory>
    requires sound { IsEvaluation interpreter.now.workspace e.old }
    requires next { e.old.at < length (parts_of e.old) }
    ensures moves { OnOk result (Moves interpreter.now (λ s. onward (evaluation_of interpreter.now.workspace e.old) interpreter.now.stack s) 0 interpreter.now (λ s. onward (evaluation_of interpreter.now.workspace e.new) interpreter.now.stack s)) }
    ensures sound { OnOk result (IsEvaluation interpreter.now.workspace e.new) }
    ensures passed { IfOk result (HasPassed e.old e.new) }
{
    match next_held(interpreter, e) {
        None => Ok(false),
        Some(held) => {
            e.at += 1;
            e.push(held)?;
            Ok(true)
        }
    }
}

// The value that the next part gives, where it is a constant, or a name that has one or is a label.
fn next_held(interpreter: &Interpreter, e: &Evaluation) -> Option<StackValue>
    requires sound { IsEvaluation interpreter.now.workspace e.now }
    requires next { e.now.at < length (parts_of e.now) }
    ensures { IfSome result (IsNextStackValue interpreter.now e.now) }
{
    if e.is_wanting {
        return None;
    }
    match &e.reading.parts[e.at] {
        Part::Constant(_) => Some(StackValue::Constant(e.at)),
        Part::Other(node) => match node {
            Node::Value(name) => held_of(interpreter, name),
            _ => None,
        },
    }
}

// A name as a value, where it has one or is a label.
fn held_of(interpreter: &Interpreter, name: &Name) -> Option<StackValue>
    ensures { IfSome result (IsHeldFor (look interpreter.now.workspace name.now) name.now) }
{
    match interpreter.workspace.look(name) {
        Seen::Value(array) => Some(held_for(name, array)),
        Seen::Label(line) => Some(StackValue::Made(number_of(line))),
        _ => None,
    }
}

// The value that a name has, as it is held: a lone number itself, which takes no memory, and any other by the name.
fn held_for(name: &Name, array: &Array) -> StackValue
    ensures { IsHeldAs array.now name.now result }
{
    match lone_number(array) {
        None => StackValue::Named(*name),
        Some(number) => StackValue::Made(Array::of_number(number)),
    }
}

// The number of a line, as an array.
fn number_of(line: u32) -> Array
    ensures { result ≡ scalar (pos line) }
{
    Array::of_number(i64::from(line))
}

// A statement goes on with its next part.
fn go_on<L: Ledger>(
    interpreter: &mut Interpreter,
    e: Evaluation,
    steps: &mut Steps<L>,
) -> Result<Flow, Fail>
    requires sound { IsEvaluation interpreter.old.workspace e }
    requires next { e.at < length (parts_of e) }
    ensures rises { steps.old ≤ steps.new }
    ensures comes { Comes interpreter.old (λ s. onward (evaluation_of interpreter.old.workspace e) interpreter.old.stack s) (steps.new - steps.old) interpreter.new result }
    ensures memory { (n : PlainNode) → option_map plain_part (slice_get (parts_of e) e.at) ≡ Some n → looks_first n ≡ true → OnWantOfMemory result (NoReportIsDue interpreter.old (node_step no_lines n (stack_values interpreter.old.workspace e))) }
    ensures sound { IfOk result (IsFlow interpreter.new) }
    ensures within { IfOk result (TakesAStep interpreter.old e interpreter.new) }
{
    if e.is_wanting {
        pass_wanting(e)
    } else {
        step(interpreter, e, steps)
    }
}

// A part takes the values that it needs, and gives one. A report comes also where there is no memory; of items that are replaced
// this is said by `assign_to`.
fn step<L: Ledger>(
    interpreter: &mut Interpreter,
    e: Evaluation,
    steps: &mut Steps<L>,
) -> Result<Flow, Fail>
    requires sound { IsCaller interpreter.old.workspace e }
    requires next { e.at < length (parts_of e) }
    ensures rises { steps.old ≤ steps.new }
    ensures comes { Comes interpreter.old (λ s. onward (evaluation_of interpreter.old.workspace e) interpreter.old.stack s) (steps.new - steps.old) interpreter.new result }
    ensures memory { (n : PlainNode) → option_map plain_part (slice_get (parts_of e) e.at) ≡ Some n → looks_first n ≡ true → OnWantOfMemory result (NoReportIsDue interpreter.old (node_step no_lines n (stack_values interpreter.old.workspace e))) }
    ensures sound { IfOk result (IsFlow interpreter.new) }
    ensures within { IfOk result (TakesAStep interpreter.old e interpreter.new) }
{
    let mut e = e;
    let at = e.at;
    e.at += 1;
    match &e.reading.parts[at] {
        Part::Constant(_) => interpreter.give(e, StackValue::Constant(at)),
        Part::Other(node) => match node {
            Node::Constant(_) => Err(Fail::Report(Report::WsFull)),
            Node::Value(name) => {
                let name = *name;
                refer(interpreter, e, name)
            }
            Node::Niladic(name) => {
                let name = *name;
                call(interpreter, e, name, no_arguments())
            }
            Node::Paren(_) => Ok(Flow::Evaluates(e)),
            Node::Indexed { .. } => index_value(interpreter, e, at),
            Node::Apply {
                function,
                left,
                axis,
                ..
            } => {
                let function = *function;
                let has_left = left.is_some();
                let has_axis = axis.is_some();
                perform(interpreter, e, function, has_left, has_axis, steps)
            }
            Node::Assign { target, subs, .. } => {
                let name = *target;
                let has_subs = subs.is_some();
                assign_to(interpreter, e, name, has_subs, at)
            }
        },
    }
}

// An assignment to a name, or to its items. What the name cannot take, or what is wrong with its items, ends the line also where
// there is no memory.
fn assign_to(
    interpreter: &mut Interpreter,
    e: Evaluation,
    name: Name,
    has_subs: bool,
    at: usize,
) -> Result<Flow, Fail>
    requires sound { IsCaller interpreter.old.workspace e }
    ensures comes { Comes interpreter.old (part_takes interpreter.old e (assignment_step name (given_places has_subs (places_at e at)))) 0 interpreter.new result }
    ensures memory { OnWantOfMemory result (MayBeAssigned (given_places has_subs (places_at e at)) interpreter.old.workspace e (look interpreter.old.workspace name)) }
    ensures due { has_subs ≡ false → OnWantOfMemory result (NoReportIsDue interpreter.old (assign_step name (stack_values interpreter.old.workspace e))) }
    ensures sound { IfOk result (IsFlow interpreter.new) }
    ensures within { IfOk result (StaysWithin interpreter.old e interpreter.new) }
{
    if has_subs {
        assign_items(interpreter, e, name, at)
    } else {
        assign(interpreter, e, name)
    }
}

// A reference to a name: VALUE ERROR where it stands for nothing, SYNTAX ERROR for a function, each also where there is no
// memory; a shared name is used.
fn refer(interpreter: &Interpreter, e: Evaluation, name: Name) -> Result<Flow, Fail>
    requires sound { IsCaller interpreter.now.workspace e }
    ensures comes { Comes interpreter.now (part_gives interpreter.now e (λ s. valued (reference name s))) 0 interpreter.now result }
    ensures memory { OnWantOfMemory result (NoReportIsDue interpreter.now (reference name)) }
    ensures sound { IfOk result (IsFlow interpreter.now) }
    ensures within { IfOk result (StaysWithin interpreter.now e interpreter.now) }
{
    match interpreter.workspace.look(&name) {
        Seen::Nothing => Err(Fail::Report(Report::Value)),
        Seen::Value(_) => interpreter.give(e, StackValue::Named(name)),
        Seen::Function(_) => Err(Fail::Report(Report::Syntax)),
        Seen::Label(line) => {
            let number = Array::scalar(interpreter.alloc, i64::from(line))?;
            interpreter.give(e, StackValue::Made(number))
        }
        Seen::Shared(_) => interpreter.open(ActPurpose::Refers(name), e),
    }
}

// An array is indexed by the subscripts of a part. VALUE ERROR where there is none, and what `index` reports, come also where there is no
// memory.
fn index_value(interpreter: &Interpreter, e: Evaluation, at: usize) -> Result<Flow, Fail>
    requires sound { IsCaller interpreter.now.workspace e }
    ensures comes { Comes interpreter.now (part_takes interpreter.now e (indexed_step (places_at e at))) 0 interpreter.now result }
    ensures memory { OnWantOfMemory result (NoReportIsDue interpreter.now (indexed_step (places_at e at) (stack_values interpreter.now.workspace e))) }
    ensures sound { IfOk result (IsFlow interpreter.now) }
    ensures within { IfOk result (StaysWithin interpreter.now e interpreter.now) }
{
    let mut e = e;
    let held = e.take()?;
    let made = index_by(interpreter, &e, &held, at);
    drop(held);
    let_go_of_subs(&mut e, at);
    let array = made?;
    interpreter.give(e, StackValue::Made(array))
}

// The items of a value by the subscripts that a statement holds. Reports and memory are those of `index`.
fn index_by(
    interpreter: &Interpreter,
    e: &Evaluation,
    held: &StackValue,
    at: usize,
) -> Result<Array, Fail>
    requires sound { IsEvaluation interpreter.now.workspace e.now }
    requires held { IsStackValue interpreter.now.workspace (parts_of e.now) held.now }
    ensures answer { Answers result (selection_of (stack_value interpreter.now.workspace (parts_of e.now) held.now) (subs_held interpreter.now.workspace e.now (places_at e.now at))) }
    ensures memory { OnWantOfMemory result (first_report (index_faults (stack_value interpreter.now.workspace (parts_of e.now) held.now) (subs_held interpreter.now.workspace e.now (places_at e.now at))) ≡ None) }
{
    index_held(
        interpreter.alloc,
        array_of(held, e.parts(), &interpreter.workspace),
        e,
        places_at(e, at),
        &interpreter.workspace,
    )
}

// No arguments.
fn no_arguments() -> Args
    ensures { result ≡ record { left = None; right = None } }
{
    Args {
        left: None,
        right: None,
    }
}

// Where a value is wanting, only parentheses stand around none.
fn pass_wanting(e: Evaluation) -> Result<Flow, Fail>
    requires next { e.at < length (parts_of e) }
    ensures passed { IfOk result (λ next. next ≡ flow.Evaluates (record e { at = e.at + 1 })) }
    ensures parenthesis { IfOk result (λ next. IfSome (slice_get (parts_of e) e.at) (λ part. is_paren (plain_part part) ≡ true)) }
    ensures refused { IfErr result (λ why. (why ≡ fail.Report report.Value) × IfSome (slice_get (parts_of e) e.at) (λ part. is_paren (plain_part part) ≡ false)) }
{
    let mut e = e;
    let at = e.at;
    e.at += 1;
    if is_parenthesis(&e.reading.parts[at]) {
        Ok(Flow::Evaluates(e))
    } else {
        Err(Fail::Report(Report::Value))
    }
}

// Whether a part is a pair of parentheses.
fn is_parenthesis(part: &Part) -> bool
    ensures { result ≡ is_paren (plain_part part.now) }
{
    match part {
        Part::Constant(_) => false,
        Part::Other(node) => matches!(node, Node::Paren(_)),
    }
}
