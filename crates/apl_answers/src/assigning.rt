ghost use Rattle.std.specs.Prelude.{◌≡◌, ◌≤◌, ◌∷◌, List, Some, None, Ok, Err, true, false, if◌then◌else◌, IfErr, IfOk, IfSome, IsOk, OnOk, count_by, is_some, length, nat_lt, unwrap_or};
ghost use Rattle.std.specs.Option.{option_copied};
ghost use Rattle.apl_workspace.specs.Limits.{most_weight};
ghost use Rattle.apl_workspace.specs.Meaning.{is_shared_meaning, shared_copy};
ghost use Rattle.apl_workspace.specs.Workspace.{IsNotAssigned, assigned, is_assignable, look, workspace_weight};
ghost use Rattle.apl_workspace.specs.declared.meaning.Meaning.TheVariants as meaning;
ghost use Rattle.apl_arrays.specs.Array.{PlainArray};
ghost use Rattle.apl_arrays.specs.declared.report.Fail.TheVariants as fail;
ghost use Rattle.apl_arrays.specs.declared.report.Report.TheVariants as report;
ghost use Rattle.apl_items.specs.Answers.{Answers};
ghost use Rattle.apl_items.specs.Places.{OnWantOfMemory};
ghost use Rattle.apl_selection.specs.Assignment.{assign_of};
ghost use Rattle.apl_meaning.specs.Nodes.{assign_step, items_step, popped};
ghost use Rattle.apl_values.specs.Pending.{assigned_giving, replaced};
ghost use Rattle.apl_values.specs.Values.{IsStackValue, stack_value};
ghost use Rattle.apl_statements.specs.Moves.{Comes, part_gives, part_takes};
ghost use Rattle.apl_statements.specs.Sound.{IsCaller, IsEvaluation, IsFlow};
ghost use Rattle.apl_statements.specs.Holding.{parts_of, stack_value_given, stack_values};
ghost use Rattle.apl_statements.specs.Wants.{NoReportIsDue};
ghost use Rattle.apl_statements.specs.Work.{StaysWithin, machine_work, parts_left};
ghost use Rattle.apl_subscripts.specs.Held.{IsReplacement, MayBeReplaced, behind_subs, places_at, replaced_by, subs_held};
ghost use Rattle.apl_answers.specs.Numbers.{HoldsNumber};
ghost use Rattle.apl_answers.specs.WentOn.{went_on};

use crate::changing::{assign_settled, assign_value, not_assigned};
use crate::lone::lone_number;
use apl_arrays::{Array, Fail, Name, Report, WantOfMemory};
use apl_selection::Subs;
use apl_statements::{Evaluation, Flow, Interpreter};
use apl_subscripts::{given_count, items_assigned, items_replaced, let_go_of_subs, places_at};
use apl_values::{ActPurpose, StackValue, array_of};
use apl_workspace::Seen;
use line_trees::Places;

/// An assignment of the newest value: a shared name is set; SYNTAX ERROR for a label or a function; else WS FULL where
/// the workspace would weigh too much, each also where there is no memory.
pub fn assign(interpreter: &mut Interpreter, e: Evaluation, name: Name) -> Result<Flow, Fail>
    requires sound { IsCaller interpreter.old.workspace e }
    ensures comes { Comes interpreter.old (part_takes interpreter.old e (assign_step name)) 0 interpreter.new result }
    ensures memory { OnWantOfMemory result (is_assignable (look interpreter.old.workspace name) ≡ true) }
    ensures room { is_shared_meaning (look interpreter.old.workspace name) ≡ false → (value : PlainArray) (values : List PlainArray) → stack_values interpreter.old.workspace e ≡ value ∷ values
        → OnWantOfMemory result (workspace_weight (assigned interpreter.old.workspace name value) ≤ most_weight) }
    ensures due { OnWantOfMemory result (NoReportIsDue interpreter.old (assign_step name (stack_values interpreter.old.workspace e))) }
    ensures sound { IfOk result (IsFlow interpreter.new) }
    ensures within { IfOk result (StaysWithin interpreter.old e interpreter.new) }
{
    let mut e = e;
    let held = e.take()?;
    let right = right_side(interpreter, &e, held, &name)?;
    put(interpreter, e, name, right, None)
}

/// An assignment of the newest value to a name that is not shared: the statement goes on with the value that the name has then.
/// SYNTAX ERROR for a label or a function, else WS FULL where the workspace would weigh too much, each
/// also where there is no memory.
pub fn assign_unshared(
    interpreter: &mut Interpreter,
    e: &mut Evaluation,
    name: Name,
) -> Result<(), Fail>
    requires sound { IsCaller interpreter.old.workspace e.old }
    requires unshared { is_shared_meaning (look interpreter.old.workspace name) ≡ false }
    ensures comes { Comes interpreter.old (part_takes interpreter.old e.old (assign_step name)) 0 interpreter.new (went_on e.new result) }
    ensures memory { OnWantOfMemory result (is_assignable (look interpreter.old.workspace name) ≡ true) }
    ensures room { (value : PlainArray) (values : List PlainArray) → stack_values interpreter.old.workspace e.old ≡ value ∷ values
        → OnWantOfMemory result (workspace_weight (assigned interpreter.old.workspace name value) ≤ most_weight) }
    ensures due { OnWantOfMemory result (NoReportIsDue interpreter.old (assign_step name (stack_values interpreter.old.workspace e.old))) }
    ensures sound { OnOk result (IsEvaluation interpreter.new.workspace e.new) }
    ensures work { OnOk result (machine_work interpreter.new ≡ machine_work interpreter.old) }
    ensures left { OnOk result (parts_left e.new ≡ parts_left e.old) }
{
    match number_held(e) {
        None => assign_held(interpreter, e, name),
        Some(number) => assign_number(interpreter, e, &name, number),
    }
}

// The same of any value.
fn assign_held(interpreter: &mut Interpreter, e: &mut Evaluation, name: Name) -> Result<(), Fail>
    requires sound { IsCaller interpreter.old.workspace e.old }
    requires unshared { is_shared_meaning (look interpreter.old.workspace name) ≡ false }
    ensures comes { Comes interpreter.old (part_takes interpreter.old e.old (assign_step name)) 0 interpreter.new (went_on e.new result) }
    ensures memory { OnWantOfMemory result (is_assignable (look interpreter.old.workspace name) ≡ true) }
    ensures room { (value : PlainArray) (values : List PlainArray) → stack_values interpreter.old.workspace e.old ≡ value ∷ values
        → OnWantOfMemory result (workspace_weight (assigned interpreter.old.workspace name value) ≤ most_weight) }
    ensures due { OnWantOfMemory result (NoReportIsDue interpreter.old (assign_step name (stack_values interpreter.old.workspace e.old))) }
    ensures sound { OnOk result (IsEvaluation interpreter.new.workspace e.new) }
    ensures work { OnOk result (machine_work interpreter.new ≡ machine_work interpreter.old) }
    ensures left { OnOk result (parts_left e.new ≡ parts_left e.old) }
{
    let held = e.take()?;
    let right = right_side(interpreter, e, held, &name)?;
    assign_value(interpreter, e, &name, right)?;
    e.push(StackValue::Named(name))?;
    Ok(())
}

// The same of a lone number that is all that a statement holds: it stays where it is.
fn assign_number(
    interpreter: &mut Interpreter,
    e: &Evaluation,
    name: &Name,
    number: i64,
) -> Result<(), Fail>
    requires number { HoldsNumber e.now number }
    requires sound { IsCaller interpreter.old.workspace e.now }
    requires unshared { is_shared_meaning (look interpreter.old.workspace name.now) ≡ false }
    ensures comes { Comes interpreter.old (part_takes interpreter.old e.now (assign_step name.now)) 0 interpreter.new (went_on e.now result) }
    ensures memory { OnWantOfMemory result (is_assignable (look interpreter.old.workspace name.now) ≡ true) }
    ensures room { (value : PlainArray) (values : List PlainArray) → stack_values interpreter.old.workspace e.now ≡ value ∷ values
        → OnWantOfMemory result (workspace_weight (assigned interpreter.old.workspace name.now value) ≤ most_weight) }
    ensures due { OnWantOfMemory result (NoReportIsDue interpreter.old (assign_step name.now (stack_values interpreter.old.workspace e.now))) }
    ensures sound { OnOk result (IsEvaluation interpreter.new.workspace e.now) }
    ensures work { OnOk result (machine_work interpreter.new ≡ machine_work interpreter.old) }
{
    assign_settled(interpreter, name, Array::of_number(number))?;
    Ok(())
}

// The number that a statement holds, where it is lone and nothing stands beside it.
fn number_held(e: &Evaluation) -> Option<i64>
    ensures { IfSome result (HoldsNumber e.now) }
{
    match e.values.as_slice() {
        [StackValue::Made(array)] => lone_number(array),
        _ => None,
    }
}

// A value that is to be assigned to a name, as an array of its own. Where there is no memory for it, what the assignment would
// tell comes first, unless the name is shared.
fn right_side(
    interpreter: &Interpreter,
    e: &Evaluation,
    held: StackValue,
    name: &Name,
) -> Result<Array, Fail>
    requires { IsStackValue interpreter.now.workspace (parts_of e.now) held }
    ensures value { IfOk result (λ right. right ≡ stack_value interpreter.now.workspace (parts_of e.now) held) }
    ensures shared { is_shared_meaning (look interpreter.now.workspace name.now) ≡ true → IfErr result (λ why. why ≡ fail.WantOfMemory) }
    ensures other { is_shared_meaning (look interpreter.now.workspace name.now) ≡ false
        → IfErr result (IsNotAssigned false (is_assignable (look interpreter.now.workspace name.now)) (assigned interpreter.now.workspace name.now (stack_value interpreter.now.workspace (parts_of e.now) held))) }
{
    match held {
        StackValue::Made(array) => Ok(array),
        other => copied_for(
            interpreter,
            name,
            array_of(&other, e.parts(), &interpreter.workspace),
        ),
    }
}

// A copy of a value that is to be assigned to a name; the same holds of it.
fn copied_for(interpreter: &Interpreter, name: &Name, value: &Array) -> Result<Array, Fail>
    ensures value { IfOk result (λ copy. copy ≡ value.now) }
    ensures shared { is_shared_meaning (look interpreter.now.workspace name.now) ≡ true → IfErr result (λ why. why ≡ fail.WantOfMemory) }
    ensures other { is_shared_meaning (look interpreter.now.workspace name.now) ≡ false → IfErr result (IsNotAssigned false (is_assignable (look interpreter.now.workspace name.now)) (assigned interpreter.now.workspace name.now value.now)) }
{
    match value.copy(interpreter.alloc) {
        Ok(copy) => Ok(copy),
        Err(WantOfMemory) => Err(not_copied(interpreter, name, value)),
    }
}

// Why a value was not copied for a name: what the assignment would tell comes first, unless the name is shared.
fn not_copied(interpreter: &Interpreter, name: &Name, value: &Array) -> Fail
    ensures shared { is_shared_meaning (look interpreter.now.workspace name.now) ≡ true → result ≡ fail.WantOfMemory }
    ensures other { is_shared_meaning (look interpreter.now.workspace name.now) ≡ false → IsNotAssigned false (is_assignable (look interpreter.now.workspace name.now)) (assigned interpreter.now.workspace name.now value.now) result }
{
    if is_seen_shared(interpreter, name) {
        Fail::WantOfMemory
    } else {
        not_assigned(&interpreter.workspace, name, value)
    }
}

/// A name gets a value; what the assignment gives is another value where there is one. SYNTAX ERROR for a label or a function,
/// and WS FULL where the workspace would weigh too much with the value, each also where there is no memory.
pub fn put(
    interpreter: &mut Interpreter,
    e: Evaluation,
    name: Name,
    value: Array,
    gives: Option<Array>,
) -> Result<Flow, Fail>
    requires sound { IsCaller interpreter.old.workspace e }
    ensures comes { Comes interpreter.old (part_gives interpreter.old e (assigned_giving name value (unwrap_or gives value))) 0 interpreter.new result }
    ensures memory { OnWantOfMemory result (is_assignable (look interpreter.old.workspace name) ≡ true) }
    ensures room { is_shared_meaning (look interpreter.old.workspace name) ≡ false → OnWantOfMemory result (workspace_weight (assigned interpreter.old.workspace name value) ≤ most_weight) }
    ensures sound { IfOk result (IsFlow interpreter.new) }
    ensures within { IfOk result (StaysWithin interpreter.old e interpreter.new) }
{
    let mut e = e;
    if is_seen_shared(interpreter, &name) {
        return interpreter.open(ActPurpose::Sets { name, value, gives }, e);
    }
    assign_value(interpreter, &mut e, &name, value)?;
    interpreter.give(e, given(name, gives))
}

/// Items of a name are replaced, by the subscripts of a part: its value with these items replaced is assigned to it. A shared
/// name is used, and then set. VALUE ERROR for a name that stands for nothing and where there is no right side, SYNTAX ERROR for
/// a label or a function, and what `index_assign` reports on the name's value, each also where there is no memory.
pub fn assign_items(
    interpreter: &mut Interpreter,
    e: Evaluation,
    name: Name,
    at: usize,
) -> Result<Flow, Fail>
    requires sound { IsCaller interpreter.old.workspace e }
    ensures comes { Comes interpreter.old (part_takes interpreter.old e (λ values. items_step name (popped (places_at e at) values).subs (popped (places_at e at) values).values)) 0 interpreter.new result }
    ensures memory { OnWantOfMemory result (MayBeReplaced (look interpreter.old.workspace name) (subs_held interpreter.old.workspace e (places_at e at)) (behind_subs interpreter.old.workspace e (places_at e at))) }
    ensures sound { IfOk result (IsFlow interpreter.new) }
    ensures within { IfOk result (StaysWithin interpreter.old e interpreter.new) }
{
    match replacement(interpreter, &e, &name, at)? {
        None => use_first(interpreter, e, name, at),
        Some(new) => put_replaced(interpreter, e, name, at, new),
    }
}

// What takes the place of the value of a name whose items are replaced; none where it is shared, and used first. VALUE ERROR for
// a name that stands for nothing and where there is no right side, SYNTAX ERROR for a label or a function, and what `index_assign`
// reports.
fn replacement(
    interpreter: &Interpreter,
    e: &Evaluation,
    name: &Name,
    at: usize,
) -> Result<Option<Array>, Fail>
    requires { IsEvaluation interpreter.now.workspace e.now }
    ensures wrong { IfErr result (λ why. Comes interpreter.now (part_takes interpreter.now e.now (λ values. items_step name.now (popped (places_at e.now at) values).subs (popped (places_at e.now at) values).values)) 0 interpreter.now (Err why)) }
    ensures right { IfOk result (IsReplacement (look interpreter.now.workspace name.now) (subs_held interpreter.now.workspace e.now (places_at e.now at)) (behind_subs interpreter.now.workspace e.now (places_at e.now at))) }
    ensures memory { OnWantOfMemory result (MayBeReplaced (look interpreter.now.workspace name.now) (subs_held interpreter.now.workspace e.now (places_at e.now at)) (behind_subs interpreter.now.workspace e.now (places_at e.now at))) }
{
    match interpreter.workspace.look(name) {
        Seen::Nothing => Err(Fail::Report(Report::Value)),
        Seen::Value(old) => {
            let new = value_replacement(interpreter, old, e, at)?;
            Ok(Some(new))
        }
        Seen::Function(_) => Err(Fail::Report(not_replaced(e, at))),
        Seen::Label(_) => Err(Fail::Report(not_replaced(e, at))),
        Seen::Shared(_) => none_yet(e, at),
    }
}

// An array whose items are replaced by what a statement holds. Reports and memory are those of `items_replaced`.
fn value_replacement(
    interpreter: &Interpreter,
    old: &Array,
    e: &Evaluation,
    at: usize,
) -> Result<Array, Fail>
    requires { IsEvaluation interpreter.now.workspace e.now }
    ensures answer { Answers result (replaced_by old.now (subs_held interpreter.now.workspace e.now (places_at e.now at)) (behind_subs interpreter.now.workspace e.now (places_at e.now at))) }
    ensures memory { OnWantOfMemory result (IsOk (replaced_by old.now (subs_held interpreter.now.workspace e.now (places_at e.now at)) (behind_subs interpreter.now.workspace e.now (places_at e.now at)))) }
{
    items_replaced(
        interpreter.alloc,
        old,
        e,
        places_at(e, at),
        &interpreter.workspace,
    )
}

// No array where a value stands behind the subscripts, and else VALUE ERROR.
fn none_yet(e: &Evaluation, at: usize) -> Result<Option<Array>, Fail>
    ensures { result ≡ (if nat_lt (count_by is_some (places_at e.now at)) (length e.now.values.items) then Ok None else Err (fail.Report report.Value)) }
{
    if given_count(places_at(e, at)) < e.values.len() {
        Ok(None)
    } else {
        Err(Fail::Report(Report::Value))
    }
}

// The report on a label or a function whose items are to be replaced: SYNTAX ERROR, or VALUE ERROR where there is no right side.
fn not_replaced(e: &Evaluation, at: usize) -> Report
    ensures { result ≡ (if nat_lt (count_by is_some (places_at e.now at)) (length e.now.values.items) then report.Syntax else report.Value) }
{
    if given_count(places_at(e, at)) < e.values.len() {
        Report::Syntax
    } else {
        Report::Value
    }
}

// A name gets an array in the place of its value, and the right side is given.
fn put_replaced(
    interpreter: &mut Interpreter,
    e: Evaluation,
    name: Name,
    at: usize,
    new: Array,
) -> Result<Flow, Fail>
    requires sound { IsCaller interpreter.old.workspace e }
    requires right { IsReplacement (look interpreter.old.workspace name) (subs_held interpreter.old.workspace e (places_at e at)) (behind_subs interpreter.old.workspace e (places_at e at)) (Some new) }
    ensures comes { Comes interpreter.old (part_takes interpreter.old e (λ values. items_step name (popped (places_at e at) values).subs (popped (places_at e at) values).values)) 0 interpreter.new result }
    ensures sound { IfOk result (IsFlow interpreter.new) }
    ensures within { IfOk result (StaysWithin interpreter.old e interpreter.new) }
{
    let mut e = e;
    let_go_of_subs(&mut e, at);
    let held = e.take()?;
    let right = interpreter.owned(&e, held)?;
    put(interpreter, e, name, new, Some(right))
}

// A shared name is used, and its items are replaced behind that by subscripts and a right side that are kept.
fn use_first(
    interpreter: &mut Interpreter,
    e: Evaluation,
    name: Name,
    at: usize,
) -> Result<Flow, Fail>
    requires sound { IsCaller interpreter.old.workspace e }
    requires right { IsReplacement (look interpreter.old.workspace name) (subs_held interpreter.old.workspace e (places_at e at)) (behind_subs interpreter.old.workspace e (places_at e at)) None }
    ensures comes { Comes interpreter.old (part_takes interpreter.old e (λ values. items_step name (popped (places_at e at) values).subs (popped (places_at e at) values).values)) 0 interpreter.new result }
    ensures sound { IfOk result (IsFlow interpreter.new) }
    ensures within { IfOk result (StaysWithin interpreter.old e interpreter.new) }
{
    let mut e = e;
    let places = Places::of(interpreter.alloc, places_at(&e, at))?;
    let subs = e.take_subs(interpreter.alloc, places.as_slice(), &interpreter.workspace)?;
    let held = e.take()?;
    let right = interpreter.owned(&e, held)?;
    interpreter.open(ActPurpose::Replaces { name, subs, right }, e)
}

/// Items of a shared name are replaced behind its use, and the name is set. A report of the replacement comes also where there
/// is no memory.
pub fn replace_items(
    interpreter: &mut Interpreter,
    e: Evaluation,
    name: Name,
    subs: Subs,
    right: Array,
) -> Result<Flow, Fail>
    requires sound { IsCaller interpreter.old.workspace e }
    requires seen { is_shared_meaning (look interpreter.old.workspace name) ≡ true }
    ensures comes { (old : PlainArray) → look interpreter.old.workspace name ≡ meaning.Shared (Some old) → Comes interpreter.old (part_gives interpreter.old e (replaced name subs.items right old)) 0 interpreter.new result }
    ensures memory { (old : PlainArray) → look interpreter.old.workspace name ≡ meaning.Shared (Some old) → OnWantOfMemory result (IsOk (assign_of old subs.items right)) }
    ensures sound { IfOk result (IsFlow interpreter.new) }
    ensures within { IfOk result (StaysWithin interpreter.old e interpreter.new) }
{
    match own_copy(interpreter, &name) {
        None => Err(Fail::Report(Report::Value)),
        Some(old) => {
            let new = items_assigned(interpreter.alloc, old, &subs, &right)?;
            put(interpreter, e, name, new, Some(right))
        }
    }
}

// The own copy of a name that is seen as shared.
fn own_copy<'a>(interpreter: &'a Interpreter, name: &Name) -> Option<&'a Array>
    ensures { option_copied result ≡ shared_copy (look interpreter.now.workspace name.now) }
{
    match interpreter.workspace.look(name) {
        Seen::Shared(copy) => copy,
        _ => None,
    }
}

/// Whether a name is seen as shared.
pub fn is_seen_shared(interpreter: &Interpreter, name: &Name) -> bool
    ensures { result ≡ is_shared_meaning (look interpreter.now.workspace name.now) }
{
    matches!(interpreter.workspace.look(name), Seen::Shared(_))
}

/// What an assignment to a name gives: another value, or the value that the name has now.
pub fn given(name: Name, gives: Option<Array>) -> StackValue
    ensures { result ≡ stack_value_given name gives }
{
    match gives {
        None => StackValue::Named(name),
        Some(array) => StackValue::Made(array),
    }
}
