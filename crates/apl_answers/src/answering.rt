ghost use Rattle.std.specs.Prelude.{◌≡◌, ◌≢◌, [], Some, None, true, IfErr, IfOk, IsSome, OnOk, length, slice_get, unwrap_or};
ghost use Rattle.apl_arrays.specs.declared.report.Fail.TheVariants as fail;
ghost use Rattle.apl_items.specs.Places.{OnWantOfMemory};
ghost use Rattle.apl_meaning.specs.Answers.{report_of_kind};
ghost use Rattle.sv_events.specs.Answer.{granted, plain_answer};
ghost use Rattle.sv_events.specs.Row.{answer_row};
ghost use Rattle.sv_events.specs.declared.event.Act.TheVariants as act;
ghost use Rattle.apl_workspace.specs.Meaning.{is_shared_meaning};
ghost use Rattle.apl_workspace.specs.Workspace.{look};
ghost use Rattle.apl_values.specs.Pending.{IsPending, act_for_purpose, brought, brought_by, plain_act_purpose, refers, replaces, sets};
ghost use Rattle.apl_values.specs.Rows.{AreRows, FirstAsksAct, HasTold, RowMayBeDone, asks_act, plain_deed, plain_naming, plain_name_row, row_done, row_numbers, row_zeros, rows_brought, rows_left};
ghost use Rattle.apl_statements.specs.Moves.{Comes, part_gives};
ghost use Rattle.apl_statements.specs.Sound.{IsCaller, IsFlow};
ghost use Rattle.apl_statements.specs.Wants.{CopyFits};
ghost use Rattle.apl_statements.specs.Work.{StaysWithin};
ghost use Rattle.apl_answers.specs.Brought.{BringsEnough};

use crate::assigning::{given, replace_items};
use crate::changing::{mark, renew, unmark};
use crate::lists::{list_names, list_parties};
use apl_arrays::{Array, Fail, Name, Report, WantOfMemory};
use apl_selection::Subs;
use apl_statements::{Evaluation, Flow, Interpreter};
use apl_values::{ActPurpose, Deed, NameRow, Naming, Rows, StackValue, report_of, value_in};
use sv_access::Control;
use sv_events::{Answer, copy_value};

/// What an answer brings: it ends the line by a report, also where there is no memory, or the statement that asked goes on.
/// WS FULL where the workspace would weigh too much with the own copy that it brings, or a list that it brings is too large, and
/// VALUE ERROR where that of a use has no value, each also where there is no memory.
pub fn bring(
    interpreter: &mut Interpreter,
    answer: Answer,
    pending: ActPurpose,
    e: Evaluation,
) -> Result<Flow, Fail>
    requires sound { IsCaller interpreter.old.workspace e }
    requires pending { IsPending interpreter.old.workspace pending }
    ensures comes { Comes interpreter.old (part_gives interpreter.old e (brought_by (plain_answer answer) (plain_act_purpose pending))) 0 interpreter.new result }
    ensures memory { OnWantOfMemory result (report_of_kind (answer_row (plain_answer answer)).row.kind ≡ None) }
    ensures room { OnWantOfMemory result (CopyFits interpreter.old.workspace (act_for_purpose (plain_act_purpose pending) interpreter.old.workspace) (plain_answer answer)) }
    ensures brings { OnWantOfMemory result (BringsEnough interpreter.old (plain_act_purpose pending) (plain_answer answer)) }
    ensures sound { IfOk result (IsFlow interpreter.new) }
    ensures within { IfOk result (StaysWithin interpreter.old e interpreter.new) }
{
    if let Some(report) = report_of(answer.row().kind) {
        return Err(Fail::Report(report));
    }
    match pending {
        ActPurpose::Refers(name) => bring_value(interpreter, e, name, answer),
        ActPurpose::Sets { name, value, gives } => bring_grant(interpreter, e, name, value, gives),
        ActPurpose::Replaces { name, subs, right } => {
            bring_items(interpreter, e, name, subs, right, answer)
        }
        ActPurpose::Row(rows) => bring_row(interpreter, e, rows, answer),
        ActPurpose::Parties => list_parties(interpreter, e, parties_in(&answer)),
        ActPurpose::Names(_) => list_names(interpreter, e, names_in(&answer)),
    }
}

// The value of a use: it is the own copy too. WS FULL where the workspace would weigh too much with it, also where there is
// no memory.
fn bring_value(
    interpreter: &mut Interpreter,
    e: Evaluation,
    name: Name,
    answer: Answer,
) -> Result<Flow, Fail>
    requires sound { IsCaller interpreter.old.workspace e }
    requires seen { is_shared_meaning (look interpreter.old.workspace name) ≡ true }
    ensures comes { Comes interpreter.old (part_gives interpreter.old e (brought (refers name) (plain_answer answer))) 0 interpreter.new result }
    ensures memory { OnWantOfMemory result (IsSome (answer_row (plain_answer answer)).value) }
    ensures room { OnWantOfMemory result (CopyFits interpreter.old.workspace (act.Use name) (plain_answer answer)) }
    ensures sound { IfOk result (IsFlow interpreter.new) }
    ensures within { IfOk result (StaysWithin interpreter.old e interpreter.new) }
{
    let mut e = e;
    renew(interpreter, &mut e, &name, value_in(answer)?)?;
    interpreter.give(e, StackValue::Named(name))
}

// The value of a use whose items are replaced: it is the own copy too. WS FULL where the workspace would weigh too much with
// it, also where there is no memory.
fn bring_items(
    interpreter: &mut Interpreter,
    e: Evaluation,
    name: Name,
    subs: Subs,
    right: Array,
    answer: Answer,
) -> Result<Flow, Fail>
    requires sound { IsCaller interpreter.old.workspace e }
    requires seen { is_shared_meaning (look interpreter.old.workspace name) ≡ true }
    ensures comes { Comes interpreter.old (part_gives interpreter.old e (brought (replaces name subs.items right) (plain_answer answer))) 0 interpreter.new result }
    ensures memory { OnWantOfMemory result (IsSome (answer_row (plain_answer answer)).value) }
    ensures room { OnWantOfMemory result (CopyFits interpreter.old.workspace (act.Use name) (plain_answer answer)) }
    ensures sound { IfOk result (IsFlow interpreter.new) }
    ensures within { IfOk result (StaysWithin interpreter.old e interpreter.new) }
{
    let mut e = e;
    renew(interpreter, &mut e, &name, value_in(answer)?)?;
    replace_items(interpreter, e, name, subs, right)
}

// A set was granted: the value is the own copy. WS FULL where the workspace would weigh too much with it, also where there is
// no memory.
fn bring_grant(
    interpreter: &mut Interpreter,
    e: Evaluation,
    name: Name,
    value: Array,
    gives: Option<Array>,
) -> Result<Flow, Fail>
    requires sound { IsCaller interpreter.old.workspace e }
    requires seen { is_shared_meaning (look interpreter.old.workspace name) ≡ true }
    ensures comes { Comes interpreter.old (part_gives interpreter.old e (brought (sets name value (unwrap_or gives value)) granted)) 0 interpreter.new result }
    ensures room { OnWantOfMemory result (CopyFits interpreter.old.workspace (act.Set name value) granted) }
    ensures sound { IfOk result (IsFlow interpreter.new) }
    ensures within { IfOk result (StaysWithin interpreter.old e interpreter.new) }
{
    let mut e = e;
    renew(interpreter, &mut e, &name, value)?;
    interpreter.give(e, given(name, gives))
}

// What a row's answer brings, and then the rows that follow.
fn bring_row(
    interpreter: &mut Interpreter,
    e: Evaluation,
    rows: Rows,
    answer: Answer,
) -> Result<Flow, Fail>
    requires sound { IsCaller interpreter.old.workspace e }
    requires rows { AreRows interpreter.old.workspace rows }
    requires first { FirstAsksAct interpreter.old.workspace (rows_left rows) }
    ensures comes { Comes interpreter.old (part_gives interpreter.old e (rows_brought rows.numbers.items (rows_left rows) rows.shape.items (plain_answer answer))) 0 interpreter.new result }
    ensures refused { IfErr result (λ why. why ≡ fail.WantOfMemory) }
    ensures sound { IfOk result (IsFlow interpreter.new) }
    ensures within { IfOk result (StaysWithin interpreter.old e interpreter.new) }
{
    interpreter.rules();
    let mut e = e;
    e.settle(interpreter.alloc, &interpreter.workspace)?;
    let mut rows = rows;
    let NameRow { names, deed } = first_of(&rows);
    tell_row(&mut rows, deed, &answer)?;
    finish_row(interpreter, names, deed, &answer)?;
    interpreter.next_row(e, rows)
}

// What the answer of a row does to the workspace: a name that was offered is shared, and one that was retracted no more.
fn finish_row(
    interpreter: &mut Interpreter,
    names: Naming,
    deed: Deed,
    answer: &Answer,
) -> Result<(), Fail>
    requires may { RowMayBeDone interpreter.old.workspace (plain_naming names, plain_deed deed) }
    requires acts { asks_act interpreter.old.workspace (plain_naming names, plain_deed deed) ≡ true }
    ensures ok { OnOk result (interpreter.new ≡ record interpreter.old { workspace = row_done (plain_deed deed) (plain_naming names) (plain_answer answer.now) interpreter.old.workspace }) }
    ensures err { IfErr result (λ why. why ≡ fail.WantOfMemory) }
{
    match deed {
        Deed::Offer(to) => mark(interpreter, names, to),
        Deed::Retract => {
            let value = copy_value(interpreter.alloc, answer.value())?;
            unmark(interpreter, &names.local, value);
            Ok(())
        }
        _ => Ok(()),
    }
}

// The first row told what its answer says.
fn tell_row(rows: &mut Rows, deed: Deed, answer: &Answer) -> Result<(), WantOfMemory>
    requires { rows_left rows.old ≢ [] }
    ensures told { OnOk result (HasTold rows.old (row_numbers (plain_deed deed) (plain_answer answer.now)) rows.new) }
    ensures many { length (row_numbers (plain_deed deed) (plain_answer answer.now)) ≡ length (row_zeros (plain_deed deed)) }
{
    let row = answer.row();
    match deed {
        Deed::Offer(_) | Deed::AskDegree | Deed::Retract => {
            rows.tell_degree(row.degree.unwrap_or(0))
        }
        Deed::SetControl(_) | Deed::AskControl | Deed::AskState => {
            rows.tell_control(row.vector.unwrap_or(Control([false; 4])))
        }
    }
}

// The row that is next.
fn first_of(rows: &Rows) -> NameRow
    requires { rows_left rows.now ≢ [] }
    ensures { Some (plain_name_row result) ≡ slice_get (rows_left rows.now) 0 }
{
    match rows.next() {
        Some(row) => row,
        None => unreachable!(),
    }
}

// The parties that an answer lists.
fn parties_in(answer: &Answer) -> &[u32]
    ensures { result.now ≡ unwrap_or (answer_row (plain_answer answer.now)).parties [] }
{
    match answer.parties() {
        Some(parties) => parties,
        None => &[],
    }
}

// The names that an answer lists.
fn names_in(answer: &Answer) -> &[Name]
    ensures { result.now ≡ unwrap_or (answer_row (plain_answer answer.now)).names [] }
{
    match answer.names() {
        Some(names) => names,
        None => &[],
    }
}
