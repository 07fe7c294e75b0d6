ghost use Rattle.std.specs.Prelude.{◌≡◌, Some, IfErr, IfOk};
ghost use Rattle.apl_arrays.specs.declared.report.Fail.TheVariants as fail;
ghost use Rattle.apl_workspace.specs.Workspace.{IsWorkspace};
ghost use Rattle.apl_meaning.specs.State.{gives};
ghost use Rattle.apl_values.specs.Pending.{IsPending, act_asked_for, plain_act_purpose};
ghost use Rattle.apl_values.specs.Values.{IsStackValue, stack_value};
ghost use Rattle.apl_values.specs.Rows.{AreRows, asks_act, plain_name_row, rest_of_rows, rows_left};
ghost use Rattle.apl_statements.specs.Moves.{Comes, part_gives};
ghost use Rattle.apl_statements.specs.Sound.{IsCaller, IsFlow};
ghost use Rattle.apl_statements.specs.Holding.{parts_of};
ghost use Rattle.apl_statements.specs.Work.{StaysWithin};

use crate::evaluation::Evaluation;
use crate::flow::Flow;
use crate::interpreter::Interpreter;
use apl_arrays::{Array, Fail};
use apl_values::{ActPurpose, Deed, NameRow, Rows, StackValue, boxed, owned};

impl Interpreter {
    /// A value is put behind the others, and the statement goes on. It takes memory for the value.
    pub fn give(&self, e: Evaluation, value: StackValue) -> Result<Flow, Fail>
        requires sound { IsCaller self.now.workspace e }
        requires value { IsStackValue self.now.workspace (parts_of e) value }
        ensures comes { Comes self.now (part_gives self.now e (λ s. gives (Some (stack_value self.now.workspace (parts_of e) value)) s)) 0 self.now result }
        ensures refused { IfErr result (λ why. why ≡ fail.WantOfMemory) }
        ensures sound { IfOk result (IsFlow self.now) }
        ensures within { IfOk result (StaysWithin self.now e self.now) }
    {
        let mut e = e;
        e.push(value)?;
        Ok(Flow::Evaluates(e))
    }

    /// An act is opened, behind which the statement goes on. It takes memory for what the act is for.
    pub fn open(&self, pending: ActPurpose, e: Evaluation) -> Result<Flow, Fail>
        requires sound { IsCaller self.now.workspace e }
        requires pending { IsPending self.now.workspace pending }
        ensures comes { Comes self.now (part_gives self.now e (act_asked_for (plain_act_purpose pending))) 0 self.now result }
        ensures refused { IfErr result (λ why. why ≡ fail.WantOfMemory) }
        ensures sound { IfOk result (IsFlow self.now) }
        ensures within { IfOk result (StaysWithin self.now e self.now) }
    {
        Ok(Flow::Opens(boxed(self.alloc, pending)?, e))
    }

    /// A value as an array of its own.
    pub fn owned(&self, e: &Evaluation, held: StackValue) -> Result<Array, Fail>
        requires { IsStackValue self.now.workspace (parts_of e.now) held }
        ensures value { IfOk result (λ array. array ≡ stack_value self.now.workspace (parts_of e.now) held) }
        ensures refused { IfErr result (λ why. why ≡ fail.WantOfMemory) }
    {
        Ok(owned(self.alloc, held, e.parts(), &self.workspace)?)
    }

    /// Goes on with the next row: an offer, and any other row of a shared name, opens an act; the others tell zeros. Behind
    /// the last the numbers of all are the value.
    pub fn next_row(&self, e: Evaluation, rows: Rows) -> Result<Flow, Fail>
        requires sound { IsCaller self.now.workspace e }
        requires rows { AreRows self.now.workspace rows }
        ensures comes { Comes self.now (part_gives self.now e (rest_of_rows rows.numbers.items (rows_left rows) rows.shape.items)) 0 self.now result }
        ensures refused { IfErr result (λ why. why ≡ fail.WantOfMemory) }
        ensures sound { IfOk result (IsFlow self.now) }
        ensures within { IfOk result (StaysWithin self.now e self.now) }
    {
        let mut rows = rows;
        while let Some(row) = rows.next() {
            if self.opens(&row) {
                return self.open(ActPurpose::Row(rows), e);
            }
            rows.tell_zeros(row.deed.width())?;
        }
        self.give(e, StackValue::Made(rows.into_array(self.alloc)?))
    }

    // Whether a row opens an act.
    fn opens(&self, row: &NameRow) -> bool
        ensures { result ≡ asks_act self.now.workspace (plain_name_row row.now) }
    {
        match row.deed {
            Deed::Offer(_) => true,
            _ => self.workspace.is_shared(&row.names.local),
        }
    }

    /// The workspace keeps its rules.
    pub fn rules(&self)
        ensures { IsWorkspace self.now.workspace }
    {
        let _weight = self.workspace.weight();
    }
}
