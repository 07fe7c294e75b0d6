ghost use Rattle.std.specs.Prelude.{◌≡◌, [], All, IfErr, IfOk, map};
ghost use Rattle.apl_arrays.specs.Array.{FitsLimits, element_count};
ghost use Rattle.apl_arrays.specs.declared.report.Fail.TheVariants as fail;
ghost use Rattle.apl_meaning.specs.Naming.{result_shape};
ghost use Rattle.apl_meaning.specs.State.{State};
ghost use Rattle.apl_values.specs.Rows.{RowMayBeDone, count_told, plain_name_row, rest_of_rows};
ghost use Rattle.apl_statements.specs.Moves.{Comes, part_gives};
ghost use Rattle.apl_statements.specs.Sound.{IsCaller, IsFlow};
ghost use Rattle.apl_statements.specs.Work.{StaysWithin};
ghost use Rattle.apl_acts.specs.Asking.{MayBeAsked, asked_part};

use apl_arrays::{Array, Fail};
use apl_statements::{Evaluation, Flow, Interpreter};
use apl_values::{ActPurpose, NameRow, Rows};

/// What a system function asks where nothing is wrong: rows of names that are done first to last, the parties with open offers,
/// or the names that a party offers.
#[derive(Debug, Drop)]
pub enum Asking {
    Rows(Rows),
    Parties,
    Names(u32),
}

/// It is asked, and the statement goes on. It takes memory for what each act is for.
pub fn ask(interpreter: &Interpreter, e: Evaluation, what: Asking) -> Result<Flow, Fail>
    requires sound { IsCaller interpreter.now.workspace e }
    requires may { MayBeAsked interpreter.now.workspace what }
    ensures comes { Comes interpreter.now (part_gives interpreter.now e (asked_part what)) 0 interpreter.now result }
    ensures refused { IfErr result (λ why. why ≡ fail.WantOfMemory) }
    ensures sound { IfOk result (IsFlow interpreter.now) }
    ensures within { IfOk result (StaysWithin interpreter.now e interpreter.now) }
{
    match what {
        Asking::Rows(rows) => interpreter.next_row(e, rows),
        Asking::Parties => interpreter.open(ActPurpose::Parties, e),
        Asking::Names(party) => interpreter.open(ActPurpose::Names(party), e),
    }
}

/// Rows are to be done, first to last. It takes memory for the shape of the result.
pub fn rows_asked(
    interpreter: &Interpreter,
    rows: Vec<NameRow>,
    n: &Array,
    each: &[u32],
) -> Result<Asking, Fail>
    requires may { All (RowMayBeDone interpreter.now.workspace) (map plain_name_row rows.items) }
    requires fits { FitsLimits (result_shape n.now each.now) }
    requires count { element_count (result_shape n.now each.now) ≡ count_told (map plain_name_row rows.items) }
    ensures may { IfOk result (MayBeAsked interpreter.now.workspace) }
    ensures rows { IfOk result (λ what. (s : State) → asked_part what s ≡ rest_of_rows [] (map plain_name_row rows.items) (result_shape n.now each.now) s) }
    ensures refused { IfErr result (λ why. why ≡ fail.WantOfMemory) }
{
    Ok(Asking::Rows(Rows::new(interpreter.alloc, rows, n, each)?))
}
