ghost use Rattle.std.specs.Prelude.{◌≡◌, ◌≤◌, Some, true, false, IfErr, OnErr, OnOk, map, if◌then◌else◌};
ghost use Rattle.apl_items.specs.Places.{OnWantOfMemory};
ghost use Rattle.apl_arrays.specs.declared.report.Fail.TheVariants as fail;
ghost use Rattle.apl_workspace.specs.Limits.{most_weight};
ghost use Rattle.apl_workspace.specs.Meaning.{is_function_meaning, is_shared_meaning};
ghost use Rattle.apl_workspace.specs.Workspace.{IsNotAssigned, assigned, global_in, is_addressee, is_assignable, is_shared, look, marked, unmarked, with_global, workspace_weight};
ghost use Rattle.apl_workspace.specs.declared.meaning.Meaning.TheVariants as meaning;
ghost use Rattle.apl_meaning.specs.Answers.{with_copy};
ghost use Rattle.apl_meaning.specs.Deeds.{value_of};
ghost use Rattle.apl_meaning.specs.Variables.{assignment};
ghost use Rattle.apl_values.specs.Values.{settled};
ghost use Rattle.apl_statements.specs.Moves.{HasDone};
ghost use Rattle.apl_statements.specs.Sound.{IsCaller};
ghost use Rattle.apl_statements.specs.Holding.{IsWithValues};

use apl_arrays::{Array, Fail, Name, Report, WantOfMemory};
use apl_statements::{Evaluation, Interpreter};
use apl_values::{Naming, global_value};
use apl_workspace::{Seen, Workspace};
use sv_events::copy_value;

/// A name that is not shared gets a value: SYNTAX ERROR for a label or a function, else WS FULL where the workspace would weigh
/// too much, each also where there is no memory. It takes memory for the name, and for the values that the statement holds of
/// names.
pub fn assign_value(
    interpreter: &mut Interpreter,
    e: &mut Evaluation,
    name: &Name,
    value: Array,
) -> Result<(), Fail>
    requires sound { IsCaller interpreter.old.workspace e.old }
    requires unshared { is_shared_meaning (look interpreter.old.workspace name.now) ≡ false }
    ensures done { HasDone interpreter.old (assignment name.now value) interpreter.new result }
    ensures memory { OnWantOfMemory result (is_assignable (look interpreter.old.workspace name.now) ≡ true) }
    ensures room { OnWantOfMemory result (workspace_weight (assigned interpreter.old.workspace name.now value) ≤ most_weight) }
    ensures fits { OnOk result (workspace_weight (assigned interpreter.old.workspace name.now value) ≤ most_weight) }
    ensures ok { OnOk result (interpreter.new ≡ record interpreter.old { workspace = assigned interpreter.old.workspace name.now value }) }
    ensures err { OnErr result (interpreter.new ≡ interpreter.old) }
    ensures settled { OnOk result (IsWithValues e.old (map (settled interpreter.old.workspace) e.old.values.items) e.new) }
{
    interpreter.rules();
    match e.settle(interpreter.alloc, &interpreter.workspace) {
        Ok(()) => assign_settled(interpreter, name, value),
        Err(WantOfMemory) => Err(not_assigned(&interpreter.workspace, name, &value)),
    }
}

/// The same where a statement holds no value of a name. It takes memory for the name.
pub fn assign_settled(interpreter: &mut Interpreter, name: &Name, value: Array) -> Result<(), Fail>
    requires unshared { is_shared_meaning (look interpreter.old.workspace name.now) ≡ false }
    ensures done { HasDone interpreter.old (assignment name.now value) interpreter.new result }
    ensures memory { OnWantOfMemory result (is_assignable (look interpreter.old.workspace name.now) ≡ true) }
    ensures room { OnWantOfMemory result (workspace_weight (assigned interpreter.old.workspace name.now value) ≤ most_weight) }
    ensures fits { OnOk result (workspace_weight (assigned interpreter.old.workspace name.now value) ≤ most_weight) }
    ensures ok { OnOk result (interpreter.new ≡ record interpreter.old { workspace = assigned interpreter.old.workspace name.now value }) }
    ensures err { OnErr result (interpreter.new ≡ interpreter.old) }
{
    interpreter.rules();
    interpreter.workspace.assign(name, value)
}

/// Why a name got no value where there was no memory: a label or a function takes none, and the workspace may weigh too much
/// with it.
pub fn not_assigned(workspace: &Workspace, name: &Name, value: &Array) -> Fail
    ensures { IsNotAssigned false (is_assignable (look workspace.now name.now)) (assigned workspace.now name.now value.now) result }
{
    if takes_values(workspace, name) {
        not_taken(workspace.takes(name, value))
    } else {
        Fail::Report(Report::Syntax)
    }
}

// Whether a value may be assigned to what the name stands for.
fn takes_values(workspace: &Workspace, name: &Name) -> bool
    ensures { result ≡ is_assignable (look workspace.now name.now) }
{
    !matches!(workspace.look(name), Seen::Function(_) | Seen::Label(_))
}

// Why a value was not taken where there was no memory, by whether it would fit.
fn not_taken(fits: bool) -> Fail
    ensures { result ≡ (if fits then Fail.WantOfMemory else Fail.Report Report.WsFull) }
{
    if fits {
        Fail::WantOfMemory
    } else {
        Fail::Report(Report::WsFull)
    }
}

/// The own copy of a shared name is this value; WS FULL where the workspace would weigh too much, also where there is no
/// memory. It takes memory for the values that the statement holds of names.
pub fn renew(
    interpreter: &mut Interpreter,
    e: &mut Evaluation,
    name: &Name,
    value: Array,
) -> Result<(), Fail>
    requires sound { IsCaller interpreter.old.workspace e.old }
    requires seen { is_shared_meaning (look interpreter.old.workspace name.now) ≡ true }
    ensures done { HasDone interpreter.old (with_copy name.now value) interpreter.new result }
    ensures ok { OnOk result (interpreter.new ≡ record interpreter.old { workspace = with_global interpreter.old.workspace name.now (meaning.Shared (Some value)) }) }
    ensures err { OnErr result (interpreter.new ≡ interpreter.old) }
    ensures settled { OnOk result (IsWithValues e.old (map (settled interpreter.old.workspace) e.old.values.items) e.new) }
    ensures seen { OnOk result (look interpreter.new.workspace name.now ≡ meaning.Shared (Some value)) }
    ensures fits { OnOk result (workspace_weight (with_global interpreter.old.workspace name.now (meaning.Shared (Some value))) ≤ most_weight) }
    ensures room { OnWantOfMemory result (workspace_weight (with_global interpreter.old.workspace name.now (meaning.Shared (Some value))) ≤ most_weight) }
{
    interpreter.rules();
    match e.settle(interpreter.alloc, &interpreter.workspace) {
        Ok(()) => interpreter.workspace.renew(name, value),
        Err(WantOfMemory) => Err(not_taken(interpreter.workspace.takes_copy(name, &value))),
    }
}

/// A name that was offered is shared from now on, with the value that it has. It takes memory for the value.
pub fn mark(interpreter: &mut Interpreter, names: Naming, to: u32) -> Result<(), Fail>
    requires addressee { is_addressee to ≡ true }
    requires no_function { is_function_meaning (global_in interpreter.old.workspace names.local) ≡ false }
    ensures ok { OnOk result (interpreter.new ≡ record interpreter.old { workspace = marked interpreter.old.workspace (record { local = names.local; surrogate = names.surrogate; to = to }) (value_of (global_in interpreter.old.workspace names.local)) }) }
    ensures err { IfErr result (λ why. why ≡ fail.WantOfMemory) }
{
    interpreter.rules();
    let value = copy_value(
        interpreter.alloc,
        global_value(&interpreter.workspace, &names.local),
    )?;
    interpreter
        .workspace
        .mark(&names.local, value, names.surrogate, to)
}

/// A name is shared no more, and has this value.
pub fn unmark(interpreter: &mut Interpreter, name: &Name, value: Option<Array>)
    requires { is_shared interpreter.old.workspace name.now ≡ true }
    ensures { interpreter.new ≡ record interpreter.old { workspace = unmarked interpreter.old.workspace name.now value } }
{
    interpreter.rules();
    interpreter.workspace.unmark(name, value);
}
