ghost use Rattle.std.specs.Prelude.{◌≡◌, IfOk, IsSome, option_map, option_to_list};
ghost use Rattle.std.specs.Option.{option_copied};
ghost use Rattle.apl_workspace.specs.Workspace.{global_in};
ghost use Rattle.apl_meaning.specs.Deeds.{value_of};
ghost use Rattle.apl_values.specs.Pending.{IsPending, act_for_purpose, plain_act_purpose};
ghost use Rattle.apl_values.specs.Rows.{deed_act, plain_deed, plain_naming, plain_name_row, rows_act};

use crate::naming::Naming;
use crate::rows::{Deed, NameRow, Rows};
use apl_arrays::{Array, Name, WantOfMemory};
use apl_selection::Subs;
use apl_workspace::{Seen, Workspace};
use std::alloc::Global;
use sv_events::{Act, copy_value};

/// What an open act is for.
#[derive(Debug, Drop)]
pub enum ActPurpose {
    /// A reference to a shared name.
    Refers(Name),
    /// A set of a shared name; behind it another value is given where there is one.
    Sets {
        name: Name,
        value: Array,
        gives: Option<Array>,
    },
    /// The use of a shared name whose items are replaced.
    Replaces {
        name: Name,
        subs: Subs,
        right: Array,
    },
    /// The next of these rows.
    Row(Rows),
    Parties,
    Names(u32),
}

impl ActPurpose {
    /// The act that is open. It takes memory for its value.
    pub fn act(&self, alloc: Global, workspace: &Workspace) -> Result<Act, WantOfMemory>
        requires { IsPending workspace.now self.now }
        ensures { IfOk result (λ act. act ≡ act_for_purpose (plain_act_purpose self.now) workspace.now) }
    {
        match self {
            ActPurpose::Refers(name) => Ok(Act::Use(*name)),
            ActPurpose::Sets { name, value, .. } => Ok(Act::Set(*name, value.copy(alloc)?)),
            ActPurpose::Replaces { name, .. } => Ok(Act::Use(*name)),
            ActPurpose::Row(rows) => act_of_row(alloc, rows.next(), workspace),
            ActPurpose::Parties => Ok(Act::AskParties),
            ActPurpose::Names(party) => Ok(Act::AskNames(*party)),
        }
    }
}

/// What an act is for, in a place of its own. It takes memory for it.
pub fn boxed(alloc: Global, pending: ActPurpose) -> Result<Box<ActPurpose>, WantOfMemory>
    ensures { IfOk result (λ boxed. boxed.value ≡ pending) }
{
    Ok(Box::new(alloc, pending)?)
}

// The act of a row.
fn act_of_row(
    alloc: Global,
    row: Option<NameRow>,
    workspace: &Workspace,
) -> Result<Act, WantOfMemory>
    requires { IsSome row }
    ensures { IfOk result (λ act. act ≡ rows_act (option_to_list (option_map plain_name_row row)) workspace.now) }
{
    match row {
        Some(row) => act_of_deed(alloc, row.names, row.deed, workspace),
        None => unreachable!(),
    }
}

// The act of a deed.
fn act_of_deed(
    alloc: Global,
    names: Naming,
    deed: Deed,
    workspace: &Workspace,
) -> Result<Act, WantOfMemory>
    ensures { IfOk result (λ act. act ≡ deed_act (plain_deed deed) (plain_naming names) workspace.now) }
{
    match deed {
        Deed::Offer(to) => Ok(Act::Offer {
            to,
            local: names.local,
            surrogate: names.surrogate,
            value: copy_value(alloc, global_value(workspace, &names.local))?,
        }),
        Deed::AskDegree => Ok(Act::AskDegree(names.local)),
        Deed::SetControl(control) => Ok(Act::SetControl(names.local, control)),
        Deed::AskControl => Ok(Act::AskControl(names.local)),
        Deed::AskState => Ok(Act::AskState(names.local)),
        Deed::Retract => Ok(Act::Retract(names.local)),
    }
}

/// The value that a global name has, shared or not.
pub fn global_value<'a>(workspace: &'a Workspace, name: &Name) -> Option<&'a Array>
    ensures { option_copied result ≡ value_of (global_in workspace.now name.now) }
{
    match workspace.global(name) {
        Seen::Value(value) => Some(value),
        Seen::Shared(copy) => copy,
        _ => None,
    }
}
