ghost use Rattle.std.specs.Prelude.{◌≡◌, ◌≤◌, None, IsOk, length, map, option_copied};
ghost use Rattle.apl_arrays.specs.Limits.{most_axes};
ghost use Rattle.apl_items.specs.Answers.{Answers, first_report};
ghost use Rattle.apl_items.specs.Places.{OnWantOfMemory};
ghost use Rattle.apl_selection.specs.Indexing.{index_faults, selection_of};
ghost use Rattle.apl_selection.specs.Assignment.{assign_faults, assign_of};
ghost use Rattle.apl_statements.specs.Sound.{IsEvaluation};
ghost use Rattle.apl_subscripts.specs.Held.{behind_subs, replaced_by, subs_held};

use crate::held::{given_count, lent_subs, value_behind};
use apl_arrays::{Array, Fail, RANK_LIMIT, Report};
use apl_selection::{Subs, index, index_assign};
use apl_statements::Evaluation;
use apl_workspace::Workspace;
use arrayvec::ArrayVec;
use std::alloc::Global;

/// The items of an array that subscripts select which a statement holds: its newest values, in their order, but for those that
/// are omitted. Reports and memory are those of `index`.
#[tactic(auto, using(crate::proofs::HeldLemmas::no_selection))]
pub fn index_held(
    alloc: Global,
    b: &Array,
    e: &Evaluation,
    places: &[Option<u64>],
    workspace: &Workspace,
) -> Result<Array, Fail>
    requires { IsEvaluation workspace.now e.now }
    ensures answer { Answers result (selection_of b.now (subs_held workspace.now e.now places.now)) }
    ensures memory { OnWantOfMemory result (first_report (index_faults b.now (subs_held workspace.now e.now places.now)) ≡ None) }
{
    if places.len() != b.shape().len() {
        return Err(Fail::Report(Report::Rank));
    }
    let subs = lent_subs(e, places, workspace);
    index(alloc, b, subs.as_slice())
}

/// An array whose items that such subscripts select are replaced by the value behind them. VALUE ERROR where there is none; else
/// reports and memory are those of `index_assign`.
pub fn items_replaced(
    alloc: Global,
    a: &Array,
    e: &Evaluation,
    places: &[Option<u64>],
    workspace: &Workspace,
) -> Result<Array, Fail>
    requires { IsEvaluation workspace.now e.now }
    ensures answer { Answers result (replaced_by a.now (subs_held workspace.now e.now places.now) (behind_subs workspace.now e.now places.now)) }
    ensures memory { OnWantOfMemory result (IsOk (replaced_by a.now (subs_held workspace.now e.now places.now) (behind_subs workspace.now e.now places.now))) }
{
    match value_behind(e, given_count(places), workspace) {
        None => Err(Fail::Report(Report::Value)),
        Some(right) => replaced_by(alloc, a, e, places, workspace, right),
    }
}

/// The same by a right side.
#[tactic(auto, using(crate::proofs::HeldLemmas::none_replaced))]
fn replaced_by(
    alloc: Global,
    a: &Array,
    e: &Evaluation,
    places: &[Option<u64>],
    workspace: &Workspace,
    right: &Array,
) -> Result<Array, Fail>
    requires { IsEvaluation workspace.now e.now }
    ensures answer { Answers result (assign_of a.now (subs_held workspace.now e.now places.now) right.now) }
    ensures memory { OnWantOfMemory result (first_report (assign_faults a.now (subs_held workspace.now e.now places.now) right.now) ≡ None) }
{
    if places.len() != a.shape().len() {
        return Err(Fail::Report(Report::Rank));
    }
    let subs = lent_subs(e, places, workspace);
    index_assign(alloc, a, subs.as_slice(), right)
}

/// An array whose items that subscripts select are replaced. Reports and memory are those of `index_assign`.
#[tactic(auto, using(crate::proofs::HeldLemmas::none_assigned))]
pub fn items_assigned(alloc: Global, a: &Array, subs: &Subs, right: &Array) -> Result<Array, Fail>
    ensures answer { Answers result (assign_of a.now subs.now.items right.now) }
    ensures memory { OnWantOfMemory result (first_report (assign_faults a.now subs.now.items right.now) ≡ None) }
{
    let list = subs.as_slice();
    if list.len() != a.shape().len() {
        return Err(Fail::Report(Report::Rank));
    }
    let lent = lent_list(list);
    index_assign(alloc, a, lent.as_slice(), right)
}

/// As many subscripts as an array may have axes, lent.
fn lent_list(subs: &[Option<Array>]) -> ArrayVec<Option<&Array>, RANK_LIMIT>
    requires { length subs.now ≤ most_axes }
    ensures { map option_copied result.items ≡ subs.now }
{
    let mut lent = ArrayVec::new();
    for sub in subs {
        lent.push(sub.as_ref());
    }
    lent
}
