ghost use Rattle.std.specs.Prelude.{◌≡◌, ◌<◌, ◌≤◌, ℕ, List, Some, count_by, is_some, length, map, slice_get, take};
ghost use Rattle.std.specs.Option.{option_copied};
ghost use Rattle.apl_arrays.specs.Limits.{most_axes};
ghost use Rattle.line_trees.specs.Nodes.{plain_node};
ghost use Rattle.line_trees.specs.declared.tree.Node.TheVariants as node;
ghost use Rattle.apl_meaning.specs.Nodes.{popped};
ghost use Rattle.apl_selection.specs.Subscripts.{sub_on};
ghost use Rattle.apl_values.specs.Parts.{plain_part};
ghost use Rattle.apl_statements.specs.Holding.{IsWithValues, stack_values};
ghost use Rattle.apl_statements.specs.Sound.{IsEvaluation};
ghost use Rattle.apl_subscripts.specs.Held.{places_at, places_in, subs_held};
ghost use Rattle.apl_workspace.specs.Workspace.{PlainWorkspace};

use apl_arrays::{Array, RANK_LIMIT};
use apl_statements::Evaluation;
use apl_values::{Part, array_of};
use apl_workspace::Workspace;
use arrayvec::ArrayVec;
use line_trees::{Node, Places};

/// How many subscripts are given.
pub fn given_count(places: &[Option<u64>]) -> usize
    ensures { result ≡ count_by is_some places.now }
{
    places.iter().filter(|place| place.is_some()).count()
}

/// The value that a statement holds behind so many newer ones, if there is one.
pub(crate) fn value_behind<'a>(
    e: &'a Evaluation,
    newer: usize,
    workspace: &'a Workspace,
) -> Option<&'a Array>
    requires { IsEvaluation workspace.now e.now }
    ensures { option_copied result ≡ slice_get (stack_values workspace.now e.now) newer }
{
    let count = e.values.len();
    if newer < count {
        Some(array_of(&e.values[count - 1 - newer], e.parts(), workspace))
    } else {
        None
    }
}

/// The subscript of an axis, if it is given.
fn sub_held<'a>(
    e: &'a Evaluation,
    places: &[Option<u64>],
    axis: usize,
    workspace: &'a Workspace,
) -> Option<&'a Array>
    requires sound { IsEvaluation workspace.now e.now }
    requires axis { axis < length places.now }
    ensures { option_copied result ≡ sub_on (subs_held workspace.now e.now places.now) axis }
{
    if places[axis].is_some() {
        value_behind(e, given_count(&places[..axis]), workspace)
    } else {
        None
    }
}

/// The subscripts that a statement holds, for as many places as an array may have axes.
pub(crate) fn lent_subs<'a>(
    e: &'a Evaluation,
    places: &[Option<u64>],
    workspace: &'a Workspace,
) -> ArrayVec<Option<&'a Array>, RANK_LIMIT>
    requires sound { IsEvaluation workspace.now e.now }
    requires few { length places.now ≤ most_axes }
    ensures { map option_copied result.items ≡ subs_held workspace.now e.now places.now }
{
    let mut subs = ArrayVec::new();
    for axis in 0..places.len() {
        subs.push(sub_held(e, places, axis, workspace));
    }
    subs
}

/// The places between the brackets of a part: of an indexing, or of an assignment to items.
pub fn places_at(e: &Evaluation, at: usize) -> &[Option<u64>]
    ensures { result.now ≡ places_at e.now at }
{
    match e.parts().get(at) {
        None => &[],
        Some(part) => places_in(part),
    }
}

fn places_in(part: &Part) -> &[Option<u64>]
    ensures { result.now ≡ places_in (Some (plain_part part.now)) }
{
    match part {
        Part::Constant(_) => &[],
        Part::Other(node) => places_of(node),
    }
}

fn places_of(node: &Node) -> &[Option<u64>]
    ensures { result.now ≡ places_in (Some (plain_node node.now)) }
{
    match node {
        Node::Indexed { subs, .. } => subs.as_slice(),
        Node::Assign { subs, .. } => replaced_places(subs),
        _ => &[],
    }
}

fn replaced_places(subs: &Option<Places>) -> &[Option<u64>]
    ensures { (name : List ℕ) (right : ℕ) → result.now ≡ places_in (Some (plain_node (node.Assign name subs.now right))) }
{
    match subs {
        None => &[],
        Some(places) => places.as_slice(),
    }
}

/// Lets go of the subscripts of a part at the front, where they are given.
#[tactic(auto, using(crate::proofs::HeldLemmas::left_behind, crate::proofs::HeldLemmas::left_sound))]
pub fn let_go_of_subs(e: &mut Evaluation, at: usize)
    ensures rest { (w : PlainWorkspace) → stack_values w e.new ≡ (popped (places_at e.old at) (stack_values w e.old)).values }
    ensures same { e.new ≡ record e.old { values = e.new.values } }
    ensures sound { (w : PlainWorkspace) → IsEvaluation w e.old → IsEvaluation w e.new }
{
    let given = given_count(places_at(e, at));
    let left = e.values.len().saturating_sub(given);
    keep_oldest(e, left);
}

/// Only the oldest values of a statement stay, so many.
fn keep_oldest(e: &mut Evaluation, count: usize)
    ensures { IsWithValues e.old (take count e.old.values.items) e.new }
{
    e.values.truncate(count);
}
