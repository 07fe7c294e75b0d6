ghost use Rattle.std.specs.Prelude.{◌≡◌, ◌+◌, ◌<◌, ◌&&◌, ℕ, List as ListOf, [], Some, true, length, min, nat_le, not, slice_get, take};
ghost use Rattle.std.specs.List.{list_any};
ghost use Rattle.std.specs.Option.{option_map};
ghost use Rattle.apl_arrays.specs.Name.{same_name};
ghost use Rattle.apl_workspace.specs.Limits.{most_weight};
ghost use Rattle.apl_workspace.specs.Meaning.{meaning_weight};
ghost use Rattle.apl_workspace.specs.Names.{all_differ};
ghost use Rattle.apl_workspace.specs.Workspace.{global_in, workspace_weight};
ghost use Rattle.apl_execute.specs.Merge.{is_copied, merged, with_names};
ghost use Rattle.apl_execute.specs.Weighing.{copied_once, names_weight};

use crate::merging::has_copy;
use apl_arrays::{Name, NameList};
use apl_workspace::{Seen, WEIGHT_LIMIT, Workspace};

/// Whether a workspace weighs no more than it may with names of another copied into it: those asked for, or all.
#[tactic(auto, using(crate::proofs::Weights::same_merge))]
pub fn fits(into: &Workspace, from: &Workspace, names: Option<&NameList>) -> bool
    ensures { result ≡ nat_le (workspace_weight (merged into.now from.now (option_map (λ asked. asked.now.items) names.entry))) most_weight }
{
    let _ = into.weight();
    match names {
        None => fits_with(into, from, from.unordered_names(), true),
        Some(names) => fits_with(into, from, names.as_slice(), false),
    }
}

// The same of these names, of which some may be equal unless they are said to differ.
#[tactic(auto, using(crate::proofs::Weights::fits_by))]
fn fits_with(into: &Workspace, from: &Workspace, names: &[Name], differ: bool) -> bool
    requires { differ ≡ true → all_differ names.now ≡ true }
    ensures { result ≡ nat_le (workspace_weight (with_names into.now from.now (copied_once into.now from.now names.now))) most_weight }
{
    let goes = weight_of_copied(into, into, from, names, differ);
    let comes = weight_of_copied(from, into, from, names, differ);
    into.weight() - goes + comes <= WEIGHT_LIMIT
}

// What the names that are copied weigh in a workspace, or one more than it may weigh where that is less.
fn weight_of_copied(
    ws: &Workspace,
    into: &Workspace,
    from: &Workspace,
    names: &[Name],
    differ: bool,
) -> usize
    requires { differ ≡ true → all_differ names.now ≡ true }
    ensures { result ≡ min (names_weight ws.now (copied_once into.now from.now names.now)) (most_weight + 1) }
{
    let mut weight = 0;
    for at in 0..names.len() {
        if is_copied_at(into, from, names, at, differ) {
            weight = (weight + global_weight(ws, &names[at])).min(WEIGHT_LIMIT + 1);
        }
    }
    weight
}

// Whether the name at a place is copied, and is no name before it.
fn is_copied_at(into: &Workspace, from: &Workspace, names: &[Name], at: usize, differ: bool) -> bool
    requires inside { at < length names.now }
    requires differ { differ ≡ true → all_differ names.now ≡ true }
    ensures { (name : ListOf ℕ) → slice_get names.now at ≡ Some name → result ≡ (not (list_any (same_name name) (take at names.now)) && is_copied into.now from.now name) }
{
    let name = &names[at];
    is_new(names, at, differ) && has_copy(from.global(name)) && !into.is_shared(name)
}

// Whether the name at a place is no name before it.
fn is_new(names: &[Name], at: usize, differ: bool) -> bool
    requires inside { at < length names.now }
    requires differ { differ ≡ true → all_differ names.now ≡ true }
    ensures { (name : ListOf ℕ) → slice_get names.now at ≡ Some name → result ≡ not (list_any (same_name name) (take at names.now)) }
{
    differ || !is_among(&names[..at], &names[at])
}

fn is_among(names: &[Name], name: &Name) -> bool
    ensures { result ≡ list_any (same_name name.now) names.now }
{
    names.iter().any(|other| *name == *other)
}

// What a global name weighs, or one more than a workspace may weigh where that is less.
fn global_weight(ws: &Workspace, name: &Name) -> usize
    ensures { result ≡ min (meaning_weight (global_in ws.now name.now)) (most_weight + 1) }
{
    match ws.global(name) {
        Seen::Nothing | Seen::Label(_) | Seen::Shared(None) => 0,
        Seen::Value(value) | Seen::Shared(Some(value)) => value.items().len() + 1,
        Seen::Function(function) => function.weight(),
    }
}
