ghost use Rattle.std.specs.Prelude.{◌≡◌, ◌<◌, ℕ, List as ListOf, Some, filter, if◌then◌else◌, length, not, slice_get, IfOk, OnOk};
ghost use Rattle.std.specs.BTreeSet as set;
ghost use Rattle.std.specs.List.{list_any};
ghost use Rattle.apl_workspace.specs.Meaning.{table_weight, with_meaning, without_names};
ghost use Rattle.apl_arrays.specs.Name.{name_order, same_name};
ghost use Rattle.apl_workspace.specs.Sorted.{sorted};

use super::{Table, put_in};
use crate::Meaning;
use apl_arrays::{Name, WantOfMemory};
use indexmap::IndexMap;
use std::alloc::Global;
use std::collections::BTreeSet;

impl Table {
    /// A table that is equal but for these names, which it lacks. It takes memory for them and for all that stays.
    #[tactic(auto, using(crate::proofs::Without::kept_in_order))]
    pub fn copy_without(&self, alloc: Global, names: &[Name]) -> Result<Table, WantOfMemory>
        ensures { IfOk result (λ table. table ≡ without_names self.now names.now) }
    {
        let (gone, weight) = self.weight_without(alloc, names)?;
        Ok(Table {
            names: copy_of_others(alloc, &self.names, &gone)?,
            weight,
        })
    }

    /// Names as a set, and what the table weighs without them.
    fn weight_without(
        &self,
        alloc: Global,
        names: &[Name],
    ) -> Result<(BTreeSet<Name>, usize), WantOfMemory>
        ensures names { IfOk result (λ found. (name : ListOf ℕ) → set.contains name_order found.0 name ≡ list_any (same_name name) names.now) }
        ensures weight { IfOk result (λ found. found.1 ≡ table_weight (without_names self.now names.now)) }
    {
        let mut gone = BTreeSet::new(alloc);
        let mut weight = self.weight;
        for name in names {
            if gone.insert(*name)? {
                weight -= self.weight_at(name);
            }
        }
        Ok((gone, weight))
    }
}

/// The names that are none of these, each with an equal meaning.
#[tactic(auto, using(crate::proofs::Without::copied_on))]
fn copy_of_others(
    alloc: Global,
    names: &IndexMap<Name, Meaning>,
    gone: &BTreeSet<Name>,
) -> Result<IndexMap<Name, Meaning>, WantOfMemory>
    ensures { IfOk result (λ copy. sorted copy.entries ≡ sorted (filter (λ entry. not (set.contains name_order gone.now entry.0)) names.now.entries)) }
{
    let mut copy = IndexMap::new(alloc);
    let mut at = names.len();
    while at > 0 {
        at -= 1;
        copy_entry(alloc, names, at, gone, &mut copy)?;
    }
    Ok(copy)
}

/// Puts a copy of the entry at a place in, where its name is none of these.
fn copy_entry(
    alloc: Global,
    names: &IndexMap<Name, Meaning>,
    at: usize,
    gone: &BTreeSet<Name>,
    copy: &mut IndexMap<Name, Meaning>,
) -> Result<(), WantOfMemory>
    requires { at < length names.now.entries }
    ensures { OnOk result ((entry : ListOf ℕ × Meaning) → slice_get names.now.entries at ≡ Some entry → sorted copy.new.entries ≡ (if set.contains name_order gone.now entry.0 then sorted copy.old.entries else with_meaning (sorted copy.old.entries) entry.0 entry.1)) }
{
    match names.get_index(at) {
        None => unreachable!(),
        Some((name, meaning)) => {
            if !gone.contains(name) {
                drop(put_in(copy, *name, meaning.copy(alloc)?)?);
            }
            Ok(())
        }
    }
}
