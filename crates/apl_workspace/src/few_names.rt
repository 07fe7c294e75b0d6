ghost use Rattle.std.specs.Prelude.{◌≡◌, ◌+◌, ◌≤◌, ◌<◌, ◌++◌, ◌∷◌, ℕ, List as ListOf, [], Some, None, length, min, nat_le, position, slice_get, IsOk, IsSome, OnOk, OnErr, IfErr, IfSome};
ghost use Rattle.std.specs.List.Sorted.{IsStrictlySortedBy};
ghost use Rattle.std.specs.Map.{keys_of, values_of};
ghost use Rattle.std.specs.Option.{option_copied};
ghost use Rattle.apl_arrays.specs.Name.{name_order, same_name};
ghost use Rattle.apl_workspace.specs.Limits.{most_weight};
ghost use Rattle.apl_workspace.specs.Meaning.{IsFullFor, IsWhole, meaning_in, meaning_weight, table_weight, weight_in, with_meaning};
ghost use Rattle.apl_workspace.specs.Sorted.{sorted};

use crate::Meaning;
use crate::limits::WEIGHT_LIMIT;
use crate::room::reserve_one;
use apl_arrays::{Fail, Name, Report, WantOfMemory};
use std::alloc::Global;
use std::marker::Model;

/// Few names, each with what it stands for, in a list that is gone over. It is seen as the list of them that ascends by the names.
#[derive(Drop)]
pub struct FewNames {
    entries: Vec<(Name, Meaning)>,
    weight: usize,
}

impl Model for FewNames {
    ghost use Rattle.apl_workspace.specs.Meaning.{NameTable, IsTable};
    ghost use Rattle.apl_workspace.specs.Sorted.{sorted};

    ghost Value = { NameTable };

    ghost view = { λ t. sorted t.entries.items };

    ghost invariant = { λ t. IsTable t.weight (sorted t.entries.items) };
}

impl FewNames {
    /// No names.
    #[tactic(auto, using(crate::proofs::Tables::is_empty_table))]
    pub fn new(alloc: Global) -> FewNames
        ensures { result ≡ [] }
    {
        FewNames {
            entries: Vec::new(alloc),
            weight: 0,
        }
    }

    /// What a name stands for, or `None` where it is not there.
    #[tactic(auto, using(crate::proofs::InOrder::looked_up))]
    pub fn get(&self, name: &Name) -> Option<&Meaning>
        ensures value { option_copied result ≡ meaning_in self.now name.now }
        ensures whole { IfSome result (λ meaning. IsWhole name.now meaning.now) }
    {
        match place_of(&self.entries, name) {
            None => None,
            Some(at) => Some(&self.entries[at].1),
        }
    }

    /// No name is there any more. The memory stays for other names.
    pub fn clear(&mut self)
        ensures { self.new ≡ [] }
    {
        self.entries.clear();
        self.weight = 0;
    }

    /// What the names weigh.
    pub fn weight(&self) -> usize
        ensures value { result ≡ table_weight self.now }
        ensures within { result ≤ most_weight }
        ensures ascending { IsStrictlySortedBy name_order (keys_of self.now) }
    {
        self.weight
    }

    /// The name stands for this, in place of what it stood for. `WsFull` where the names would weigh more than `most`,
    /// also where there is no memory; it leaves them as they were, and so does `WantOfMemory`. It takes memory for a
    /// name that is not there yet, and for no other.
    pub fn put(&mut self, name: Name, meaning: Meaning, most: usize) -> Result<(), Fail>
        requires limit { most ≤ most_weight }
        requires whole { IsWhole name meaning }
        ensures ok { OnOk result (self.new ≡ with_meaning self.old name meaning) }
        ensures err { OnErr result (self.new ≡ self.old) }
        ensures fits { OnOk result (table_weight (with_meaning self.old name meaning) ≤ most) }
        ensures full { IfErr result (λ fail. IsFullFor most (with_meaning self.old name meaning) fail) }
        ensures granted { IsSome (meaning_in self.old name) → table_weight (with_meaning self.old name meaning) ≤ most → IsOk result }
        ensures there { IsSome (meaning_in self.old name) → IfErr result (λ fail. fail ≡ Fail.Report Report.WsFull) }
    {
        let after = meaning.weight();
        let Some(at) = place_of(&self.entries, &name) else {
            return self.put_new(name, meaning, after, most);
        };
        let weight = self.weight - self.entries[at].1.weight() + after;
        if weight > most {
            drop(meaning);
            return Err(Fail::Report(Report::WsFull));
        }
        self.weight = weight;
        self.entries[at] = (name, meaning);
        Ok(())
    }

    /// A name that is not there comes in, and stands for this, of this weight. `WsFull` where the names would weigh more
    /// than `most`; it leaves them as they were, and so does `WantOfMemory`.
    fn put_new(
        &mut self,
        name: Name,
        meaning: Meaning,
        after: usize,
        most: usize,
    ) -> Result<(), Fail>
        requires new { meaning_in self.old name ≡ None }
        requires after { after ≡ min (meaning_weight meaning) (most_weight + 1) }
        requires limit { most ≤ most_weight }
        requires whole { IsWhole name meaning }
        ensures ok { OnOk result (self.new ≡ with_meaning self.old name meaning) }
        ensures err { OnErr result (self.new ≡ self.old) }
        ensures fits { OnOk result (table_weight (with_meaning self.old name meaning) ≤ most) }
        ensures full { IfErr result (λ fail. IsFullFor most (with_meaning self.old name meaning) fail) }
    {
        let weight = self.weight + after;
        if weight > most {
            drop(meaning);
            return Err(Fail::Report(Report::WsFull));
        }
        push_entry(&mut self.entries, name, meaning)?;
        self.weight = weight;
        Ok(())
    }

    /// The name stands for this, where there is weight left for it. It takes memory for a name that is not there yet, and
    /// for no other; `WantOfMemory` leaves the names as they were.
    #[tactic(auto, using(crate::proofs::Tables::at_most_heavier))]
    pub fn put_light(&mut self, name: Name, meaning: Meaning) -> Result<(), WantOfMemory>
        requires fits { table_weight self.old + meaning_weight meaning ≤ most_weight }
        requires whole { IsWhole name meaning }
        ensures ok { OnOk result (self.new ≡ with_meaning self.old name meaning) }
        ensures err { OnErr result (self.new ≡ self.old) }
        ensures weight { OnOk result (table_weight self.new ≤ table_weight self.old + meaning_weight meaning) }
        ensures there { IsSome (meaning_in self.old name) → IsOk result }
    {
        match self.put(name, meaning, WEIGHT_LIMIT) {
            Ok(()) => Ok(()),
            Err(Fail::WantOfMemory) => Err(WantOfMemory),
            Err(Fail::Report(_)) => unreachable!(),
        }
    }

    /// Whether the names weigh at most `most` once one stands for something of this weight.
    pub fn fits(&self, name: &Name, weight: usize, most: usize) -> bool
        requires limit { most ≤ most_weight }
        requires weight { weight ≤ most_weight + 1 }
        ensures { (meaning : Meaning) → weight ≡ min (meaning_weight meaning) (most_weight + 1) → result ≡ nat_le (table_weight (with_meaning self.now name.now meaning)) most }
    {
        self.weight - self.weight_at(name) + weight <= most
    }

    #[tactic(auto, using(crate::proofs::InOrder::looked_up, crate::proofs::Tables::weight_without))]
    fn weight_at(&self, name: &Name) -> usize
        ensures value { result ≡ weight_in self.now name.now }
        ensures within { result ≤ table_weight self.now }
    {
        match place_of(&self.entries, name) {
            None => 0,
            Some(at) => self.entries[at].1.weight(),
        }
    }
}

/// The place of a name in a list.
fn place_of(entries: &Vec<(Name, Meaning)>, name: &Name) -> Option<usize>
    ensures place { result ≡ position (same_name name.now) (keys_of entries.now.items) }
    ensures within { IfSome result (λ at. at < length entries.now.items) }
    ensures value { IfSome result (λ at. slice_get (values_of entries.now.items) at ≡ meaning_in entries.now.items name.now) }
    ensures none { result ≡ None → meaning_in entries.now.items name.now ≡ None }
{
    entries.iter().position(|entry| *name == entry.0)
}

/// One entry more, of a name that is not there. `WantOfMemory` leaves the list as it was.
fn push_entry(
    entries: &mut Vec<(Name, Meaning)>,
    name: Name,
    meaning: Meaning,
) -> Result<(), WantOfMemory>
    requires new { meaning_in (sorted entries.old.items) name ≡ None }
    ensures ok { OnOk result (sorted entries.new.items ≡ with_meaning (sorted entries.old.items) name meaning) }
    ensures err { OnErr result (entries.new.items ≡ entries.old.items) }
{
    reserve_one(entries)?;
    entries.push_reserved((name, meaning));
    Ok(())
}
