ghost use Rattle.std.specs.Prelude.{◌≡◌, ◌==◌, ◌+◌, ◌<◌, ◌≤◌, ◌++◌, ◌∷◌, ℕ, List as ListOf, [], Some, None, filter, min, if◌then◌else◌, true, length, nat_le, position, slice_get, unwrap_or, IsOk, IsSome, OnOk, OnErr, IfErr, IfOk, IfSome};
ghost use Rattle.std.specs.List.{IsDistinct};
ghost use Rattle.std.specs.List.Sorted.{IsStrictlySortedBy};
ghost use Rattle.apl_arrays.specs.Name.{name_order, same_name};
ghost use Rattle.std.specs.Map.{keys_of, values_of};
ghost use Rattle.std.specs.Option.{option_copied};
ghost use Rattle.apl_workspace.specs.Limits.{most_weight};
ghost use Rattle.apl_workspace.specs.Listing.{AreNamesOf, is_wanted, names_among};
ghost use Rattle.apl_workspace.specs.Meaning.{IsFullFor, IsWhole, is_shared_in, meaning_in, meaning_weight, own_copy_in, shared_copy, table_weight, weight_in, with_meaning, with_value_or_none, without_name};
ghost use Rattle.apl_workspace.specs.Sorted.{sorted};

mod copying;

use crate::limits::WEIGHT_LIMIT;
use crate::{Meaning, What};
use apl_arrays::{Array, Fail, List, Name, NameList, Report, WantOfMemory};
use indexmap::IndexMap;
use std::alloc::Global;
use std::marker::Model;
use std::mem::replace;

// So few names are gone over one by one.
const FEW: usize = 8;

/// Names, each with what it stands for. It is seen as the list of them that ascends by the names.
#[derive(Drop)]
pub struct Table {
    names: IndexMap<Name, Meaning>,
    weight: usize,
}

impl Model for Table {
    ghost use Rattle.apl_workspace.specs.Meaning.{NameTable, IsTable};
    ghost use Rattle.apl_workspace.specs.Sorted.{sorted};

    ghost Value = { NameTable };

    ghost view = { λ t. sorted t.names.entries };

    ghost invariant = { λ t. IsTable t.weight (sorted t.names.entries) };
}

impl Table {
    /// No names.
    #[tactic(auto, using(crate::proofs::Tables::is_empty_table))]
    pub fn new(alloc: Global) -> Table
        ensures { result ≡ [] }
    {
        Table {
            names: IndexMap::new(alloc),
            weight: 0,
        }
    }

    /// What a name stands for, or `None` where the table does not have it.
    #[tactic(auto, using(crate::proofs::InOrder::looked_up))]
    pub fn get(&self, name: &Name) -> Option<&Meaning>
        ensures value { option_copied result ≡ meaning_in self.now name.now }
        ensures whole { IfSome result (λ meaning. IsWhole name.now meaning.now) }
    {
        match place_in(&self.names, name) {
            None => None,
            Some(at) => Some(&self.names[at]),
        }
    }

    /// No name is there any more. The memory stays for other names.
    pub fn clear(&mut self)
        ensures { self.new ≡ [] }
    {
        self.names.clear();
        self.weight = 0;
    }

    /// What the names weigh.
    pub fn weight(&self) -> usize
        ensures value { result ≡ table_weight self.now }
        ensures within { result ≤ most_weight }
        ensures ascending { IsStrictlySortedBy name_order (keys_of self.now) }
    {
        self.weight
    }

    /// The name stands for this, in place of what it stood for. `WsFull` where the table would weigh more than `most`,
    /// also where there is no memory; it leaves the table as it was, and so does `WantOfMemory`. It takes memory for a
    /// name that is not there yet, and for no other.
    pub fn put(&mut self, name: Name, meaning: Meaning, most: usize) -> Result<(), Fail>
        requires limit { most ≤ most_weight }
        requires whole { IsWhole name meaning }
        ensures ok { OnOk result (self.new ≡ with_meaning self.old name meaning) }
        ensures err { OnErr result (self.new ≡ self.old) }
        ensures fits { OnOk result (table_weight (with_meaning self.old name meaning) ≤ most) }
        ensures full { IfErr result (λ fail. IsFullFor most (with_meaning self.old name meaning) fail) }
        ensures granted { IsSome (meaning_in self.old name) → table_weight (with_meaning self.old name meaning) ≤ most → IsOk result }
        ensures there { IsSome (meaning_in self.old name) → IfErr result (λ fail. fail ≡ Fail.Report Report.WsFull) }
    {
        let after = meaning.weight();
        let Some(at) = place_in(&self.names, &name) else {
            return self.put_new(name, meaning, after, most);
        };
        let weight = self.weight - self.names[at].weight() + after;
        if weight > most {
            drop(meaning);
            return Err(Fail::Report(Report::WsFull));
        }
        self.weight = weight;
        self.names[at] = meaning;
        Ok(())
    }

    /// A name that is not there comes in, and stands for this, of this weight. `WsFull` where the table would weigh more
    /// than `most`; it leaves the table as it was, and so does `WantOfMemory`.
    fn put_new(
        &mut self,
        name: Name,
        meaning: Meaning,
        after: usize,
        most: usize,
    ) -> Result<(), Fail>
        requires new { meaning_in self.old name ≡ None }
        requires after { after ≡ min (meaning_weight meaning) (most_weight + 1) }
        requires limit { most ≤ most_weight }
        requires whole { IsWhole name meaning }
        ensures ok { OnOk result (self.new ≡ with_meaning self.old name meaning) }
        ensures err { OnErr result (self.new ≡ self.old) }
        ensures fits { OnOk result (table_weight (with_meaning self.old name meaning) ≤ most) }
        ensures full { IfErr result (λ fail. IsFullFor most (with_meaning self.old name meaning) fail) }
    {
        let weight = self.weight + after;
        if weight > most {
            drop(meaning);
            return Err(Fail::Report(Report::WsFull));
        }
        drop(put_in(&mut self.names, name, meaning)?);
        self.weight = weight;
        Ok(())
    }

    /// The name stands for this, where there is weight left for it. It takes memory for a name that is not there yet, and
    /// for no other; `WantOfMemory` leaves the table as it was.
    #[tactic(auto, using(crate::proofs::Tables::at_most_heavier))]
    pub fn put_light(&mut self, name: Name, meaning: Meaning) -> Result<(), WantOfMemory>
        requires fits { table_weight self.old + meaning_weight meaning ≤ most_weight }
        requires whole { IsWhole name meaning }
        ensures ok { OnOk result (self.new ≡ with_meaning self.old name meaning) }
        ensures err { OnErr result (self.new ≡ self.old) }
        ensures weight { OnOk result (table_weight self.new ≤ table_weight self.old + meaning_weight meaning) }
        ensures there { IsSome (meaning_in self.old name) → IsOk result }
    {
        match self.put(name, meaning, WEIGHT_LIMIT) {
            Ok(()) => Ok(()),
            Err(Fail::WantOfMemory) => Err(WantOfMemory),
            Err(Fail::Report(_)) => unreachable!(),
        }
    }

    /// The name stands for this, which weighs nothing. It takes memory for a name that is not there yet, and for no other;
    /// `WantOfMemory` leaves the table as it was.
    pub fn put_weightless(&mut self, name: Name, meaning: Meaning) -> Result<(), WantOfMemory>
        requires weightless { meaning_weight meaning ≡ 0 }
        requires whole { IsWhole name meaning }
        ensures ok { OnOk result (self.new ≡ with_meaning self.old name meaning) }
        ensures err { OnErr result (self.new ≡ self.old) }
        ensures weight { OnOk result (table_weight self.new ≤ table_weight self.old) }
        ensures there { IsSome (meaning_in self.old name) → IsOk result }
    {
        let _ = &self.names;
        self.put_light(name, meaning)
    }

    /// Takes a name out, and hands out what it stood for.
    #[tactic(auto, using(crate::proofs::InOrder::looked_up, crate::proofs::InOrder::taken_in_order))]
    pub fn remove(&mut self, name: &Name) -> Option<Meaning>
        ensures value { result ≡ meaning_in self.old name.now }
        ensures others { self.new ≡ without_name self.old name.now }
    {
        let before = self.weight_at(name);
        self.weight -= before;
        self.names.swap_remove(name)
    }

    /// A shared name is shared no more, and has the value handed in, or is not there where none is. Where the table
    /// would weigh more than `most` with that value, the name has its own copy, or is not there where it has none.
    #[tactic(auto, using(crate::proofs::Tables::erasing_is_lighter))]
    pub fn unshare(&mut self, name: &Name, value: Option<Array>, most: usize)
        requires shared { is_shared_in self.old name.now ≡ true }
        requires limit { most ≤ most_weight }
        requires within { table_weight self.old ≤ most }
        ensures fits { table_weight (with_value_or_none self.old name.now value) ≤ most → self.new ≡ with_value_or_none self.old name.now value }
        ensures heavy { most < table_weight (with_value_or_none self.old name.now value) → self.new ≡ with_value_or_none self.old name.now (own_copy_in self.old name.now) }
        ensures weight { table_weight self.new ≤ most }
    {
        match value {
            None => drop(self.remove(name)),
            Some(value) => match self.put(*name, Meaning::Value(value), most) {
                Ok(()) => {}
                Err(_) => self.keep_copy(name),
            },
        }
    }

    /// A shared name has its own copy as its value, or is not there where it has none.
    pub fn keep_copy(&mut self, name: &Name)
        requires { is_shared_in self.old name.now ≡ true }
        ensures value { self.new ≡ with_value_or_none self.old name.now (own_copy_in self.old name.now) }
        ensures weight { table_weight self.new ≤ table_weight self.old }
    {
        let _ = &self.names;
        match own_copy(self.swap(name, Meaning::Nothing)) {
            None => drop(self.remove(name)),
            Some(copy) => drop(self.swap(name, Meaning::Value(copy))),
        }
    }

    /// A name that is there stands for this, and what it stood for is handed out.
    fn swap(&mut self, name: &Name, meaning: Meaning) -> Option<Meaning>
        requires there { IsSome (meaning_in self.old name.now) }
        requires fits { table_weight (with_meaning self.old name.now meaning) ≤ most_weight }
        requires whole { IsWhole name.now meaning }
        ensures before { result ≡ meaning_in self.old name.now }
        ensures value { self.new ≡ with_meaning self.old name.now meaning }
    {
        let after = meaning.weight();
        match self.names.get_mut(name) {
            None => unreachable!(),
            Some(there) => {
                self.weight = self.weight - there.weight() + after;
                Some(replace(there, meaning))
            }
        }
    }

    /// The names that stand for what is asked, ascending. It takes memory for them.
    #[tactic(auto, using(crate::proofs::Listed::gathered))]
    pub fn names_among(&self, alloc: Global, what: What) -> Result<NameList, WantOfMemory>
        ensures { IfOk result (λ names. names.items ≡ names_among what self.now) }
    {
        let mut names = collected(alloc, &self.names, Some(what))?;
        names.sort()?;
        Ok(List::from(names))
    }

    /// All names, in no order.
    #[tactic(auto, using(crate::proofs::Listed::unordered))]
    pub fn unordered_names(&self) -> &[Name]
        ensures { AreNamesOf self.now result.now }
    {
        self.names.keys().as_slice()
    }

    /// All names, ascending. It takes memory for them.
    #[tactic(auto, using(crate::proofs::Listed::all_gathered))]
    pub fn all_names(&self, alloc: Global) -> Result<NameList, WantOfMemory>
        ensures { IfOk result (λ names. names.items ≡ keys_of self.now) }
    {
        let mut names = collected(alloc, &self.names, None)?;
        names.sort()?;
        Ok(List::from(names))
    }

    /// Whether the table weighs at most `most` once a name stands for something of this weight.
    pub fn fits(&self, name: &Name, weight: usize, most: usize) -> bool
        requires limit { most ≤ most_weight }
        requires weight { weight ≤ most_weight + 1 }
        ensures { (meaning : Meaning) → weight ≡ min (meaning_weight meaning) (most_weight + 1) → result ≡ nat_le (table_weight (with_meaning self.now name.now meaning)) most }
    {
        self.weight - self.weight_at(name) + weight <= most
    }

    #[tactic(auto, using(crate::proofs::InOrder::looked_up, crate::proofs::Tables::weight_without))]
    fn weight_at(&self, name: &Name) -> usize
        ensures value { result ≡ weight_in self.now name.now }
        ensures within { result ≤ table_weight self.now }
    {
        match place_in(&self.names, name) {
            None => 0,
            Some(at) => self.names[at].weight(),
        }
    }
}

/// The place of a name. Few names are gone over one by one, and more are found by their hash.
#[tactic(auto, using(crate::proofs::Scanned::place_within, crate::proofs::Scanned::place_value, crate::proofs::Scanned::no_place_found))]
fn place_in(names: &IndexMap<Name, Meaning>, name: &Name) -> Option<usize>
    ensures place { result ≡ position (same_name name.now) (keys_of names.now.entries) }
    ensures within { IfSome result (λ at. at < length names.now.entries) }
    ensures value { IfSome result (λ at. slice_get (values_of names.now.entries) at ≡ meaning_in names.now.entries name.now) }
    ensures none { result ≡ None → meaning_in names.now.entries name.now ≡ None }
{
    if names.len() > FEW {
        names.get_index_of(name)
    } else {
        place_among(names.keys().as_slice(), name)
    }
}

/// The place of a name in a list.
fn place_among(names: &[Name], name: &Name) -> Option<usize>
    ensures { result ≡ position (same_name name.now) names.now }
{
    names.iter().position(|other| *name == *other)
}

/// The name stands for this, and what it stood for is handed out. `WantOfMemory` leaves the names as they were, and
/// comes only for a new one.
#[tactic(auto, using(crate::proofs::InOrder::put_in_order, crate::proofs::InOrder::there_among, crate::proofs::InOrder::looked_up))]
fn put_in(
    names: &mut IndexMap<Name, Meaning>,
    name: Name,
    meaning: Meaning,
) -> Result<Option<Meaning>, WantOfMemory>
    ensures ok { OnOk result (sorted names.new.entries ≡ with_meaning (sorted names.old.entries) name meaning) }
    ensures before { IfOk result (λ before. before ≡ meaning_in (sorted names.old.entries) name) }
    ensures err { OnErr result (names.new.entries ≡ names.old.entries) }
    ensures granted { IsSome (meaning_in (sorted names.old.entries) name) → IsOk result }
{
    Ok(names.insert(name, meaning)?)
}

/// The own copy of the value of a shared name.
fn own_copy(meaning: Option<Meaning>) -> Option<Array>
    ensures { result ≡ shared_copy (unwrap_or meaning Meaning.Nothing) }
{
    match meaning {
        Some(Meaning::Shared(copy)) => copy,
        _ => None,
    }
}

/// The names that stand for what is asked, or all where nothing is, in no order.
#[tactic(auto, using(crate::proofs::Places::collected_on))]
fn collected(
    alloc: Global,
    names: &IndexMap<Name, Meaning>,
    what: Option<What>,
) -> Result<Vec<Name>, WantOfMemory>
    ensures names { IfOk result (λ list. list.items ≡ keys_of (filter (λ entry. is_wanted what entry.1) names.now.entries)) }
    ensures apart { IsDistinct same_name (keys_of names.now.entries) }
{
    let mut list = Vec::new(alloc);
    for at in 0..names.len() {
        collect_name(names, at, what, &mut list)?;
    }
    Ok(list)
}

/// Adds the name at a place, where it stands for what is asked.
fn collect_name(
    names: &IndexMap<Name, Meaning>,
    at: usize,
    what: Option<What>,
    list: &mut Vec<Name>,
) -> Result<(), WantOfMemory>
    requires { at < length names.now.entries }
    ensures { OnOk result ((entry : ListOf ℕ × Meaning) → slice_get names.now.entries at ≡ Some entry → list.new.items ≡ (if is_wanted what entry.1 then list.old.items ++ entry.0 ∷ [] else list.old.items)) }
{
    match names.get_index(at) {
        None => unreachable!(),
        Some((name, meaning)) => {
            if is_wanted(what, meaning) {
                list.push(*name)?;
            }
            Ok(())
        }
    }
}

fn is_wanted(what: Option<What>, meaning: &Meaning) -> bool
    ensures { result ≡ is_wanted what meaning.now }
{
    match what {
        None => true,
        Some(what) => what.is_asked(meaning),
    }
}
