ghost use Rattle.std.specs.Prelude.{◌≡◌, ◌+◌, ◌≤◌, ◌<◌, ◌++◌, ◌∷◌, ℕ, List as ListOf, [], Some, None, length, min, nat_le, position, slice_get, IsOk, IsSome, OnOk, OnErr, IfErr, IfSome};
ghost use Rattle.std.specs.List.Sorted.{IsStrictlySortedBy};
ghost use Rattle.std.specs.Map.{keys_of, values_of};
ghost use Rattle.std.specs.Option.{option_copied};
ghost use Rattle.apl_arrays.specs.Name.{name_order, same_name};
ghost use Rattle.apl_arrays.specs.declared.report.Report.TheVariants.{WsFull};
ghost use Rattle.apl_workspace.specs.Limits.{most_weight};
ghost use Rattle.apl_workspace.specs.Meaning.{IsFullFor, IsWhole, meaning_in, meaning_weight, table_weight, weight_in, with_meaning};
ghost use Rattle.apl_workspace.specs.Sorted.{sorted};

use crate::Meaning;
use crate::few_names::FewNames;
use crate::table::Table;
use apl_arrays::{Fail, Name, WantOfMemory};
use std::alloc::Global;
use std::marker::Model;

// So many names stand in a list.
const FEW: usize = 8;

/// The names of a frame, each with what it stands for: few in a list, more in a table. It is seen as the list of them that
/// ascends by the names.
#[derive(Drop)]
pub struct LocalNames {
    few: FewNames,
    many: Table,
    are_many: bool,
}

impl Model for LocalNames {
    ghost use Rattle.std.specs.Prelude.{if◌then◌else◌};
    ghost use Rattle.apl_workspace.specs.Meaning.{NameTable};

    ghost Value = { NameTable };

    ghost view = { λ t. if t.are_many then t.many else t.few };
}

impl LocalNames {
    /// No names.
    pub fn new(alloc: Global) -> LocalNames
        ensures { result ≡ [] }
    {
        LocalNames {
            few: FewNames::new(alloc),
            many: Table::new(alloc),
            are_many: false,
        }
    }

    /// What a name stands for, or `None` where the frame does not have it.
    pub fn get(&self, name: &Name) -> Option<&Meaning>
        ensures value { option_copied result ≡ meaning_in self.now name.now }
        ensures whole { IfSome result (λ meaning. IsWhole name.now meaning.now) }
    {
        if self.are_many {
            self.many.get(name)
        } else {
            self.few.get(name)
        }
    }

    /// No name is there any more, and about so many are to come. The memory stays for other names.
    pub fn clear_for(&mut self, count: usize)
        ensures { self.new ≡ [] }
    {
        self.few.clear();
        self.many.clear();
        self.are_many = count > FEW;
    }

    /// What the names weigh.
    pub fn weight(&self) -> usize
        ensures value { result ≡ table_weight self.now }
        ensures within { result ≤ most_weight }
        ensures ascending { IsStrictlySortedBy name_order (keys_of self.now) }
    {
        if self.are_many {
            self.many.weight()
        } else {
            self.few.weight()
        }
    }

    /// The name stands for this, in place of what it stood for. `WsFull` where the frame would weigh more than `most`,
    /// also where there is no memory; it leaves the frame as it was, and so does `WantOfMemory`. It takes memory for a
    /// name that is not there yet, and for no other.
    pub fn put(&mut self, name: Name, meaning: Meaning, most: usize) -> Result<(), Fail>
        requires limit { most ≤ most_weight }
        requires whole { IsWhole name meaning }
        ensures ok { OnOk result (self.new ≡ with_meaning self.old name meaning) }
        ensures err { OnErr result (self.new ≡ self.old) }
        ensures fits { OnOk result (table_weight (with_meaning self.old name meaning) ≤ most) }
        ensures full { IfErr result (λ fail. IsFullFor most (with_meaning self.old name meaning) fail) }
        ensures granted { IsSome (meaning_in self.old name) → table_weight (with_meaning self.old name meaning) ≤ most → IsOk result }
        ensures there { IsSome (meaning_in self.old name) → IfErr result (λ fail. fail ≡ Fail.Report WsFull) }
    {
        if self.are_many {
            self.many.put(name, meaning, most)
        } else {
            self.few.put(name, meaning, most)
        }
    }

    /// The name stands for this, where there is weight left for it. It takes memory for a name that is not there yet, and
    /// for no other; `WantOfMemory` leaves the frame as it was.
    pub fn put_light(&mut self, name: Name, meaning: Meaning) -> Result<(), WantOfMemory>
        requires fits { table_weight self.old + meaning_weight meaning ≤ most_weight }
        requires whole { IsWhole name meaning }
        ensures ok { OnOk result (self.new ≡ with_meaning self.old name meaning) }
        ensures err { OnErr result (self.new ≡ self.old) }
        ensures weight { OnOk result (table_weight self.new ≤ table_weight self.old + meaning_weight meaning) }
        ensures there { IsSome (meaning_in self.old name) → IsOk result }
    {
        if self.are_many {
            self.many.put_light(name, meaning)
        } else {
            self.few.put_light(name, meaning)
        }
    }

    /// The name stands for this, which weighs nothing. It takes memory for a name that is not there yet, and for no other;
    /// `WantOfMemory` leaves the frame as it was.
    pub fn put_weightless(&mut self, name: Name, meaning: Meaning) -> Result<(), WantOfMemory>
        requires weightless { meaning_weight meaning ≡ 0 }
        requires whole { IsWhole name meaning }
        ensures ok { OnOk result (self.new ≡ with_meaning self.old name meaning) }
        ensures err { OnErr result (self.new ≡ self.old) }
        ensures weight { OnOk result (table_weight self.new ≤ table_weight self.old) }
        ensures there { IsSome (meaning_in self.old name) → IsOk result }
    {
        let _weight = self.weight();
        self.put_light(name, meaning)
    }

    /// Whether the frame weighs at most `most` once a name stands for something of this weight.
    pub fn fits(&self, name: &Name, weight: usize, most: usize) -> bool
        requires limit { most ≤ most_weight }
        requires weight { weight ≤ most_weight + 1 }
        ensures { (meaning : Meaning) → weight ≡ min (meaning_weight meaning) (most_weight + 1) → result ≡ nat_le (table_weight (with_meaning self.now name.now meaning)) most }
    {
        if self.are_many {
            self.many.fits(name, weight, most)
        } else {
            self.few.fits(name, weight, most)
        }
    }
}
