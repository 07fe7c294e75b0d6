ghost use Rattle.std.specs.Prelude.{◌≡◌, ◌↔◌, [], IsTrue, IsSome, IfOk, IsOk, OnOk, OnErr};
ghost use Rattle.apl_arrays.specs.Storage.{lone_number};
ghost use Rattle.apl_arrays.specs.Array.{plain_items, seen_items, item_count, numbers_in};

use crate::{Glyph, Line, List, NumberList, WantOfMemory};
use std::alloc::Global;

/// The items of an array, in row-major order.
#[derive(Debug, Drop)]
pub enum Items {
    Numbers(NumberList),
    Chars(Line),
}

/// The items of an array as they are looked at, in row-major order.
#[derive(Clone, Copy, Debug)]
pub enum ItemsRef<'a> {
    Numbers(&'a [i64]),
    Chars(&'a [Glyph]),
}

/// One item of an array.
#[derive(Clone, Copy, Debug, PartialEq, Eq, Hash)]
pub enum Item {
    Number(i64),
    Char(Glyph),
}

impl Items {
    /// The items, to be looked at.
    pub fn view(&self) -> ItemsRef<'_>
        ensures { seen_items result ≡ plain_items self.now }
    {
        match self {
            Items::Numbers(list) => ItemsRef::Numbers(list.as_slice()),
            Items::Chars(list) => ItemsRef::Chars(list.as_slice()),
        }
    }

    /// How many items there are. ISO 8485.
    pub fn len(&self) -> usize
        ensures { result ≡ item_count (plain_items self.now) }
    {
        self.view().len()
    }

    /// Equal items. It takes memory for them, but for one number alone. ISO 8485.
    pub fn copy(&self, alloc: Global) -> Result<Items, WantOfMemory>
        ensures items { IfOk result (λ items. plain_items items ≡ plain_items self.now) }
        ensures granted { IsSome (lone_number [] (plain_items self.now)) → IsOk result }
    {
        self.view().copy(alloc)
    }

    /// Become equal to others. Where they are of the others' kind and as many it takes no memory, else it may take memory
    /// for them. `WantOfMemory` leaves them as they were.
    pub fn renew(&mut self, alloc: Global, other: &Items) -> Result<(), WantOfMemory>
        ensures ok { OnOk result (plain_items self.new ≡ plain_items other.now) }
        ensures err { OnErr result (self.new ≡ self.old) }
    {
        match other {
            Items::Numbers(numbers) => match self {
                Items::Numbers(list) => list.renew(alloc, numbers),
                Items::Chars(_) => self.become_copy(alloc, other),
            },
            Items::Chars(glyphs) => match self {
                Items::Chars(list) => list.renew(alloc, glyphs),
                Items::Numbers(_) => self.become_copy(alloc, other),
            },
        }
    }

    // Become a copy of others. It takes memory for them. `WantOfMemory` leaves them as they were.
    fn become_copy(&mut self, alloc: Global, other: &Items) -> Result<(), WantOfMemory>
        ensures ok { OnOk result (plain_items self.new ≡ plain_items other.now) }
        ensures err { OnErr result (self.new ≡ self.old) }
    {
        *self = other.copy(alloc)?;
        Ok(())
    }
}

impl<'a> ItemsRef<'a> {
    /// How many items there are. ISO 8485.
    pub fn len(self) -> usize
        ensures { result ≡ item_count (seen_items self.entry) }
    {
        match self {
            ItemsRef::Numbers(numbers) => numbers.len(),
            ItemsRef::Chars(glyphs) => glyphs.len(),
        }
    }

    /// Whether there are none. ISO 8485.
    pub fn is_empty(self) -> bool
        ensures { IsTrue result ↔ (item_count (seen_items self.entry) ≡ 0) }
    {
        self.len() == 0
    }

    /// The numbers; none where the kind is characters.
    pub fn numbers(self) -> &'a [i64]
        ensures { result.now ≡ numbers_in (seen_items self.entry) }
    {
        match self {
            ItemsRef::Numbers(numbers) => numbers,
            ItemsRef::Chars(_) => &[],
        }
    }

    /// Equal items. It takes memory for them, but for one number alone. ISO 8485.
    pub fn copy(self, alloc: Global) -> Result<Items, WantOfMemory>
        ensures items { IfOk result (λ items. plain_items items ≡ seen_items self.entry) }
        ensures granted { IsSome (lone_number [] (seen_items self.entry)) → IsOk result }
    {
        match self {
            ItemsRef::Numbers(numbers) => Ok(Items::Numbers(NumberList::of(alloc, numbers)?)),
            ItemsRef::Chars(glyphs) => Ok(Items::Chars(List::of(alloc, glyphs)?)),
        }
    }
}

impl PartialEq for ItemsRef<'_> {
    ghost use Rattle.std.specs.Ordering.{on};
    ghost use Rattle.apl_arrays.specs.Array.{seen_items, same_items};
    ghost use Rattle.std.specs.Cmp.Rules.{comparing};
    ghost use Rattle.std.proofs.Common.{rules};

    ghost eq = { on seen_items same_items };

    ghost laws = { Prim.search (comparing, rules) depth 9 };

    fn eq(&self, other: &ItemsRef<'_>) -> bool {
        match (self, other) {
            (ItemsRef::Numbers(a), ItemsRef::Numbers(b)) => *a == *b,
            (ItemsRef::Chars(a), ItemsRef::Chars(b)) => *a == *b,
            _ => false,
        }
    }
}

impl Eq for ItemsRef<'_> {
    ghost use Rattle.std.specs.Cmp.Rules.{comparing};
    ghost use Rattle.std.proofs.Common.{rules};

    ghost laws = { Prim.search (comparing, rules) depth 9 };
}
