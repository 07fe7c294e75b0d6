ghost use Rattle.std.specs.Prelude.{◌≡◌, ◌+◌, ◌-◌, ◌<◌, ◌≤◌, [], ◌∷◌, ◌++◌, Some, IfOk, OnOk, OnErr, IsOk, length, insert, remove, slice_get, slice_set, vec_len, vec_capacity};
ghost use Rattle.apl_arrays.specs.List.{Listed};

use crate::{Glyph, Name, WantOfMemory};
use std::alloc::Global;
use std::marker::Model;
use std::mem;

/// A list that grows, seen as its items and the room that is left: the number of pushes that ask for no memory.
#[derive(Debug, Drop)]
pub struct List<T> {
    items: Vec<T>,
}

impl<T> Model for List<T> {
    ghost Value = { Listed T };

    ghost view = { λ l. record { items = l.items.items; room = vec_capacity l.items - vec_len l.items } };
}

impl<T> List<T> {
    /// An empty list.
    pub fn new(alloc: Global) -> Self
        ensures { result.items ≡ [] }
    {
        List {
            items: Vec::new(alloc),
        }
    }

    /// The items, in order.
    pub fn as_slice(&self) -> &[T]
        ensures { result.now ≡ self.now.items }
    {
        &self.items
    }

    /// The items as a `Vec`.
    pub fn into_vec(self) -> Vec<T>
        ensures { result.items ≡ self.items }
    {
        self.items
    }

    /// A list of the items of a slice. It takes memory for them.
    pub fn of(alloc: Global, items: &[T]) -> Result<Self, WantOfMemory>
    where
        T: Copy,
        ensures { IfOk result (λ list. list.items ≡ items.now) }
    {
        Ok(List {
            items: Vec::from_slice(alloc, items)?,
        })
    }

    /// A list of the same items. It takes memory for them.
    pub fn copy(&self, alloc: Global) -> Result<Self, WantOfMemory>
    where
        T: Copy,
        ensures { IfOk result (λ list. list.items ≡ self.now.items) }
    {
        List::of(alloc, &self.items)
    }

    /// Becomes a list of the items of another. Where it has as many already it takes no memory, else it may take memory for
    /// them. `WantOfMemory` leaves the list as it was.
    pub fn renew(&mut self, alloc: Global, other: &List<T>) -> Result<(), WantOfMemory>
    where
        T: Copy + Drop,
        ensures ok { OnOk result (self.new.items ≡ other.now.items) }
        ensures err { OnErr result (self.new ≡ self.old) }
    {
        if self.items.len() == other.items.len() {
            self.items.copy_from_slice(&other.items);
            return Ok(());
        }
        self.items = Vec::from_slice(alloc, &other.items)?;
        Ok(())
    }

    /// Makes room for at least so many pushes, and takes memory for it. `WantOfMemory` leaves the list as it was.
    pub fn reserve(&mut self, room: usize) -> Result<(), WantOfMemory>
        ensures items { self.new.items ≡ self.old.items }
        ensures room { OnOk result (room ≤ self.new.room) }
        ensures kept { self.old.room ≤ self.new.room }
        ensures err { OnErr result (self.new ≡ self.old) }
        ensures granted { room ≤ self.old.room → IsOk result }
    {
        self.items.reserve(room)?;
        Ok(())
    }

    /// Adds an item at the end. Where there is room it is granted and takes no memory, else it takes memory for more.
    /// `WantOfMemory` leaves the list as it was.
    pub fn push(&mut self, item: T) -> Result<(), WantOfMemory>
    where
        T: Drop,
        ensures ok { OnOk result (self.new.items ≡ self.old.items ++ item ∷ []) }
        ensures err { OnErr result (self.new ≡ self.old) }
        ensures granted { 0 < self.old.room → IsOk result }
        ensures room { 0 < self.old.room → self.new.room + 1 ≡ self.old.room }
    {
        if self.items.len() < self.items.capacity() {
            self.items.push_reserved(item);
            return Ok(());
        }
        self.items.reserve(1)?;
        self.items.push_reserved(item);
        Ok(())
    }

    /// Adds an item at the end, where there is room.
    pub fn push_reserved(&mut self, item: T)
        requires { 0 < self.old.room }
        ensures items { self.new.items ≡ self.old.items ++ item ∷ [] }
        ensures room { self.new.room + 1 ≡ self.old.room }
    {
        self.items.push_reserved(item);
    }

    /// Takes all items out. What they took is room again.
    pub fn clear(&mut self)
    where
        T: Drop,
        ensures items { self.new.items ≡ [] }
        ensures room { self.new.room ≡ self.old.room + length self.old.items }
    {
        self.items.clear();
    }

    /// Puts an item in at a place from 0, before those that stand from there on. Where there is room it is granted and
    /// takes no memory, else it takes memory for more. `WantOfMemory` leaves the list as it was.
    pub fn insert(&mut self, at: usize, item: T) -> Result<(), WantOfMemory>
    where
        T: Drop,
        requires { at ≤ length self.old.items }
        ensures ok { OnOk result (self.new.items ≡ insert self.old.items at item) }
        ensures err { OnErr result (self.new ≡ self.old) }
        ensures granted { 0 < self.old.room → IsOk result }
        ensures room { 0 < self.old.room → self.new.room + 1 ≡ self.old.room }
    {
        if self.items.len() == self.items.capacity() {
            self.items.reserve(1)?;
        }
        match self.items.insert(at, item) {
            Ok(()) => Ok(()),
            Err(_) => unreachable!(),
        }
    }

    /// Puts an item in place of another, and hands out that one.
    pub fn replace(&mut self, at: usize, item: T) -> T
        requires { at < length self.old.items }
        ensures items { self.new.items ≡ slice_set self.old.items at item }
        ensures room { self.new.room ≡ self.old.room }
        ensures replaced { slice_get self.old.items at ≡ Some result }
    {
        mem::replace(&mut self.items[at], item)
    }

    /// Takes the item at a place out, and hands it out.
    pub fn remove(&mut self, at: usize) -> T
        requires { at < length self.old.items }
        ensures items { self.new.items ≡ remove self.old.items at }
        ensures room { self.new.room ≡ self.old.room + 1 }
        ensures removed { slice_get self.old.items at ≡ Some result }
    {
        self.items.remove(at)
    }
}

/// Equal lists have equal items; the room may differ.
impl<T: PartialEq> PartialEq for List<T> {
    ghost use Rattle.std.specs.Ordering.{on};
    ghost use Rattle.std.specs.Cmp.Lexicographic.{pointwise};
    ghost use Rattle.std.specs.Cmp.Rules.{comparing};
    ghost use Rattle.std.proofs.Common.{rules};

    ghost eq = { on (λ l. l.items) (pointwise T.eq) };

    ghost laws = { Prim.search (comparing, rules) };

    fn eq(&self, other: &List<T>) -> bool {
        self.as_slice() == other.as_slice()
    }
}

impl<T: Eq> Eq for List<T> {
    ghost use Rattle.std.specs.Cmp.Rules.{comparing};
    ghost use Rattle.std.proofs.Common.{rules};

    ghost laws = { Prim.search (comparing, rules) };
}

impl<T> From<Vec<T>> for List<T> {
    ghost from_gives = { λ v l. l.items ≡ v.items };

    fn from(items: Vec<T>) -> Self {
        List { items }
    }
}

/// Bytes.
pub type Bytes = List<u8>;

/// A line of glyphs.
pub type Line = List<Glyph>;

/// Names.
pub type NameList = List<Name>;

/// The numbers of parties.
pub type PartyList = List<u32>;

/// The readings of a clock.
pub type Readings = List<i64>;
