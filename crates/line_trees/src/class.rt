ghost use Rattle.std.specs.Prelude.{◌≡◌, ◌+◌, ◌-◌, ◌<◌, ◌≤◌, ◌∷◌, ◌++◌, [], IsOk, OnOk, OnErr, IsTrue, length, slice_get};
ghost use Rattle.line_trees.specs.Classes.{NamesAscend, is_before, come_before, first_not_before, arguments_where};
ghost use Rattle.line_trees.specs.Symbols.{arguments_of};

use apl_arrays::{List, Name, WantOfMemory};
use std::alloc::Global;
use std::marker::Model;

/// The name of a function, and how many arguments it takes: none, one or two.
#[derive(Clone, Copy, Debug, PartialEq, Eq)]
pub struct Class {
    pub name: Name,
    pub arguments: u8,
}

/// The names that stand for functions, ascending, each with its class. A name that is not among them is that of a
/// value. They are seen as a list and the room that is left.
#[derive(Debug, Drop)]
pub struct Classes {
    classes: List<Class>,
}

impl Model for Classes {
    ghost use Rattle.apl_arrays.specs.List.{Listed};
    ghost use Rattle.line_trees.specs.declared.class.Class.{Class};
    ghost use Rattle.line_trees.specs.Classes.{NamesAscend};

    ghost Value = { Listed Class };

    ghost view = { λ c. record { items = c.classes.items; room = c.classes.room } };

    ghost invariant = { λ c. NamesAscend c.classes.items };
}

impl Classes {
    /// No classes.
    pub fn new(alloc: Global) -> Self
        ensures { result.items ≡ [] }
    {
        Classes {
            classes: List::new(alloc),
        }
    }

    /// The classes, the names ascending.
    pub fn as_slice(&self) -> &[Class]
        ensures items { result.now ≡ self.now.items }
        ensures ascending { NamesAscend result.now }
    {
        self.classes.as_slice()
    }

    /// Whether the names of all the classes come before a name.
    pub fn come_before(&self, name: &Name) -> bool
        ensures { result ≡ come_before self.now.items name.now }
    {
        match last_of(self.as_slice()) {
            None => true,
            Some(last) => is_before(&last.name, name),
        }
    }

    /// The classes as a `Vec`, the names ascending.
    pub fn into_vec(self) -> Vec<Class>
        ensures value { result.items ≡ self.items }
        ensures ascending { NamesAscend result.items }
    {
        self.classes.into_vec()
    }

    /// Makes room for at least so many pushes, and takes memory for it. `WantOfMemory` leaves the classes as they were.
    pub fn reserve(&mut self, room: usize) -> Result<(), WantOfMemory>
        ensures items { self.new.items ≡ self.old.items }
        ensures room { OnOk result (room ≤ self.new.room) }
        ensures kept { self.old.room ≤ self.new.room }
        ensures err { OnErr result (self.new ≡ self.old) }
        ensures granted { room ≤ self.old.room → IsOk result }
    {
        self.classes.reserve(room)
    }

    /// Adds a class whose name comes behind all the others. Where there is room it is granted and takes no memory, else
    /// it takes memory for more. `WantOfMemory` leaves the classes as they were.
    #[tactic(auto, using(crate::proofs::ClassesInOrder::one_behind))]
    pub fn push(&mut self, class: Class) -> Result<(), WantOfMemory>
        requires { IsTrue (come_before self.old.items class.name) }
        ensures ok { OnOk result (self.new.items ≡ self.old.items ++ class ∷ []) }
        ensures err { OnErr result (self.new ≡ self.old) }
        ensures granted { 0 < self.old.room → IsOk result }
        ensures room { 0 < self.old.room → self.new.room + 1 ≡ self.old.room }
    {
        self.classes.push(class)
    }

    /// How many arguments the function of this name takes, or `None` where it is no function. A search by halves.
    pub fn arguments_of(&self, name: &Name) -> Option<u8>
        ensures { result ≡ arguments_of self.now.items name.now }
    {
        arguments_where(first_not_before(self.as_slice(), name), name)
    }
}

fn last_of(classes: &[Class]) -> Option<Class>
    ensures { result ≡ slice_get classes.now (length classes.now - 1) }
{
    classes.last().copied()
}

fn class_at(classes: &[Class], at: usize) -> Option<Class>
    ensures { result ≡ slice_get classes.now at }
{
    classes.get(at).copied()
}

fn is_before(one: &Name, other: &Name) -> bool
    ensures { result ≡ is_before one.now other.now }
{
    one.cmp(other).is_lt()
}

// The first class whose name does not come before a name.
fn first_not_before(classes: &[Class], name: &Name) -> Option<Class>
    requires { NamesAscend classes.now }
    ensures { result ≡ first_not_before name.now classes.now }
{
    let at = classes.partition_point(|class: &Class| class.name.cmp(name).is_lt());
    class_at(classes, at)
}

fn arguments_where(class: Option<Class>, name: &Name) -> Option<u8>
    ensures { result ≡ arguments_where name.now class }
{
    let class = class?;
    if class.name == *name {
        Some(class.arguments)
    } else {
        None
    }
}
