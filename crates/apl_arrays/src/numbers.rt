ghost use Rattle.std.specs.Prelude.{◌≡◌, ◌∷◌, [], ◌++◌, IfOk, IsOk, OnOk, OnErr, length};

use crate::{List, WantOfMemory};
use std::alloc::Global;
use std::marker::Model;
use std::slice;

// Where numbers are: a lone one stands in place, and takes no memory.
#[derive(Debug, Drop)]
enum Kept {
    One(i64),
    List(List<i64>),
}

/// Numbers of an array, seen as their list and as the room that is left in it.
#[derive(Debug, Drop)]
pub struct NumberList {
    kept: Kept,
}

impl Model for NumberList {
    ghost use Rattle.std.specs.Prelude.{ℤ};
    ghost use Rattle.apl_arrays.specs.List.{Listed};
    ghost use Rattle.apl_arrays.specs.Numbers.{listed_numbers};

    ghost Value = { Listed ℤ };

    ghost view = { λ l. listed_numbers l.kept };
}

impl NumberList {
    /// One number.
    pub fn one(number: i64) -> Self
        ensures { result.items ≡ number ∷ [] }
    {
        NumberList {
            kept: Kept::One(number),
        }
    }

    /// The numbers of a slice. They take memory, but for one alone.
    pub fn of(alloc: Global, numbers: &[i64]) -> Result<Self, WantOfMemory>
        ensures numbers { IfOk result (λ list. list.items ≡ numbers.now) }
        ensures granted { length numbers.now ≡ 1 → IsOk result }
    {
        match numbers {
            [number] => Ok(NumberList::one(*number)),
            _ => Ok(NumberList::from(List::of(alloc, numbers)?)),
        }
    }

    /// The numbers, in order.
    pub fn as_slice(&self) -> &[i64]
        ensures { result.now ≡ self.now.items }
    {
        match &self.kept {
            Kept::One(number) => slice::from_ref(number),
            Kept::List(list) => list.as_slice(),
        }
    }

    /// Adds a number at the end. It takes memory where there is no room. `WantOfMemory` leaves the numbers as they were.
    pub fn push(&mut self, alloc: Global, number: i64) -> Result<(), WantOfMemory>
        ensures ok { OnOk result (self.new.items ≡ self.old.items ++ number ∷ []) }
        ensures err { OnErr result (self.new ≡ self.old) }
    {
        match &mut self.kept {
            Kept::One(first) => {
                let list = pair(alloc, *first, number)?;
                self.kept = Kept::List(list);
                Ok(())
            }
            Kept::List(list) => list.push(number),
        }
    }

    /// The same numbers. It takes memory for them, but for one alone.
    pub fn copy(&self, alloc: Global) -> Result<Self, WantOfMemory>
        ensures numbers { IfOk result (λ list. list.items ≡ self.now.items) }
        ensures granted { length self.now.items ≡ 1 → IsOk result }
    {
        NumberList::of(alloc, self.as_slice())
    }

    /// Become the numbers of another list. Where these are as many as they are they take no memory, else they may take it.
    /// `WantOfMemory` leaves them as they were.
    pub fn renew(&mut self, alloc: Global, other: &NumberList) -> Result<(), WantOfMemory>
        ensures ok { OnOk result (self.new.items ≡ other.now.items) }
        ensures err { OnErr result (self.new ≡ self.old) }
    {
        match (&mut self.kept, &other.kept) {
            (Kept::List(list), Kept::List(numbers)) => list.renew(alloc, numbers),
            _ => {
                *self = other.copy(alloc)?;
                Ok(())
            }
        }
    }
}

impl From<List<i64>> for NumberList {
    ghost from_gives = { λ list numbers. numbers.items ≡ list.items };

    fn from(list: List<i64>) -> Self {
        NumberList {
            kept: Kept::List(list),
        }
    }
}

// A list of two numbers. It takes memory for them.
fn pair(alloc: Global, first: i64, second: i64) -> Result<List<i64>, WantOfMemory>
    ensures { IfOk result (λ list. list.items ≡ first ∷ second ∷ []) }
{
    let mut list = List::new(alloc);
    list.push(first)?;
    list.push(second)?;
    Ok(list)
}
