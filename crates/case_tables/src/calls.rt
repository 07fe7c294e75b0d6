ghost use Rattle.std.specs.Prelude.{◌≡◌, ◌+◌, ◌-◌, ◌^◌, min, Some, None, IsTrue, IsFalse};

use crate::Tally;
use anyhow::{Context, Result};
use std::alloc::Global;

/// What was looked at while calls were made, in that order: how many cases, how many of them differed, and the place of
/// the first that did.
#[derive(Clone, Copy, Debug, PartialEq, Eq)]
pub struct Looks {
    pub tally: Tally,
    pub first: Option<u64>,
}

impl Looks {
    /// Nothing was looked at yet.
    pub fn new() -> Self
        ensures cases { result.tally.cases ≡ 0 }
        ensures differing { result.tally.differing ≡ 0 }
    {
        Looks {
            tally: Tally::new(),
            first: None,
        }
    }

    /// Counts a case, which differs where this does not hold. The counts stand still at the greatest `u64`.
    pub fn holds(&mut self, is_so: bool)
        ensures cases { self.new.tally.cases ≡ min (self.old.tally.cases + 1) (2 ^ 64 - 1) }
        ensures differs { IsFalse is_so → self.new.tally.differing ≡ min (self.old.tally.differing + 1) (2 ^ 64 - 1) }
        ensures agrees { IsTrue is_so → self.new.tally.differing ≡ self.old.tally.differing }
        ensures first { IsFalse is_so → self.old.first ≡ None → self.new.first ≡ Some self.new.tally.cases }
        ensures stays { IsTrue is_so → self.new.first ≡ self.old.first }
    {
        self.tally.count(!is_so);
        if !is_so && self.first.is_none() {
            self.first = Some(self.tally.cases);
        }
    }
}

/// Calls that are made one after another, each with what is looked at behind it.
pub trait Calls {
    /// Makes the calls, and looks at what they give. An error says that memory was refused, and nothing else: any other that
    /// a call gives is a case that differs.
    fn make(&self, alloc: Global, looks: &mut Looks) -> Result<()>;
}

/// Makes calls, and once more from the first where memory was refused and no case had differed. A line is printed for them,
/// and one with the place of the first case that differed, if one did. Memory as the calls take it.
pub fn run_calls<R: Print + AllocGlobal, C: Calls>(rt: &R, name: &str, calls: &C) -> Result<Tally> {
    let mut looks = Looks::new();
    let mut made = calls.make(rt.alloc(), &mut looks);
    if made.is_err() && looks.tally.agrees() {
        looks = Looks::new();
        made = calls.make(rt.alloc(), &mut looks);
    }
    let Looks { tally, first } = looks;
    let Tally { cases, differing } = tally;
    println!(rt; "{name}: {cases} cases, of which {differing} differ")?;
    if let Some(place) = first {
        println!(rt; "{name}: the first that differs is case {place}")?;
    }
    made.context(format_args!("calls of {name}"))?;
    Ok(tally)
}
