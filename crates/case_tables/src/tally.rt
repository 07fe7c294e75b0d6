ghost use Rattle.std.specs.Prelude.{◌≡◌, ◌+◌, ◌-◌, ◌^◌, ◌↔◌, min, IsTrue, IsFalse};

/// How many cases were run, and how many of them differed from what was wanted.
#[derive(Clone, Copy, Debug, PartialEq, Eq)]
pub struct Tally {
    pub cases: u64,
    pub differing: u64,
}

impl Tally {
    /// No case yet.
    pub fn new() -> Self
        ensures { result ≡ record { cases = 0; differing = 0 } }
    {
        Tally {
            cases: 0,
            differing: 0,
        }
    }

    /// Counts a case. The counts stand still at the greatest `u64`.
    pub fn count(&mut self, differs: bool)
        ensures cases { self.new.cases ≡ min (self.old.cases + 1) (2 ^ 64 - 1) }
        ensures differs { IsTrue differs → self.new.differing ≡ min (self.old.differing + 1) (2 ^ 64 - 1) }
        ensures agrees { IsFalse differs → self.new.differing ≡ self.old.differing }
    {
        self.cases = self.cases.saturating_add(1);
        if differs {
            self.differing = self.differing.saturating_add(1);
        }
    }

    /// Counts the cases of another tally too. The counts stand still at the greatest `u64`.
    pub fn add(&mut self, other: Tally)
        ensures cases { self.new.cases ≡ min (self.old.cases + other.cases) (2 ^ 64 - 1) }
        ensures differing { self.new.differing ≡ min (self.old.differing + other.differing) (2 ^ 64 - 1) }
    {
        self.cases = self.cases.saturating_add(other.cases);
        self.differing = self.differing.saturating_add(other.differing);
    }

    /// Whether no case differed.
    pub fn agrees(&self) -> bool
        ensures { IsTrue result ↔ (self.now.differing ≡ 0) }
    {
        self.differing == 0
    }
}
