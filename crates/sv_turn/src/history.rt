ghost use Rattle.std.specs.Prelude.{◌≡◌, ℕ, ◌≤◌, List, length, Some, option_map};
ghost use Rattle.sv_turn.specs.Journals.{entry_at};

/// A state with a journal.
pub trait History {
    /// What an entry is in contracts. The turn makes no value of it.
    type Entry;

    // The entries, the newest first.
    ghost entries: { Self → List Self.Entry };

    // The numbers that no turn changes.
    ghost members_of: { Self → List ℕ };

    // Whose entry it is.
    ghost party_of: { Self.Entry → ℕ };

    /// How many entries the journal has.
    fn len(&self) -> u64
        ensures { result ≡ length (entries self.now) };

    /// The party of the entry at a place: the first entry that was made has the place 1.
    fn party_at(&self, place: u64) -> u32
        requires { (1 ≤ place) × (place ≤ length (entries self.now)) }
        ensures { option_map party_of (entry_at (entries self.now) place) ≡ Some result };
}
