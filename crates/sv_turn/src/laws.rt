ghost use Rattle.std.specs.Prelude.{◌≡◌, ◌≢◌, ℕ, ◌<◌, ◌≤◌, ◌++◌, List, All, AllPairs, Contains, Some, length, option_map};
ghost use Rattle.sv_turn.specs.Journals.{places_of, entry_at};

/// The law of the places of a party: each is the place of an entry of that party, each entry of it has its place among them,
/// and they ascend, each once. The call does nothing.
pub fn places_law<E>()
    ensures own { (party_of : E → ℕ) → (party : ℕ) → (journal : List E) → All (λ place. option_map party_of (entry_at journal place) ≡ Some party) (places_of party_of party journal) }
    ensures all { (party_of : E → ℕ) → (party place : ℕ) → (journal : List E) → option_map party_of (entry_at journal place) ≡ Some party → Contains (places_of party_of party journal) place }
    ensures ascending { (party_of : E → ℕ) → (party : ℕ) → (journal : List E) → AllPairs (λ place next. place < next) (places_of party_of party journal) }
{}

/// Where a journal has no more places of a party than one that it begins with, no later entry is that party's. The call does
/// nothing.
pub fn no_places_no_entries<E>()
    ensures { (party_of : E → ℕ) → (party : ℕ) → (known later : List E) → places_of party_of party (later ++ known) ≡ places_of party_of party known → All (λ e. party_of e ≢ party) later }
{}
