ghost use Rattle.std.specs.Prelude.{◌≡◌};
ghost use Rattle.apl_arrays.specs.Limits.{most_offers};
ghost use Rattle.sv_rules.specs.Limits.{most_entries, most_journal_elements};

use apl_arrays::OFFER_LIMIT;

/// The most entries of a journal other than leaves.
pub const ENTRY_LIMIT: usize = 200_000;

/// As many elements fill a journal.
pub const HELD_LIMIT: u64 = 4_194_304;

/// The limits are those of the definitions. The call does nothing.
pub fn limits_are_as_defined()
    ensures offers { OFFER_LIMIT ≡ most_offers }
    ensures entries { ENTRY_LIMIT ≡ most_entries }
    ensures elements { HELD_LIMIT ≡ most_journal_elements }
{}
