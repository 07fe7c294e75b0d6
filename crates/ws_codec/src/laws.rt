//! What holds of saved bytes. The calls do nothing.

ghost use Rattle.std.specs.Prelude.{◌≡◌, ◌≤◌, ◌+◌, ◌⊎◌, [], ℕ, None, Ok, length, List as ListOf};
ghost use Rattle.apl_workspace.specs.Meaning.{NameTable, table_weight};
ghost use Rattle.apl_workspace.specs.Workspace.{IsWorkspace, PlainWorkspace};
ghost use Rattle.ws_codec.specs.Kept.{kept_globals};
ghost use Rattle.ws_codec.specs.Saved.{saved_reading, saved_of, spoils};
ghost use Rattle.ws_codec.specs.SavedText.{first_version, saved, second_version};
ghost use Rattle.ws_codec.specs.Sound.{AreBytes, CanBeSaved};
ghost use Rattle.ws_codec.specs.Storable.{IsStorable};
ghost use Rattle.ws_codec.specs.Text.{IsSavedText};

use apl_workspace::Remake;

/// The bytes of objects and offers, of either version, are read as these and no others.
pub fn what_is_saved_is_read()
    ensures second { (table : NameTable) (offers : ListOf Remake) → CanBeSaved table offers → saved_reading (second_version table offers) ≡ Ok (saved_of table offers) }
    ensures first { (table : NameTable) → CanBeSaved table [] → saved_reading (first_version table) ≡ Ok (saved_of table []) }
{}

/// Bytes that are read are those of the objects and the offers that they are read as, of one version or the other. So
/// all other bytes break a rule, and by the reading the first such place and its one rule.
pub fn what_is_read_was_saved()
    ensures sound { (bytes : ListOf ℕ) (table : NameTable) (offers : ListOf Remake) → AreBytes bytes → saved_reading bytes ≡ Ok (saved_of table offers) → CanBeSaved table offers }
    ensures bytes { (bytes : ListOf ℕ) (table : NameTable) (offers : ListOf Remake) → AreBytes bytes → saved_reading bytes ≡ Ok (saved_of table offers) → (bytes ≡ second_version table offers) ⊎ ((bytes ≡ first_version table) × (offers ≡ [])) }
{}

/// Each workspace whose values, texts and names are of the types of the program may be saved, and is read from its bytes
/// as what is kept of it, with its offers.
pub fn workspaces_may_be_saved()
    ensures sound { (w : PlainWorkspace) → IsWorkspace w → IsStorable w → CanBeSaved (kept_globals w.globals) w.offers }
    ensures read { (w : PlainWorkspace) → IsWorkspace w → IsStorable w → saved_reading (saved w) ≡ Ok (saved_of (kept_globals w.globals) w.offers) }
{}

/// Each text is of one workspace: where two texts are the same bytes, so are their objects and their offers; and no bytes are
/// a text of both versions.
pub fn texts_are_of_one_workspace()
    ensures second { (table other : NameTable) (offers others : ListOf Remake) → CanBeSaved table offers → CanBeSaved other others → second_version table offers ≡ second_version other others → (table ≡ other) × (offers ≡ others) }
    ensures first { (table other : NameTable) → CanBeSaved table [] → CanBeSaved other [] → first_version table ≡ first_version other → table ≡ other }
    ensures apart { (table other : NameTable) (offers : ListOf Remake) → first_version table ≡ second_version other offers → ⊥ }
{}

/// Bytes are a text, or a field of them breaks a rule at one place: where none does they are a text, and in a text none
/// does.
pub fn bytes_are_texts_or_break_a_rule()
    ensures text { (bytes : ListOf ℕ) → AreBytes bytes → spoils bytes ≡ None → IsSavedText bytes }
    ensures unspoiled { (bytes : ListOf ℕ) → IsSavedText bytes → spoils bytes ≡ None }
{}

/// What is read weighs no more than its bytes are many, its offers counted in: nothing is read that the bytes do not hold.
pub fn what_is_read_weighs_no_more_than_its_bytes()
    ensures { (bytes : ListOf ℕ) (table : NameTable) (offers : ListOf Remake) → AreBytes bytes → saved_reading bytes ≡ Ok (saved_of table offers) → table_weight table + length offers ≤ length bytes }
{}
