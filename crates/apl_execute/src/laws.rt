//! What holds of the definitions: which values are texts; and of a merge what stands under each name, and what stays.

ghost use Rattle.std.specs.Prelude.{◌≡◌, ◌<◌, ◌&&◌, ◌↔◌, ℕ, true, List as ListOf, Option, Ok, Err, length, if◌then◌else◌};
ghost use Rattle.std.specs.List.{list_any};
ghost use Rattle.apl_workspace.specs.Meaning.{is_shared_in, meaning_in};
ghost use Rattle.apl_workspace.specs.Names.{all_differ};
ghost use Rattle.apl_arrays.specs.Array.{PlainArray};
ghost use Rattle.apl_arrays.specs.Name.{same_name};
ghost use Rattle.apl_workspace.specs.Workspace.{IsWorkspace, PlainWorkspace, is_shared};
ghost use Rattle.apl_execute.specs.Merge.{asked, copy_in, each_once, is_copied, merged};
ghost use Rattle.apl_execute.specs.Text.{text_of};
ghost use Rattle.apl_execute.specs.TextLaws.{HasNumbers, HasTooMany, IsTextOfValue};

use apl_arrays::Report;

/// A value is a text exactly where it has at most one axis and at most 1,000 characters: it is these. Where it has more
/// axes that is RANK; else numbers, also none, are DOMAIN; else too many characters are LENGTH. The call does nothing.
pub fn texts_are_few_characters()
    ensures text { (value : PlainArray) (text : ListOf ℕ) → (text_of value ≡ Ok text) ↔ IsTextOfValue value text }
    ensures axes { (value : PlainArray) → (text_of value ≡ Err Report.Rank) ↔ (1 < length value.shape) }
    ensures no_numbers { (value : PlainArray) → (text_of value ≡ Err Report.Domain) ↔ HasNumbers value }
    ensures many { (value : PlainArray) → (text_of value ≡ Err Report.Length) ↔ HasTooMany value }
{}

/// After a merge the names that are copied stand for what the other workspace has, and all others, the marks, the offers
/// and the count of printed glyphs are as they were. The call does nothing.
pub fn merging_changes_the_copied_names()
    ensures names { (into from : PlainWorkspace) (names : Option (ListOf (ListOf ℕ))) (name : ListOf ℕ) → IsWorkspace into → meaning_in (merged into from names).globals name
        ≡ (if is_copied into from name && list_any (same_name name) (asked from names) then copy_in from name else meaning_in into.globals name) }
    ensures marks { (into from : PlainWorkspace) (names : Option (ListOf (ListOf ℕ))) (name : ListOf ℕ) → IsWorkspace into → is_shared_in (merged into from names).globals name ≡ is_shared into name }
    ensures others { (into from : PlainWorkspace) (names : Option (ListOf (ListOf ℕ))) → merged into from names ≡ record into { globals = (merged into from names).globals } }
{}

/// Names that are asked for are those that are mentioned, each once. The call does nothing.
pub fn names_are_asked_for_once()
    ensures same { (names : ListOf (ListOf ℕ)) (name : ListOf ℕ) → list_any (same_name name) (each_once names) ≡ list_any (same_name name) names }
    ensures once { (names : ListOf (ListOf ℕ)) → all_differ (each_once names) ≡ true }
{}
