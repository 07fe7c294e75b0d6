//! What names stand for after each call on a workspace.

ghost use Rattle.std.specs.Prelude.{◌≡◌, ◌<◌, ◌≤◌, ℕ, true, List as ListOf, Option, Some, if◌then◌else◌, unwrap_or};
ghost use Rattle.apl_arrays.specs.Array.{PlainArray};
ghost use Rattle.apl_workspace.specs.Frame.{frame_of, header_meaning, header_names};
ghost use Rattle.apl_workspace.specs.Function.{PlainFunction};
ghost use Rattle.apl_workspace.specs.Header.{PlainHeader};
ghost use Rattle.apl_workspace.specs.Limits.{most_weight};
ghost use Rattle.apl_workspace.specs.Meaning.{meaning_in, meaning_of, own_copy_in};
ghost use Rattle.apl_arrays.specs.Name.{same_name};
ghost use Rattle.apl_workspace.specs.Workspace.{IsWorkspace, PlainWorkspace, assigned, global_in, is_unhidden, look, marked, takes_offer, unmarked, unmarked_with_copy, unshared, with_frame, with_global, without_frame, without_global, workspace_weight};

use crate::{Args, Meaning, Remake};

/// A name that was assigned has the value, in a frame or globally, and all other names are as they were. The call does
/// nothing.
pub fn assigning_changes_one_name()
    ensures { (w : PlainWorkspace) (name other : ListOf ℕ) (value : PlainArray) → look (assigned w name value) other ≡ (if same_name name other then Meaning.Value value else look w other) }
{}

/// A function that was defined, and a variable that was shared or renewed, is seen where no frame hides its name, and all
/// other names are as they were. The call does nothing.
pub fn global_names_are_seen_behind_frames()
    ensures defined { (w : PlainWorkspace) (name other : ListOf ℕ) (function : PlainFunction) → look (with_global w name (Meaning.Function function)) other ≡ (if is_unhidden w name other then Meaning.Function function else look w other) }
    ensures marked { (w : PlainWorkspace) (offer : Remake) (other : ListOf ℕ) (copy : Option PlainArray) → look (marked w offer copy) other ≡ (if is_unhidden w offer.local other then Meaning.Shared copy else look w other) }
    ensures renewed { (w : PlainWorkspace) (name other : ListOf ℕ) (value : PlainArray) → look (with_global w name (Meaning.Shared (Some value))) other ≡ (if is_unhidden w name other then Meaning.Shared (Some value) else look w other) }
{}

/// A global name that was erased stands for nothing where no frame hides it, and all other names are as they were. The
/// call does nothing.
pub fn erasing_takes_one_name()
    ensures { (w : PlainWorkspace) (name other : ListOf ℕ) → IsWorkspace w → look (without_global w name) other ≡ (if is_unhidden w name other then Meaning.Nothing else look w other) }
{}

/// A variable that is shared no more has the value handed in where that fits, else its own copy, and all other names are
/// as they were; an offer that was listed for it is taken out of the list. The call does nothing.
pub fn unmarking_leaves_a_variable()
    ensures light { (w : PlainWorkspace) (name other : ListOf ℕ) (value : Option PlainArray) → IsWorkspace w → workspace_weight (unshared w name value) ≤ most_weight → look (unmarked w name value) other ≡ (if is_unhidden w name other then meaning_of value else look w other) }
    ensures heavy { (w : PlainWorkspace) (name other : ListOf ℕ) (value : Option PlainArray) → IsWorkspace w → most_weight < workspace_weight (unshared w name value) → look (unmarked w name value) other ≡ (if is_unhidden w name other then meaning_of (own_copy_in w.globals name) else look w other) }
    ensures offers { (w : PlainWorkspace) (offer : Remake) (copy value : Option PlainArray) → IsWorkspace w → takes_offer w offer.local ≡ true → (unmarked (marked w offer copy) offer.local value).offers ≡ w.offers }
{}

/// A variable that is shared no more and keeps its own copy has that as its value, or stands for nothing where it has none,
/// and all other names are as they were. The call does nothing.
pub fn kept_copies_are_values()
    ensures { (w : PlainWorkspace) (name other : ListOf ℕ) → IsWorkspace w → look (unmarked_with_copy w name) other ≡ (if is_unhidden w name other then meaning_of (own_copy_in w.globals name) else look w other) }
{}

/// While a function runs, the names of its frame hide all others, and when it is left all is as it was before. The call
/// does nothing.
pub fn frames_hide_names()
    ensures entered { (w : PlainWorkspace) (name other : ListOf ℕ) (args : Args) (function : PlainFunction) → look w name ≡ Meaning.Function function → look (with_frame w name args) other ≡ unwrap_or (meaning_in (frame_of function args) other) (look w other) }
    ensures left { (w : PlainWorkspace) (name : ListOf ℕ) (args : Args) (function : PlainFunction) → look w name ≡ Meaning.Function function → without_frame (with_frame w name args) ≡ w }
{}

/// As a function begins, its result and its local names stand for nothing, and its arguments for their values. The call
/// does nothing.
pub fn arguments_have_their_values()
    ensures { (header : PlainHeader) (args : Args) (name : ListOf ℕ) → meaning_in (header_names header args) name ≡ header_meaning header args name }
{}

/// What is seen as shared, or as a function, is so globally. The call does nothing.
pub fn shares_and_functions_are_global()
    ensures shared { (w : PlainWorkspace) (name : ListOf ℕ) (copy : Option PlainArray) → IsWorkspace w → look w name ≡ Meaning.Shared copy → global_in w name ≡ Meaning.Shared copy }
    ensures function { (w : PlainWorkspace) (name : ListOf ℕ) (function : PlainFunction) → IsWorkspace w → look w name ≡ Meaning.Function function → global_in w name ≡ Meaning.Function function }
{}
