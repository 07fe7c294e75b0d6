//! What holds of items that subscripts or flags select, of items that are put over others and of joins: laws and worked
//! examples.

ghost use Rattle.std.specs.Prelude.{◌≡◌, ◌+◌, ◌<◌, ◌≤◌, ◌++◌, ℕ, ℤ, false, pos, List, [], ◌∷◌, Option, Some, None, Ok, length, replicate, slice_index, slice_set};
ghost use Rattle.apl_arrays.specs.declared.way.Way.{Way as PlainWay};
ghost use Rattle.apl_arrays.specs.declared.items.Item.{Item};
ghost use Rattle.apl_arrays.specs.Array.{PlainArray, IsArray, IsItemOf, char_array, chars, element_count, item_count, number_array, numbers, numbers_in, scalar};
ghost use Rattle.apl_arrays.specs.Limits.{most_elements};
ghost use Rattle.apl_items.specs.Axis.{lacks_axis};
ghost use Rattle.apl_items.specs.Shapes.{AreWithin, place_of};
ghost use Rattle.apl_selection.specs.Assignment.{assign_of, place_naming};
ghost use Rattle.apl_selection.specs.Catenation.{catenate_of, catenated_axis, catenated_rank, catenated_shape, span_of};
ghost use Rattle.apl_selection.specs.Compression.{compress_of};
ghost use Rattle.apl_selection.specs.Expansion.{expand_of, ones};
ghost use Rattle.apl_selection.specs.Indexing.{selection_of, named_place};
ghost use Rattle.apl_selection.specs.Listing.{meant_axis, meant_length, vector_shape};
ghost use Rattle.apl_selection.specs.SelectionLaws.{AreArrays, IsItemOfPart, NamesOnce, places_back};
ghost use Rattle.apl_selection.specs.Subscripts.{named_counts, point_outside, selection_shape};
ghost use Rattle.apl_selection.specs.Vectors.{as_vector};

use apl_arrays::Way;

/// Of a matrix of two rows and three columns the second row without its middle, from the right, and a whole column; and
/// a vector by a matrix of places. The call does nothing.
pub fn items_stand_where_subscripts_say()
    ensures row { selection_of (number_array (2 ∷ 3 ∷ []) (pos 1 ∷ pos 2 ∷ pos 3 ∷ pos 4 ∷ pos 5 ∷ pos 6 ∷ [])) (Some (scalar (pos 2)) ∷ Some (number_array (2 ∷ []) (pos 3 ∷ pos 1 ∷ [])) ∷ [])
        ≡ Ok (number_array (2 ∷ []) (pos 6 ∷ pos 4 ∷ [])) }
    ensures column { selection_of (number_array (2 ∷ 3 ∷ []) (pos 1 ∷ pos 2 ∷ pos 3 ∷ pos 4 ∷ pos 5 ∷ pos 6 ∷ [])) (None ∷ Some (scalar (pos 3)) ∷ [])
        ≡ Ok (number_array (2 ∷ []) (pos 3 ∷ pos 6 ∷ [])) }
    ensures matrix { selection_of (number_array (3 ∷ []) (pos 7 ∷ pos 8 ∷ pos 9 ∷ [])) (Some (number_array (2 ∷ 2 ∷ []) (pos 3 ∷ pos 1 ∷ pos 1 ∷ pos 2 ∷ [])) ∷ [])
        ≡ Ok (number_array (2 ∷ 2 ∷ []) (pos 9 ∷ pos 7 ∷ pos 7 ∷ pos 8 ∷ [])) }
{}

/// Where two items come to one place the last stays, and a lone item comes to each place. The call does nothing.
pub fn the_last_item_stays()
    ensures twice { assign_of (number_array (3 ∷ []) (pos 1 ∷ pos 2 ∷ pos 3 ∷ [])) (Some (number_array (2 ∷ []) (pos 2 ∷ pos 2 ∷ [])) ∷ []) (number_array (2 ∷ []) (pos 8 ∷ pos 9 ∷ []))
        ≡ Ok (number_array (3 ∷ []) (pos 1 ∷ pos 9 ∷ pos 3 ∷ [])) }
    ensures lone { assign_of (number_array (2 ∷ 2 ∷ []) (pos 1 ∷ pos 2 ∷ pos 3 ∷ pos 4 ∷ [])) (None ∷ Some (scalar (pos 2)) ∷ []) (scalar (pos 9))
        ≡ Ok (number_array (2 ∷ 2 ∷ []) (pos 1 ∷ pos 9 ∷ pos 3 ∷ pos 9 ∷ [])) }
{}

/// The place of the selection whose item comes to a place names that place, no later one does, and where none is taken
/// none names it. The call does nothing.
pub fn the_last_place_that_names_is_taken()
    ensures named { (shape : List ℕ) (subs : List (Option PlainArray)) (place at : ℕ) → place < element_count shape → place_naming shape subs place ≡ Some at → named_place shape subs at ≡ Some place }
    ensures last { (shape : List ℕ) (subs : List (Option PlainArray)) (place at : ℕ) → at < element_count (named_counts shape subs) → point_outside shape subs ≡ false
        → named_place shape subs at ≡ Some place → (later : ℕ) × (place_naming shape subs place ≡ Some later) × (at ≤ later) }
{}

/// Where V has the shape of the selection, and no place is named twice, the items selected after `A[I;J]←V` are V. The
/// call does nothing.
pub fn what_was_put_is_selected()
    ensures { (a v after : PlainArray) (subs : List (Option PlainArray)) → IsArray a → IsArray v → AreArrays subs → v.shape ≡ selection_shape a.shape subs
        → NamesOnce a.shape subs → assign_of a subs v ≡ Ok after → selection_of after subs ≡ Ok v }
{}

/// Where each flag is 1, as in `1 1 1/B`, all is kept, along any axis. The call does nothing.
#[tactic(auto, using(crate::proofs::FlagLaws::ones_keep_all))]
pub fn flags_of_one_keep_all()
    ensures { (b : PlainArray) (way : PlainWay) (axis : Option ℤ) → IsArray b → 0 < length b.shape → lacks_axis (length b.shape) axis ≡ false
        → compress_of (as_vector (numbers (replicate (meant_length b way axis) (pos 1)))) b way axis ≡ Ok b }
{}

/// What is kept by a flag for each place is as long along the axis as flags are 1, and as long as B along the others. The
/// call does nothing.
pub fn as_much_is_kept_as_there_are_ones()
    ensures { (a b kept : PlainArray) (way : PlainWay) (axis : Option ℤ) → item_count a.items ≡ meant_length b way axis → compress_of a b way axis ≡ Ok kept
        → kept.shape ≡ slice_set (vector_shape b.shape) (meant_axis b way axis) (ones (numbers_in a.items)) }
{}

/// What flags spread they keep: `A/A\B` is B, where A has as many ones as the axis has places. The call does nothing.
#[tactic(auto, using(crate::proofs::FlagLaws::spread_is_kept))]
pub fn what_is_spread_is_kept()
    ensures { (a b spread : PlainArray) (way : PlainWay) (axis : Option ℤ) → IsArray b → 0 < length b.shape → ones (numbers_in a.items) ≡ meant_length b way axis
        → expand_of a b way axis ≡ Ok spread → compress_of a spread way axis ≡ Ok b }
{}

/// The join of two vectors has the items of the one and then those of the other. The call does nothing.
#[tactic(auto, using(crate::proofs::JoinLaws::numbers_joined, crate::proofs::JoinLaws::chars_joined))]
pub fn vectors_are_joined_end_to_end()
    ensures numbers { (a b : List ℤ) → length a + length b ≤ most_elements → catenate_of (as_vector (numbers a)) (as_vector (numbers b)) None ≡ Ok (as_vector (numbers (a ++ b))) }
    ensures chars { (a b : List ℕ) → length a + length b ≤ most_elements → catenate_of (as_vector (chars a)) (as_vector (chars b)) None ≡ Ok (as_vector (chars (a ++ b))) }
{}

/// A join has the shape of the array of greater rank, and along the axis is as long as both. Of its places along the axis the
/// first are A's, and those behind are B's; an array that lacks the axis has one, and a scalar's item stands at each of its
/// places. The call does nothing.
pub fn parts_of_a_join_stay_in_place()
    ensures shape { (a b r : PlainArray) (axis : Option ℤ) → catenate_of a b axis ≡ Ok r → r.shape ≡ catenated_shape a b (catenated_axis a b axis) }
    ensures first { (a b r : PlainArray) (axis : Option ℤ) (at : List ℕ) (item : Item) → IsArray a → catenate_of a b axis ≡ Ok r → AreWithin r.shape at
        → slice_index at (catenated_axis a b axis) < span_of a.shape (catenated_rank a b) (catenated_axis a b axis)
        → IsItemOfPart a (catenated_rank a b) (catenated_axis a b axis) at item → IsItemOf r.items (place_of r.shape at) item }
    ensures second { (a b r : PlainArray) (axis : Option ℤ) (at : List ℕ) (item : Item) → IsArray b → catenate_of a b axis ≡ Ok r → AreWithin r.shape at
        → span_of a.shape (catenated_rank a b) (catenated_axis a b axis) ≤ slice_index at (catenated_axis a b axis)
        → IsItemOfPart b (catenated_rank a b) (catenated_axis a b axis) (places_back (catenated_axis a b axis) (span_of a.shape (catenated_rank a b) (catenated_axis a b axis)) at) item
        → IsItemOf r.items (place_of r.shape at) item }
{}

/// Flags: `1 0 1/5 6 7` is 5 7, `1 0 1\5 7` is 5 0 7, and blanks fill characters; of a matrix the columns, and with the
/// first axis the rows; one flag, and one item, extend. The call does nothing.
pub fn flags_keep_and_spread_items()
    ensures kept { compress_of (number_array (3 ∷ []) (pos 1 ∷ pos 0 ∷ pos 1 ∷ [])) (number_array (3 ∷ []) (pos 5 ∷ pos 6 ∷ pos 7 ∷ [])) Way.Last None ≡ Ok (number_array (2 ∷ []) (pos 5 ∷ pos 7 ∷ [])) }
    ensures columns { compress_of (number_array (3 ∷ []) (pos 1 ∷ pos 0 ∷ pos 1 ∷ [])) (number_array (2 ∷ 3 ∷ []) (pos 1 ∷ pos 2 ∷ pos 3 ∷ pos 4 ∷ pos 5 ∷ pos 6 ∷ [])) Way.Last None ≡ Ok (number_array (2 ∷ 2 ∷ []) (pos 1 ∷ pos 3 ∷ pos 4 ∷ pos 6 ∷ [])) }
    ensures rows { compress_of (number_array (2 ∷ []) (pos 0 ∷ pos 1 ∷ [])) (number_array (2 ∷ 3 ∷ []) (pos 1 ∷ pos 2 ∷ pos 3 ∷ pos 4 ∷ pos 5 ∷ pos 6 ∷ [])) Way.First None ≡ Ok (number_array (1 ∷ 3 ∷ []) (pos 4 ∷ pos 5 ∷ pos 6 ∷ [])) }
    ensures all { compress_of (scalar (pos 1)) (number_array (2 ∷ []) (pos 5 ∷ pos 6 ∷ [])) Way.Last None ≡ Ok (number_array (2 ∷ []) (pos 5 ∷ pos 6 ∷ [])) }
    ensures often { compress_of (number_array (2 ∷ []) (pos 1 ∷ pos 1 ∷ [])) (scalar (pos 5)) Way.Last None ≡ Ok (number_array (2 ∷ []) (pos 5 ∷ pos 5 ∷ [])) }
    ensures spread { expand_of (number_array (3 ∷ []) (pos 1 ∷ pos 0 ∷ pos 1 ∷ [])) (number_array (2 ∷ []) (pos 5 ∷ pos 7 ∷ [])) Way.Last None ≡ Ok (number_array (3 ∷ []) (pos 5 ∷ pos 0 ∷ pos 7 ∷ [])) }
    ensures blank { expand_of (number_array (3 ∷ []) (pos 1 ∷ pos 0 ∷ pos 1 ∷ [])) (char_array (2 ∷ []) (65 ∷ 66 ∷ [])) Way.Last None ≡ Ok (char_array (3 ∷ []) (65 ∷ 32 ∷ 66 ∷ [])) }
    ensures between { expand_of (number_array (3 ∷ []) (pos 1 ∷ pos 0 ∷ pos 1 ∷ [])) (number_array (2 ∷ 1 ∷ []) (pos 5 ∷ pos 6 ∷ [])) Way.First None ≡ Ok (number_array (3 ∷ 1 ∷ []) (pos 5 ∷ pos 0 ∷ pos 6 ∷ [])) }
    ensures lone { expand_of (number_array (3 ∷ []) (pos 1 ∷ pos 0 ∷ pos 1 ∷ [])) (scalar (pos 5)) Way.Last None ≡ Ok (number_array (3 ∷ []) (pos 5 ∷ pos 0 ∷ pos 5 ∷ [])) }
{}

/// Joins: `1 2,3` is 1 2 3, and two scalars give a vector; matrices beside each other, one below the other, and a row below
/// a matrix; of two kinds the one that has items. The call does nothing.
pub fn joins_put_one_behind_the_other()
    ensures vectors { catenate_of (number_array (2 ∷ []) (pos 1 ∷ pos 2 ∷ [])) (number_array (2 ∷ []) (pos 3 ∷ pos 4 ∷ [])) None ≡ Ok (number_array (4 ∷ []) (pos 1 ∷ pos 2 ∷ pos 3 ∷ pos 4 ∷ [])) }
    ensures scalar { catenate_of (number_array (2 ∷ []) (pos 1 ∷ pos 2 ∷ [])) (scalar (pos 3)) None ≡ Ok (number_array (3 ∷ []) (pos 1 ∷ pos 2 ∷ pos 3 ∷ [])) }
    ensures scalars { catenate_of (scalar (pos 1)) (scalar (pos 2)) None ≡ Ok (number_array (2 ∷ []) (pos 1 ∷ pos 2 ∷ [])) }
    ensures beside { catenate_of (number_array (2 ∷ 2 ∷ []) (pos 1 ∷ pos 2 ∷ pos 3 ∷ pos 4 ∷ [])) (number_array (2 ∷ 1 ∷ []) (pos 5 ∷ pos 6 ∷ [])) None ≡ Ok (number_array (2 ∷ 3 ∷ []) (pos 1 ∷ pos 2 ∷ pos 5 ∷ pos 3 ∷ pos 4 ∷ pos 6 ∷ [])) }
    ensures below { catenate_of (number_array (1 ∷ 2 ∷ []) (pos 1 ∷ pos 2 ∷ [])) (number_array (2 ∷ 2 ∷ []) (pos 3 ∷ pos 4 ∷ pos 5 ∷ pos 6 ∷ [])) (Some (pos 1)) ≡ Ok (number_array (3 ∷ 2 ∷ []) (pos 1 ∷ pos 2 ∷ pos 3 ∷ pos 4 ∷ pos 5 ∷ pos 6 ∷ [])) }
    ensures row { catenate_of (number_array (1 ∷ 2 ∷ []) (pos 1 ∷ pos 2 ∷ [])) (number_array (2 ∷ []) (pos 3 ∷ pos 4 ∷ [])) (Some (pos 1)) ≡ Ok (number_array (2 ∷ 2 ∷ []) (pos 1 ∷ pos 2 ∷ pos 3 ∷ pos 4 ∷ [])) }
    ensures kind { catenate_of (number_array (0 ∷ []) ([])) (char_array (1 ∷ []) (65 ∷ [])) None ≡ Ok (char_array (1 ∷ []) (65 ∷ [])) }
{}
