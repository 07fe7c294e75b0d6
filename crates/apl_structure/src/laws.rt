//! What holds of the definitions.

ghost use Rattle.std.specs.Prelude.{◌≡◌, ◌<◌, ◌≤◌, ℕ, ℤ, List as ListOf, [], ◌∷◌, Option, None, Some, Ok, length, neg_ℤ, negsuc, pos, unsigned_abs};
ghost use Rattle.apl_arrays.specs.declared.items.Item.{Item};
ghost use Rattle.apl_arrays.specs.declared.way.Way.{Way as PlainWay};
ghost use Rattle.apl_arrays.specs.Array.{PlainArray, PlainItems, IsArray, IsItemOf, char_array, item_count, number_array, numbers_in, scalar};
ghost use Rattle.apl_arrays.specs.Limits.{most_elements};
ghost use Rattle.apl_items.specs.Shapes.{AreWithin, place_of};
ghost use Rattle.apl_selection.specs.Catenation.{catenate_of};
ghost use Rattle.apl_selection.specs.Indexing.{selection_of};
ghost use Rattle.apl_selection.specs.Vectors.{as_vector};
ghost use Rattle.apl_structure.specs.Counting.{iota_of};
ghost use Rattle.apl_structure.specs.Diagonals.{axes_named, coordinates_by, transpose_by_of};
ghost use Rattle.apl_structure.specs.Plain.{ravel_of, shape_of};
ghost use Rattle.apl_structure.specs.Reshaping.{reshape_of};
ghost use Rattle.apl_structure.specs.Reversal.{reverse_of, reversed};
ghost use Rattle.apl_structure.specs.Rotation.{rotate_of};
ghost use Rattle.apl_structure.specs.StructureLaws.{AreLeftAt, AreTakenTo, fill_of, first_items, items_after, items_before, last_items, opposite};
ghost use Rattle.apl_structure.specs.Taking.{axes_for, drop_of, remaining_shape, take_of, taken_shape};
ghost use Rattle.apl_structure.specs.Transposition.{transpose_of, transposed};

use apl_arrays::Way;

/// An array that is reversed twice along an axis is the array. The call does nothing.
#[tactic(auto, using(crate::proofs::LawLemmas::reversed_twice))]
pub fn reversed_twice_is_the_same()
    ensures { (b : PlainArray) (axis : ℕ) → IsArray b → (0 < length b.shape → axis < length b.shape) → reversed (reversed b axis) axis ≡ b }
{}

/// An array that is transposed twice is the array. The call does nothing.
#[tactic(auto, using(crate::proofs::TransposeLemmas::transposed_twice))]
pub fn transposed_twice_is_the_same()
    ensures { (b : PlainArray) → IsArray b → transposed (transposed b) ≡ b }
{}

/// Each item of a transpose by axes stands where the axes say: at coordinates of the result stands the item of the argument
/// whose coordinate along each axis is that along the axis which it becomes. The call does nothing.
#[tactic(auto, using(crate::proofs::DiagonalLaws::stand_by_axes))]
pub fn items_stand_where_the_axes_say()
    ensures { (a b r : PlainArray) (at : ListOf ℕ) (item : Item) → transpose_by_of a b ≡ Ok r → AreWithin r.shape at
        → IsItemOf b.items (place_of b.shape (coordinates_by (axes_named (numbers_in a.items)) at)) item → IsItemOf r.items (place_of r.shape at) item }
{}

/// All items of an array in its shape are the array. The call does nothing.
#[tactic(auto, using(crate::proofs::LawLemmas::reshaped_to_itself))]
pub fn items_in_their_shape_are_the_array()
    ensures { (b shape all : PlainArray) → IsArray b → shape_of b ≡ Ok shape → ravel_of b ≡ Ok all → reshape_of shape all ≡ Ok b }
{}

/// The items of a vector at all its places, `B[⍳⍴B]`, are the vector. The call does nothing.
pub fn a_vector_at_its_places_is_the_vector()
    ensures { (b count numbers : PlainArray) → IsArray b → length b.shape ≡ 1 → shape_of b ≡ Ok count → iota_of count ≡ Ok numbers → selection_of b (Some numbers ∷ []) ≡ Ok b }
{}

/// `N↑B` of a vector has its first N items, and `(-N)↑B` its last; where these are too few, the fill stands behind them,
/// or before them. The call does nothing.
pub fn takes_are_the_first_or_the_last()
    ensures first { (count : ℕ) (items : PlainItems) → count ≤ most_elements → take_of (scalar (pos count)) (as_vector items) ≡ Ok (as_vector (first_items count items)) }
    ensures last { (count : ℕ) (items : PlainItems) → count ≤ most_elements → take_of (scalar (neg_ℤ (pos count))) (as_vector items) ≡ Ok (as_vector (last_items count items)) }
{}

/// `N↓B` of a vector has its items without the first N, and `(-N)↓B` without the last; beyond its length nothing is left.
/// The call does nothing.
pub fn drops_are_without_the_first_or_the_last()
    ensures first { (count : ℕ) (items : PlainItems) → drop_of (scalar (pos count)) (as_vector items) ≡ Ok (as_vector (items_after count items)) }
    ensures last { (count : ℕ) (items : PlainItems) → drop_of (scalar (neg_ℤ (pos count))) (as_vector items) ≡ Ok (as_vector (items_before count items)) }
    ensures beyond { (b rest : PlainArray) (number : ℤ) → IsArray b → length b.shape ≡ 1 → item_count b.items ≤ unsigned_abs number → drop_of (scalar number) b ≡ Ok rest → item_count rest.items ≡ 0 }
{}

/// A drop leaves what a take takes: `(N↑B),N↓B` is B, and so is `((-N)↓B),(-N)↑B`, of a vector with N items or more. The
/// call does nothing.
pub fn takes_and_drops_are_together_all()
    ensures front { (b front rest : PlainArray) (count : ℕ) → IsArray b → length b.shape ≡ 1 → count ≤ item_count b.items
        → take_of (scalar (pos count)) b ≡ Ok front → drop_of (scalar (pos count)) b ≡ Ok rest → catenate_of front rest None ≡ Ok b }
    ensures back { (b rest back : PlainArray) (count : ℕ) → IsArray b → length b.shape ≡ 1 → count ≤ item_count b.items
        → drop_of (scalar (neg_ℤ (pos count))) b ≡ Ok rest → take_of (scalar (neg_ℤ (pos count))) b ≡ Ok back → catenate_of rest back None ≡ Ok b }
{}

/// A take is as long along each axis as its number says. An item stands as far from the start of each axis as in B, or from
/// its end where the number is negative; where none of B's would stand, the fill does. The call does nothing.
pub fn takes_keep_the_distance_from_an_end()
    ensures shape { (a b r : PlainArray) → take_of a b ≡ Ok r → r.shape ≡ taken_shape a }
    ensures taken { (a b r : PlainArray) (source from to : ListOf ℕ) (item : Item) → IsArray b → take_of a b ≡ Ok r → source ≡ axes_for (item_count a.items) b → AreWithin source from → AreWithin r.shape to
        → AreTakenTo a source from to → IsItemOf b.items (place_of source from) item → IsItemOf r.items (place_of r.shape to) item }
    ensures filled { (a b r : PlainArray) (source to : ListOf ℕ) → IsArray b → take_of a b ≡ Ok r → source ≡ axes_for (item_count a.items) b → AreWithin r.shape to
        → ((from : ListOf ℕ) → AreWithin source from → ¬ AreTakenTo a source from to) → IsItemOf r.items (place_of r.shape to) (fill_of b.items) }
{}

/// A drop is shorter along each axis by its number, and empty where that is too short. The item at each of its places is the
/// one of B as many places on as the number says, or at the same place where it is negative. The call does nothing.
pub fn drops_leave_the_others_in_order()
    ensures shape { (a b r : PlainArray) → drop_of a b ≡ Ok r → r.shape ≡ remaining_shape a (axes_for (item_count a.items) b) }
    ensures left { (a b r : PlainArray) (source from to : ListOf ℕ) (item : Item) → drop_of a b ≡ Ok r → source ≡ axes_for (item_count a.items) b → AreWithin source from → AreWithin r.shape to
        → AreLeftAt a source from to → IsItemOf b.items (place_of source from) item → IsItemOf r.items (place_of r.shape to) item }
{}

/// What was turned is turned back by the opposite numbers: `(-A)⌽A⌽B` is B, along any axis. The call does nothing.
#[tactic(auto, using(crate::proofs::RotateLaws::turned_back))]
pub fn what_was_turned_is_turned_back()
    ensures { (a b turned : PlainArray) (way : PlainWay) (axis : Option ℤ) → IsArray b → rotate_of a b way axis ≡ Ok turned → rotate_of (opposite a) turned way axis ≡ Ok b }
{}

/// Takes and drops: `2↑5 6 7` is 5 6, `¯2↑5 6 7` is 6 7, `4↑5 6` is 5 6 0 0 and `¯4↑5 6` is 0 0 5 6; `1↓5 6 7` is 6 7,
/// `¯1↓5 6 7` is 5 6, and nothing is left of `9↓5 6`; of a matrix the first row and the last three columns, filled; blanks
/// fill characters; a scalar takes the rank that is asked for. The call does nothing.
pub fn takes_and_drops_begin_at_an_end()
    ensures first { take_of (scalar (pos 2)) (number_array (3 ∷ []) (pos 5 ∷ pos 6 ∷ pos 7 ∷ [])) ≡ Ok (number_array (2 ∷ []) (pos 5 ∷ pos 6 ∷ [])) }
    ensures last { take_of (scalar (negsuc 1)) (number_array (3 ∷ []) (pos 5 ∷ pos 6 ∷ pos 7 ∷ [])) ≡ Ok (number_array (2 ∷ []) (pos 6 ∷ pos 7 ∷ [])) }
    ensures over { take_of (scalar (pos 4)) (number_array (2 ∷ []) (pos 5 ∷ pos 6 ∷ [])) ≡ Ok (number_array (4 ∷ []) (pos 5 ∷ pos 6 ∷ pos 0 ∷ pos 0 ∷ [])) }
    ensures before { take_of (scalar (negsuc 3)) (number_array (2 ∷ []) (pos 5 ∷ pos 6 ∷ [])) ≡ Ok (number_array (4 ∷ []) (pos 0 ∷ pos 0 ∷ pos 5 ∷ pos 6 ∷ [])) }
    ensures corner { take_of (number_array (2 ∷ []) (pos 1 ∷ negsuc 2 ∷ [])) (number_array (2 ∷ 2 ∷ []) (pos 1 ∷ pos 2 ∷ pos 3 ∷ pos 4 ∷ [])) ≡ Ok (number_array (1 ∷ 3 ∷ []) (pos 0 ∷ pos 1 ∷ pos 2 ∷ [])) }
    ensures blank { take_of (scalar (pos 3)) (char_array (2 ∷ []) (65 ∷ 66 ∷ [])) ≡ Ok (char_array (3 ∷ []) (65 ∷ 66 ∷ 32 ∷ [])) }
    ensures rank { take_of (number_array (2 ∷ []) (pos 1 ∷ pos 2 ∷ [])) (scalar (pos 7)) ≡ Ok (number_array (1 ∷ 2 ∷ []) (pos 7 ∷ pos 0 ∷ [])) }
    ensures without_first { drop_of (scalar (pos 1)) (number_array (3 ∷ []) (pos 5 ∷ pos 6 ∷ pos 7 ∷ [])) ≡ Ok (number_array (2 ∷ []) (pos 6 ∷ pos 7 ∷ [])) }
    ensures without_last { drop_of (scalar (negsuc 0)) (number_array (3 ∷ []) (pos 5 ∷ pos 6 ∷ pos 7 ∷ [])) ≡ Ok (number_array (2 ∷ []) (pos 5 ∷ pos 6 ∷ [])) }
    ensures nothing { drop_of (scalar (pos 9)) (number_array (2 ∷ []) (pos 5 ∷ pos 6 ∷ [])) ≡ Ok (number_array (0 ∷ []) ([])) }
    ensures rest { drop_of (number_array (2 ∷ []) (pos 1 ∷ negsuc 0 ∷ [])) (number_array (2 ∷ 3 ∷ []) (pos 1 ∷ pos 2 ∷ pos 3 ∷ pos 4 ∷ pos 5 ∷ pos 6 ∷ [])) ≡ Ok (number_array (1 ∷ 2 ∷ []) (pos 4 ∷ pos 5 ∷ [])) }
{}

/// Rotations: `1⌽1 2 3` is 2 3 1, `¯1⌽1 2 3` is 3 1 2, and so is `5⌽1 2 3`; of a matrix each row by its own number, and
/// each column by its own along the first axis. The call does nothing.
pub fn rotations_go_to_the_front()
    ensures one { rotate_of (scalar (pos 1)) (number_array (3 ∷ []) (pos 1 ∷ pos 2 ∷ pos 3 ∷ [])) Way.Last None ≡ Ok (number_array (3 ∷ []) (pos 2 ∷ pos 3 ∷ pos 1 ∷ [])) }
    ensures back { rotate_of (scalar (negsuc 0)) (number_array (3 ∷ []) (pos 1 ∷ pos 2 ∷ pos 3 ∷ [])) Way.Last None ≡ Ok (number_array (3 ∷ []) (pos 3 ∷ pos 1 ∷ pos 2 ∷ [])) }
    ensures around { rotate_of (scalar (pos 5)) (number_array (3 ∷ []) (pos 1 ∷ pos 2 ∷ pos 3 ∷ [])) Way.Last None ≡ Ok (number_array (3 ∷ []) (pos 3 ∷ pos 1 ∷ pos 2 ∷ [])) }
    ensures rows { rotate_of (number_array (2 ∷ []) (pos 0 ∷ pos 1 ∷ [])) (number_array (2 ∷ 3 ∷ []) (pos 1 ∷ pos 2 ∷ pos 3 ∷ pos 4 ∷ pos 5 ∷ pos 6 ∷ [])) Way.Last None ≡ Ok (number_array (2 ∷ 3 ∷ []) (pos 1 ∷ pos 2 ∷ pos 3 ∷ pos 5 ∷ pos 6 ∷ pos 4 ∷ [])) }
    ensures columns { rotate_of (number_array (3 ∷ []) (pos 0 ∷ pos 1 ∷ pos 0 ∷ [])) (number_array (2 ∷ 3 ∷ []) (pos 1 ∷ pos 2 ∷ pos 3 ∷ pos 4 ∷ pos 5 ∷ pos 6 ∷ [])) Way.First None ≡ Ok (number_array (2 ∷ 3 ∷ []) (pos 1 ∷ pos 5 ∷ pos 3 ∷ pos 4 ∷ pos 2 ∷ pos 6 ∷ [])) }
    ensures scalar { rotate_of (scalar (pos 3)) (scalar (pos 7)) Way.Last None ≡ Ok (scalar (pos 7)) }
{}

/// Items in other places: the rows of `⍉2 3⍴⍳6` are its columns, `⊖` has the last row first and `⌽` the last column,
/// `1 1⍉2 3⍴⍳6` is 1 5, and `5⍴1 2 3` begins again with 1. The call does nothing.
pub fn items_go_to_other_places()
    ensures columns { transpose_of (number_array (2 ∷ 3 ∷ []) (pos 1 ∷ pos 2 ∷ pos 3 ∷ pos 4 ∷ pos 5 ∷ pos 6 ∷ [])) ≡ Ok (number_array (3 ∷ 2 ∷ []) (pos 1 ∷ pos 4 ∷ pos 2 ∷ pos 5 ∷ pos 3 ∷ pos 6 ∷ [])) }
    ensures last_row { reverse_of (number_array (2 ∷ 2 ∷ []) (pos 1 ∷ pos 2 ∷ pos 3 ∷ pos 4 ∷ [])) Way.First None ≡ Ok (number_array (2 ∷ 2 ∷ []) (pos 3 ∷ pos 4 ∷ pos 1 ∷ pos 2 ∷ [])) }
    ensures last_column { reverse_of (number_array (2 ∷ 2 ∷ []) (pos 1 ∷ pos 2 ∷ pos 3 ∷ pos 4 ∷ [])) Way.Last None ≡ Ok (number_array (2 ∷ 2 ∷ []) (pos 2 ∷ pos 1 ∷ pos 4 ∷ pos 3 ∷ [])) }
    ensures diagonal { transpose_by_of (number_array (2 ∷ []) (pos 1 ∷ pos 1 ∷ [])) (number_array (2 ∷ 3 ∷ []) (pos 1 ∷ pos 2 ∷ pos 3 ∷ pos 4 ∷ pos 5 ∷ pos 6 ∷ [])) ≡ Ok (number_array (2 ∷ []) (pos 1 ∷ pos 5 ∷ [])) }
    ensures again { reshape_of (scalar (pos 5)) (number_array (3 ∷ []) (pos 1 ∷ pos 2 ∷ pos 3 ∷ [])) ≡ Ok (number_array (5 ∷ []) (pos 1 ∷ pos 2 ∷ pos 3 ∷ pos 1 ∷ pos 2 ∷ [])) }
{}
