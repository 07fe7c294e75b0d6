//! What holds of the definitions: laws of places and shapes, and worked examples.

ghost use Rattle.std.specs.Prelude.{◌≡◌, ◌+◌, ◌*◌, ◌<◌, ◌-◌, ℕ, Bool, true, false, List, [], ◌∷◌, Option, Some, None, pos, map, length, nat_lt, if◌then◌else◌};
ghost use Rattle.apl_arrays.specs.Array.{element_count, numbers, chars};
ghost use Rattle.apl_arrays.specs.Glyph.{blank};
ghost use Rattle.apl_items.specs.Along.{source_along};
ghost use Rattle.apl_items.specs.Answers.{first_report, no_faults};
ghost use Rattle.apl_items.specs.Axes.{offset_at, source_by_axes};
ghost use Rattle.apl_items.specs.Moves.{moved};
ghost use Rattle.apl_items.specs.Places.{places};
ghost use Rattle.apl_items.specs.Shapes.{AreWithin, along_of, coordinates_of, inner_of, outer_of, place_along, place_of, split_at, split_count};

use crate::Split;
use apl_arrays::Report;

/// Of several faults the first of RANK, LENGTH, DOMAIN, INDEX, WS FULL is reported, and none where nothing is wrong. The
/// call does nothing.
pub fn reports_stand_in_order()
    ensures rank { (length domain index large : Bool) → first_report (record { bad_rank = true; bad_length = length; bad_domain = domain; bad_index = index; too_large = large }) ≡ Some Report.Rank }
    ensures length { (domain index large : Bool) → first_report (record { bad_rank = false; bad_length = true; bad_domain = domain; bad_index = index; too_large = large }) ≡ Some Report.Length }
    ensures domain { (index large : Bool) → first_report (record { bad_rank = false; bad_length = false; bad_domain = true; bad_index = index; too_large = large }) ≡ Some Report.Domain }
    ensures index { (large : Bool) → first_report (record { bad_rank = false; bad_length = false; bad_domain = false; bad_index = true; too_large = large }) ≡ Some Report.Index }
    ensures large { first_report (record no_faults { too_large = true }) ≡ Some Report.WsFull }
    ensures none { first_report no_faults ≡ None }
{}

/// Places and coordinates name each other, in row-major order. The call does nothing.
#[tactic(auto, using(crate::proofs::ShapeLemmas::places_and_coordinates))]
pub fn places_and_coordinates_agree()
    ensures place { (shape : List ℕ) (place : ℕ) → place < element_count shape → place_of shape (coordinates_of shape place) ≡ place }
    ensures within { (shape : List ℕ) (place : ℕ) → place < element_count shape → AreWithin shape (coordinates_of shape place) }
    ensures coordinates { (shape coordinates : List ℕ) → AreWithin shape coordinates → coordinates_of shape (place_of shape coordinates) ≡ coordinates }
    ensures below { (shape coordinates : List ℕ) → AreWithin shape coordinates → place_of shape coordinates < element_count shape }
{}

/// The coordinates of the places of a matrix of two rows and three columns. The call does nothing.
pub fn rows_stand_one_after_another()
    ensures { map (coordinates_of (2 ∷ 3 ∷ [])) (places 6) ≡ (0 ∷ 0 ∷ []) ∷ (0 ∷ 1 ∷ []) ∷ (0 ∷ 2 ∷ []) ∷ (1 ∷ 0 ∷ []) ∷ (1 ∷ 1 ∷ []) ∷ (1 ∷ 2 ∷ []) ∷ [] }
{}

/// A shape seen from an axis has the same places, and a place is made of its row, where it is along the axis, and its
/// item there. The call does nothing.
#[tactic(auto, using(crate::proofs::ShapeLemmas::splits))]
pub fn splits_name_places()
    ensures count { (shape : List ℕ) (axis : ℕ) → axis < length shape → split_count (split_at shape axis) ≡ element_count shape }
    ensures below { (split : Split) (outer along inner : ℕ) → outer < split.outer → along < split.along → inner < split.inner → place_along split outer along inner < split_count split }
    ensures outer { (split : Split) (outer along inner : ℕ) → along < split.along → inner < split.inner → outer_of split (place_along split outer along inner) ≡ outer }
    ensures along { (split : Split) (outer along inner : ℕ) → along < split.along → inner < split.inner → along_of split (place_along split outer along inner) ≡ along }
    ensures inner { (split : Split) (outer along inner : ℕ) → inner < split.inner → inner_of split (place_along split outer along inner) ≡ inner }
    ensures whole { (split : Split) (place : ℕ) → place_along split (outer_of split place) (along_of split place) (inner_of split place) ≡ place }
{}

/// Two numbers taken from the end of a list and one that is not there, and the same of characters: a number is filled
/// by 0, a character by the blank. The call does nothing.
pub fn items_move_or_are_filled()
    ensures numbers { moved (3 ∷ []) (numbers (pos 7 ∷ pos 8 ∷ pos 9 ∷ [])) (λ place. if nat_lt place 2 then Some (place + 1) else None)
        ≡ record { shape = 3 ∷ []; items = numbers (pos 8 ∷ pos 9 ∷ pos 0 ∷ []) } }
    ensures chars { moved (3 ∷ []) (chars (65 ∷ 66 ∷ 67 ∷ [])) (λ place. if nat_lt place 2 then Some (place + 1) else None)
        ≡ record { shape = 3 ∷ []; items = chars (66 ∷ 67 ∷ blank ∷ []) } }
{}

/// A matrix of two rows and three columns, its rows and its columns exchanged by offsets along the axes of the result.
/// The call does nothing.
pub fn columns_become_rows()
    ensures { moved (3 ∷ 2 ∷ []) (numbers (pos 1 ∷ pos 2 ∷ pos 3 ∷ pos 4 ∷ pos 5 ∷ pos 6 ∷ [])) (source_by_axes (3 ∷ 2 ∷ []) (λ axis along. Some (if nat_lt axis 1 then along else 3 * along)))
        ≡ record { shape = 3 ∷ 2 ∷ []; items = numbers (pos 1 ∷ pos 4 ∷ pos 2 ∷ pos 5 ∷ pos 3 ∷ pos 6 ∷ []) } }
{}

/// The source place at coordinates is the sum of the offsets there. The call does nothing.
#[tactic(auto, using(crate::proofs::ShapeLemmas::coordinates_of_place))]
pub fn offsets_add_up()
    ensures { (offset : ℕ → ℕ → Option ℕ) (shape coordinates : List ℕ) → AreWithin shape coordinates → source_by_axes shape offset (place_of shape coordinates) ≡ offset_at offset 0 coordinates }
{}

/// A matrix of two rows and three columns, with its rows turned round. The call does nothing.
pub fn rows_turned_round()
    ensures { moved (2 ∷ 3 ∷ []) (numbers (pos 1 ∷ pos 2 ∷ pos 3 ∷ pos 4 ∷ pos 5 ∷ pos 6 ∷ [])) (source_along (split_at (2 ∷ 3 ∷ []) 1) 3 (λ line along. Some (2 - along)))
        ≡ record { shape = 2 ∷ 3 ∷ []; items = numbers (pos 3 ∷ pos 2 ∷ pos 1 ∷ pos 6 ∷ pos 5 ∷ pos 4 ∷ []) } }
{}
