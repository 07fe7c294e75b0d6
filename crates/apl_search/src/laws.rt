//! What holds of the definitions: laws of items in order, and worked examples.

ghost use Rattle.std.specs.Prelude.{◌≡◌, ◌<◌, ◌^◌, ℕ, ℤ, List, [], ◌∷◌, Ok, Some, pos, negsuc, map};
ghost use Rattle.std.specs.declared.cmp.Ordering.{Ordering};
ghost use Rattle.std.specs.List.Sorted.{IsPermutation, IsSorted};
ghost use Rattle.apl_arrays.specs.Array.{chars, number_array, numbers, scalar};
ghost use Rattle.apl_items.specs.Places.{places};
ghost use Rattle.apl_search.specs.Decode.{decode_of, value_after};
ghost use Rattle.apl_search.specs.Encode.{digit_at, encode_of};
ghost use Rattle.apl_search.specs.Grade.{by_item, falling, grade, in_order, rising, with_places};
ghost use Rattle.apl_search.specs.Lookup.{first_places, memberships};
ghost use Rattle.apl_arrays.specs.Number.{product};
ghost use Rattle.apl_search.specs.RoundTrip.{AreBases, GivesBack, vector_of_bases};

/// A grade has each number with its place once, and they stand in order: by the number, and of equal numbers by the
/// place. The call does nothing.
#[tactic(auto, using(crate::proofs::GradeLemmas::grades_sort))]
pub fn grades_put_numbers_in_order()
    ensures once { (order : ℤ → ℤ → Ordering) (list : List ℤ) → IsPermutation (with_places list) (in_order (by_item order) (with_places list)) }
    ensures up { (list : List ℤ) → IsSorted (by_item rising) (in_order (by_item rising) (with_places list)) }
    ensures down { (list : List ℤ) → IsSorted (by_item falling) (in_order (by_item falling) (with_places list)) }
{}

/// The places of 3 1 4 1 5 in order, both ways. The call does nothing.
pub fn equal_numbers_keep_their_order()
    ensures up { grade rising (pos 3 ∷ pos 1 ∷ pos 4 ∷ pos 1 ∷ pos 5 ∷ []) ≡ pos 2 ∷ pos 4 ∷ pos 1 ∷ pos 3 ∷ pos 5 ∷ [] }
    ensures down { grade falling (pos 3 ∷ pos 1 ∷ pos 4 ∷ pos 1 ∷ pos 5 ∷ []) ≡ pos 5 ∷ pos 3 ∷ pos 1 ∷ pos 2 ∷ pos 4 ∷ [] }
{}

/// The first of equal items is found, what is not there has the place past the last, and a character is no number. The
/// call does nothing.
pub fn the_first_place_counts()
    ensures places { first_places (numbers (pos 3 ∷ pos 1 ∷ pos 4 ∷ pos 1 ∷ [])) (numbers (pos 1 ∷ pos 9 ∷ [])) ≡ pos 2 ∷ pos 5 ∷ [] }
    ensures unlike { first_places (chars (49 ∷ 50 ∷ [])) (numbers (pos 49 ∷ [])) ≡ pos 3 ∷ [] }
    ensures members { memberships (numbers (pos 1 ∷ pos 5 ∷ [])) (numbers (pos 3 ∷ pos 1 ∷ [])) ≡ pos 1 ∷ pos 0 ∷ [] }
{}

/// The digits of a number by positive bases have it as their value by these bases, where it is below their product. The
/// call does nothing.
#[tactic(auto, using(crate::proofs::RoundTripLemmas::gives_back))]
pub fn digits_give_their_number_back()
    ensures { (bases : List ℕ) (number : ℕ) → AreBases bases → number < product bases → number < 2 ^ 63 → GivesBack (vector_of_bases bases) (scalar (pos number)) }
{}

/// An hour, a minute and a second are 3661 seconds, and back. The call does nothing.
pub fn hours_are_seconds()
    ensures value { value_after (pos 24 ∷ pos 60 ∷ pos 60 ∷ []) (pos 1 ∷ pos 1 ∷ pos 1 ∷ []) 3 ≡ Some (pos 3661) }
    ensures digits { map (λ at. digit_at (pos 24 ∷ pos 60 ∷ pos 60 ∷ []) (pos 3661) at) (places 3) ≡ pos 1 ∷ pos 1 ∷ pos 1 ∷ [] }
    ensures all_left { map (λ at. digit_at (pos 0 ∷ pos 10 ∷ []) (negsuc 0) at) (places 2) ≡ negsuc 0 ∷ pos 9 ∷ [] }
{}

/// The digits of each number stand in a column: those of `2 2 2⊤5 3` are 1 0 1 and 0 1 1, and `2⊥1 0 1` is 5. The call does
/// nothing.
pub fn digits_of_a_number_stand_in_a_column()
    ensures digits { encode_of (number_array (3 ∷ []) (pos 2 ∷ pos 2 ∷ pos 2 ∷ [])) (number_array (2 ∷ []) (pos 5 ∷ pos 3 ∷ [])) ≡ Ok (number_array (3 ∷ 2 ∷ []) (pos 1 ∷ pos 0 ∷ pos 0 ∷ pos 1 ∷ pos 1 ∷ pos 1 ∷ [])) }
    ensures value { decode_of (scalar (pos 2)) (number_array (3 ∷ []) (pos 1 ∷ pos 0 ∷ pos 1 ∷ [])) ≡ Ok (scalar (pos 5)) }
{}
