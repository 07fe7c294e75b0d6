//! Worked bytes, right ones and wrong ones. The calls do nothing.

ghost use Rattle.std.specs.Prelude.{◌≡◌, ◌++◌, ◌∷◌, [], None, Ok, Some, slice_set, take};
ghost use Rattle.ws_codec.specs.Saved.{saved_reading, saved_of, spoils};
ghost use Rattle.ws_codec.specs.SavedText.{saved, saved1};
ghost use Rattle.ws_codec.specs.Worked.{first_bytes, offer_front, offer_to, offered_bytes, second_objects, three, three_alone, three_offered, twice, two_hundred, up_to_character, up_to_rank};

use crate::SavedRule;

/// X is 3, alone and offered to 1002, in both versions.
pub fn worked_bytes()
    ensures alone { saved three_alone ≡ second_objects ++ 0 ∷ [] }
    ensures offered { saved three_offered ≡ offered_bytes }
    ensures first { saved1 three_alone ≡ first_bytes }
{}

/// What these bytes are read as.
pub fn worked_bytes_are_read()
    ensures first { saved_reading first_bytes ≡ Ok (saved_of three []) }
    ensures second { saved_reading (second_objects ++ 0 ∷ []) ≡ Ok (saved_of three []) }
    ensures offered { saved_reading offered_bytes ≡ Ok (saved_of three (offer_to 1002 ∷ [])) }
{}

/// The first field that breaks a rule, in bytes with a mistake.
pub fn worked_mistakes()
    ensures magic { spoils (slice_set first_bytes 0 0x42) ≡ Some (0, SavedRule.Magic) }
    ensures version { spoils (slice_set first_bytes 4 0x03) ≡ Some (4, SavedRule.Version) }
    ensures kind { spoils (slice_set first_bytes 9 0x04) ≡ Some (9, SavedRule.Kind) }
    ensures name { spoils (slice_set first_bytes 11 0x31) ≡ Some (10, SavedRule.Name) }
    ensures size { spoils (slice_set first_bytes 12 0x09) ≡ Some (12, SavedRule.Size) }
    ensures cut { spoils (take 20 first_bytes) ≡ Some (20, SavedRule.Short) }
    ensures rest { spoils (first_bytes ++ 0 ∷ []) ≡ Some (21, SavedRule.Rest) }
    ensures offers { spoils (second_objects ++ 65 ∷ []) ≡ Some (21, SavedRule.Limit) }
    ensures party { spoils (second_objects ++ (offer_front ++ (0x03 ∷ 0x01 ∷ []))) ≡ Some (26, SavedRule.Offer) }
    ensures order { spoils twice ≡ Some (22, SavedRule.Order) }
    ensures glyph { spoils (up_to_character ++ 0x7F ∷ []) ≡ Some (13, SavedRule.Glyph) }
    ensures axis { spoils (up_to_rank ++ 1 ∷ 0 ∷ 0 ∷ 0x40 ∷ 1 ∷ []) ≡ Some (13, SavedRule.Size) }
    ensures product { spoils (up_to_rank ++ 2 ∷ two_hundred ++ two_hundred) ≡ Some (17, SavedRule.Size) }
    ensures no_mistake { spoils (up_to_rank ++ 3 ∷ two_hundred ++ two_hundred ++ 0 ∷ 0 ∷ 0 ∷ 0 ∷ []) ≡ None }
    ensures no_offers { spoils second_objects ≡ Some (21, SavedRule.Short) }
{}
