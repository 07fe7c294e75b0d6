//! Worked stretches: what is sent, taken out and used in them, and which statements would be wrong. The calls do nothing.

ghost use Rattle.std.specs.Prelude.{◌≡◌, ◌+◌, false, [], ◌∷◌, length, Some, IsTrue};
ghost use Rattle.sv_access.specs.declared.access.Side.TheVariants.{A, B};
ghost use Rattle.sv_access.specs.declared.access.Kind.TheVariants.{Set, Use};
ghost use Rattle.sv_rules.specs.Legal.{IsLegal};
ghost use Rattle.sv_rules.specs.Story.{first_set};
ghost use Rattle.sv_delivery_laws.specs.Sent.{set_by, used_by, unseen_value, values_sent, taken_out, values_remaining};
ghost use Rattle.sv_delivery_laws.specs.Turns.{takes_turns};
ghost use Rattle.sv_delivery_laws.specs.Stretch.{IsStretch, story_before, story_in, story_after, is_controlled, is_full_for};
ghost use Rattle.sv_delivery_laws.specs.DeliveryLaws.{IsHeldFor, LosesNothing, IsUsedInOrder, IsFeed, AreUsesHeld, IsExchange, EachIsUsed};
ghost use Rattle.sv_delivery_laws.specs.Worked.{users, number_value, set_over_unseen, ends_unseen, seen_later, begins_alone, ends_alone, joined_later, opens_again, begins_too_early, ends_retracted, given_by_b, control_is_lifted, first_and_fourth, second_and_third, only_first, only_second, only_third, only_fourth, set_twice, used_twice, used_before, two_unseen, asked_twice, begins_unseen, reply_unseen, asks_itself, replies_to_itself, third_and_fourth, hands_in, to_the_end};

/// A value that its receiver sets over is taken out, and then no more remains than was used. Without the taking out the
/// statement would be wrong: what was sent is not what was used.
pub fn set_over_is_taken_out()
    ensures legal { IsLegal users (to_the_end set_over_unseen) }
    ensures stretch { IsStretch [] set_over_unseen }
    ensures held_for_a { IsHeldFor A set_over_unseen }
    ensures held_for_b { IsHeldFor B set_over_unseen }
    ensures sent { values_sent A (story_in set_over_unseen) (story_before set_over_unseen) ≡ number_value 2 ∷ number_value 1 ∷ [] }
    ensures taken_out { taken_out A (story_in set_over_unseen) (story_before set_over_unseen) ≡ number_value 1 ∷ [] }
    ensures remaining { values_remaining A (story_in set_over_unseen) (story_before set_over_unseen) ≡ number_value 2 ∷ [] }
    ensures used { used_by B (story_in set_over_unseen) ≡ number_value 2 ∷ [] }
    ensures seen { unseen_value A (story_after set_over_unseen) ≡ [] }
    ensures sent_back { values_remaining B (story_in set_over_unseen) (story_before set_over_unseen) ≡ number_value 9 ∷ [] }
    ensures used_back { used_by A (story_in set_over_unseen) ≡ number_value 9 ∷ [] }
    ensures not_in_order { IsUsedInOrder A (story_after set_over_unseen) → ⊥ }
    ensures all_sent { ¬ (values_sent A (story_in set_over_unseen) (story_before set_over_unseen) ≡ used_by B (story_in set_over_unseen)) }
    ensures one_more { ¬ (length (values_remaining A (story_in set_over_unseen) (story_before set_over_unseen)) ≡ length (used_by B (story_in set_over_unseen)) + 1) }
{}

/// A stretch may end while a value is unseen, which then is the one that remains beside those used; two do not remain, and
/// where two sets are unseen the journal is not legal.
pub fn one_remains_unseen()
    ensures legal { IsLegal users (to_the_end ends_unseen) }
    ensures stretch { IsStretch [] ends_unseen }
    ensures in_the_middle { IsStretch seen_later ends_unseen }
    ensures remaining { values_remaining A (story_in ends_unseen) (story_before ends_unseen) ≡ number_value 2 ∷ [] }
    ensures used { used_by B (story_in ends_unseen) ≡ [] }
    ensures unseen { unseen_value A (story_after ends_unseen) ≡ number_value 2 ∷ [] }
    ensures two_more { ¬ (length (values_remaining A (story_in ends_unseen) (story_before ends_unseen)) ≡ length (used_by B (story_in ends_unseen)) + 2) }
    ensures two_unseen { values_remaining A (story_in two_unseen) (story_before two_unseen) ≡ number_value 2 ∷ number_value 1 ∷ [] }
    ensures two_controlled { IsHeldFor A two_unseen }
    ensures two_illegal { ¬ IsLegal users (to_the_end two_unseen) }
{}

/// A stretch may begin before the coupling is made, and may end there too.
pub fn stretches_begin_before_the_coupling()
    ensures legal { IsLegal users (to_the_end begins_alone) }
    ensures stretch { IsStretch [] begins_alone }
    ensures held { IsHeldFor A begins_alone }
    ensures not_for_b { is_controlled 2 begins_alone ≡ false }
    ensures sent { values_remaining A (story_in begins_alone) (story_before begins_alone) ≡ number_value 2 ∷ number_value 1 ∷ [] }
    ensures used { used_by B (story_in begins_alone) ≡ number_value 2 ∷ number_value 1 ∷ [] }
    ensures ends { IsStretch joined_later ends_alone }
    ensures ends_held { IsHeldFor A ends_alone }
    ensures sent_alone { values_remaining A (story_in ends_alone) (story_before ends_alone) ≡ number_value 1 ∷ [] }
    ensures unseen_alone { unseen_value A (story_after ends_alone) ≡ number_value 1 ∷ [] }
    ensures used_alone { used_by B (story_in ends_alone) ≡ [] }
{}

/// An offer that opens again begins its story with what its party knew, which is the first value that is sent. No stretch
/// begins before that opening, and none ends behind its coupling.
pub fn stretches_begin_behind_the_opening()
    ensures legal { IsLegal users (to_the_end opens_again) }
    ensures stretch { IsStretch [] opens_again }
    ensures held { IsHeldFor A opens_again }
    ensures first { story_before opens_again ≡ first_set A (Some (number_value 1)) }
    ensures sent { values_remaining A (story_in opens_again) (story_before opens_again) ≡ number_value 2 ∷ number_value 1 ∷ [] }
    ensures used { used_by B (story_in opens_again) ≡ number_value 2 ∷ number_value 1 ∷ [] }
    ensures feed { IsFeed A opens_again }
    ensures not_earlier { IsStretch [] begins_too_early → ⊥ }
    ensures legal_to_its_end { IsLegal users (to_the_end ends_retracted) }
    ensures not_later { IsStretch [] ends_retracted → ⊥ }
{}

/// Side B may be the giver before it is coupled: what its vector says of its own sets and its partner's uses are the
/// elements 2 and 3 there, and not 1 and 4.
pub fn side_b_gives()
    ensures legal { IsLegal users (to_the_end given_by_b) }
    ensures stretch { IsStretch [] given_by_b }
    ensures held { IsHeldFor B given_by_b }
    ensures not_for_a { is_controlled 1 given_by_b ≡ false }
    ensures nor_so { is_controlled 4 given_by_b ≡ false }
    ensures sent { values_remaining B (story_in given_by_b) (story_before given_by_b) ≡ number_value 6 ∷ number_value 5 ∷ [] }
    ensures used { used_by A (story_in given_by_b) ≡ number_value 6 ∷ number_value 5 ∷ [] }
    ensures feed { IsFeed B given_by_b }
{}

/// Where a control is lifted in a stretch nothing is said: a value may be lost.
pub fn lifted_control_says_nothing()
    ensures legal { IsLegal users (to_the_end control_is_lifted) }
    ensures stretch { IsStretch [] control_is_lifted }
    ensures lifted { is_controlled 1 control_is_lifted ≡ false }
    ensures lost { LosesNothing A control_is_lifted → ⊥ }
{}

/// The elements of the other direction say nothing: 2 and 3 of what A sends, and 1 and 4 of what B sends.
pub fn the_other_elements_say_nothing()
    ensures legal { IsLegal users (to_the_end (set_twice second_and_third 1001 1002)) }
    ensures stretch { IsStretch [] (set_twice second_and_third 1001 1002) }
    ensures held_for_b { IsHeldFor B (set_twice second_and_third 1001 1002) }
    ensures lost { LosesNothing A (set_twice second_and_third 1001 1002) → ⊥ }
    ensures turned_legal { IsLegal users (to_the_end (set_twice first_and_fourth 1002 1001)) }
    ensures turned_stretch { IsStretch [] (set_twice first_and_fourth 1002 1001) }
    ensures held_for_a { IsHeldFor A (set_twice first_and_fourth 1002 1001) }
    ensures turned_lost { LosesNothing B (set_twice first_and_fourth 1002 1001) → ⊥ }
{}

/// Neither does one element alone, since without that of its sets a side sets over its own value, and without that of its
/// uses the other side uses one twice.
pub fn one_element_says_nothing()
    ensures first_legal { IsLegal users (to_the_end (used_twice only_first 1001 1002)) }
    ensures first_stretch { IsStretch [] (used_twice only_first 1001 1002) }
    ensures first_held { IsTrue (is_controlled 1 (used_twice only_first 1001 1002)) }
    ensures first_lost { LosesNothing A (used_twice only_first 1001 1002) → ⊥ }
    ensures fourth_legal { IsLegal users (to_the_end (set_twice only_fourth 1001 1002)) }
    ensures fourth_stretch { IsStretch [] (set_twice only_fourth 1001 1002) }
    ensures fourth_held { IsTrue (is_controlled 4 (set_twice only_fourth 1001 1002)) }
    ensures fourth_lost { LosesNothing A (set_twice only_fourth 1001 1002) → ⊥ }
    ensures second_legal { IsLegal users (to_the_end (used_twice only_second 1002 1001)) }
    ensures second_stretch { IsStretch [] (used_twice only_second 1002 1001) }
    ensures second_held { IsTrue (is_controlled 2 (used_twice only_second 1002 1001)) }
    ensures second_lost { LosesNothing B (used_twice only_second 1002 1001) → ⊥ }
    ensures third_legal { IsLegal users (to_the_end (set_twice only_third 1002 1001)) }
    ensures third_stretch { IsStretch [] (set_twice only_third 1002 1001) }
    ensures third_held { IsTrue (is_controlled 3 (set_twice only_third 1002 1001)) }
    ensures third_lost { LosesNothing B (set_twice only_third 1002 1001) → ⊥ }
{}

/// A value that is handed in with an offer is the first that its side sends.
pub fn handed_in_is_sent_first()
    ensures legal { IsLegal users (to_the_end hands_in) }
    ensures stretch { IsStretch [] hands_in }
    ensures held { IsHeldFor A hands_in }
    ensures feed { IsFeed A hands_in }
    ensures first { story_before hands_in ≡ first_set A (Some (number_value 7)) }
    ensures sent { set_by A (story_after hands_in) ≡ number_value 8 ∷ number_value 7 ∷ [] }
    ensures used { used_by B (story_after hands_in) ≡ number_value 7 ∷ [] }
    ensures unseen { unseen_value A (story_after hands_in) ≡ number_value 8 ∷ [] }
{}

/// A feed begins before its values are used: of one that was used twice nothing makes the whole story one.
pub fn feeds_begin_in_order()
    ensures legal { IsLegal users (to_the_end used_before) }
    ensures stretch { IsStretch [] used_before }
    ensures held { IsHeldFor A used_before }
    ensures one_way { set_by B (story_in used_before) ≡ [] }
    ensures stretch_used { used_by B (story_in used_before) ≡ number_value 8 ∷ [] }
    ensures not_begun { IsUsedInOrder A (story_before used_before) → ⊥ }
    ensures not_in_order { IsUsedInOrder A (story_after used_before) → ⊥ }
{}

/// Requests have one reply each, and the last one here is unseen.
pub fn requests_are_answered()
    ensures legal { IsLegal users (to_the_end asked_twice) }
    ensures stretch { IsStretch [] asked_twice }
    ensures full { IsTrue (is_full_for A asked_twice) }
    ensures not_for_b { is_full_for B asked_twice ≡ false }
    ensures held_for_a { IsHeldFor A asked_twice }
    ensures held_for_b { IsHeldFor B asked_twice }
    ensures uses { AreUsesHeld asked_twice }
    ensures exchange { IsExchange A asked_twice }
    ensures asked { set_by A (story_in asked_twice) ≡ number_value 2 ∷ number_value 1 ∷ [] }
    ensures heard { used_by B (story_in asked_twice) ≡ number_value 2 ∷ number_value 1 ∷ [] }
    ensures replied { set_by B (story_in asked_twice) ≡ number_value 20 ∷ number_value 10 ∷ [] }
    ensures answered { used_by A (story_in asked_twice) ≡ number_value 10 ∷ [] }
    ensures unseen { unseen_value B (story_after asked_twice) ≡ number_value 20 ∷ [] }
{}

/// Of requests nothing is said where one side does not take turns, or the other begins with a set.
pub fn requests_take_turns()
    ensures stretch { IsStretch [] set_over_unseen }
    ensures sets_first { takes_turns Use B (story_in set_over_unseen) ≡ false }
    ensures asks { IsTrue (takes_turns Set A (story_in set_over_unseen)) }
    ensures held { AreUsesHeld set_over_unseen }
    ensures not_used { EachIsUsed A set_over_unseen → ⊥ }
    ensures twice_legal { IsLegal users (to_the_end (set_twice third_and_fourth 1001 1002)) }
    ensures twice_stretch { IsStretch [] (set_twice third_and_fourth 1001 1002) }
    ensures twice { takes_turns Set A (story_in (set_twice third_and_fourth 1001 1002)) ≡ false }
    ensures twice_replies { IsTrue (takes_turns Use B (story_in (set_twice third_and_fourth 1001 1002))) }
    ensures twice_held { AreUsesHeld (set_twice third_and_fourth 1001 1002) }
    ensures twice_lost { EachIsUsed A (set_twice third_and_fourth 1001 1002) → ⊥ }
{}

/// Neither is it where a value of a side is unseen at the start.
pub fn requests_begin_quietly()
    ensures legal { IsLegal users (to_the_end begins_unseen) }
    ensures stretch { IsStretch [] begins_unseen }
    ensures held { AreUsesHeld begins_unseen }
    ensures asks { IsTrue (takes_turns Set A (story_in begins_unseen)) }
    ensures replies { IsTrue (takes_turns Use B (story_in begins_unseen)) }
    ensures unseen { unseen_value A (story_before begins_unseen) ≡ number_value 1 ∷ [] }
    ensures lost { EachIsUsed A begins_unseen → ⊥ }
    ensures reply_legal { IsLegal users (to_the_end reply_unseen) }
    ensures reply_stretch { IsStretch [] reply_unseen }
    ensures reply_first { unseen_value B (story_before reply_unseen) ≡ number_value 5 ∷ [] }
    ensures reply_unused { EachIsUsed B reply_unseen → ⊥ }
{}

/// Nor where the uses of one side are not held.
pub fn requests_need_held_uses()
    ensures legal { IsLegal users (to_the_end asks_itself) }
    ensures stretch { IsStretch [] asks_itself }
    ensures exchange { IsExchange A asks_itself }
    ensures fourth { IsTrue (is_controlled 4 asks_itself) }
    ensures third { is_controlled 3 asks_itself ≡ false }
    ensures not_replied { EachIsUsed B asks_itself → ⊥ }
    ensures other_legal { IsLegal users (to_the_end replies_to_itself) }
    ensures other_stretch { IsStretch [] replies_to_itself }
    ensures other_exchange { IsExchange A replies_to_itself }
    ensures other_third { IsTrue (is_controlled 3 replies_to_itself) }
    ensures other_fourth { is_controlled 4 replies_to_itself ≡ false }
    ensures not_asked { EachIsUsed A replies_to_itself → ⊥ }
{}
