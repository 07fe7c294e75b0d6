//! Worked journals that are legal, and what is wrong beside each. The calls do nothing.

ghost use Rattle.std.specs.Prelude.{[], ◌∷◌, codes, Some, None};
ghost use Rattle.sv_access.specs.declared.verdict.Owners.TheVariants.{Mine, Partner, Both};
ghost use Rattle.sv_events.specs.Answer.{degree, done, granted, no_value, not_shared, offer_limit, value, vector, parties, names, kept};
ghost use Rattle.sv_events.specs.declared.event.Act.TheVariants.{Leave, Offer, SetControl, Use};
ghost use Rattle.sv_rules.specs.Legal.{IsLegal};
ghost use Rattle.sv_plain.specs.Worked.{one_user, two_users, three_users, number_value, bits, pair, x, offer_x, set_x, left, answered_value, holds, gives_up, with_answer, with_act, with_made};
ghost use Rattle.sv_plain.specs.WorkedValues.{b, value_is_shared, use_without_a_value, shared_by_surrogates, offered_again};
ghost use Rattle.sv_plain.specs.WorkedControl.{second_set_is_held, held_by_the_partner, view_is_swapped, both_hold, second_set_before_a_partner, set_over_unseen, given_up_too_soon, acts_while_it_waits, control_without_an_offer};
ghost use Rattle.sv_plain.specs.WorkedMatches.{two_general_offers, two_open_matches, offered_twice, leave_of_two, two_open_matches_left, one_more_offer, last_of_64, back_again};
ghost use Rattle.sv_plain.specs.WorkedShares.{matched_again, matched_after_a_retraction, reopened_compete, each_keeps_its_own, older_value_unseen, three_numbers, item_is_set, asked_who_offers, asked_among_many, reopened_is_unseen, vector_begins_anew};
ghost use Rattle.sv_plain.specs.WorkedAuxiliary.{s2, countered, text_files_answer, clock_answers, counter_offer_taken_back, second_control, use_of_a_seen_value, second_reply, counter_couples_with_an_older_one, second_counter};
ghost use Rattle.sv_plain.specs.WorkedCopy.{file_is_copied};

/// A value that is set is used by the partner.
pub fn value_is_shared_is_legal()
    ensures legal { IsLegal two_users value_is_shared }
    ensures older { ¬ IsLegal two_users (with_answer 4 (answered_value 3) value_is_shared) }
    ensures uncoupled { ¬ IsLegal two_users (with_made 2 [] value_is_shared) }
    ensures degree { ¬ IsLegal two_users (with_answer 2 (degree 1) value_is_shared) }
{}

/// A use may find no value.
pub fn use_without_a_value_is_legal()
    ensures legal { IsLegal one_user use_without_a_value }
    ensures value { ¬ IsLegal one_user (with_answer 2 (answered_value 0) use_without_a_value) }
    ensures held { ¬ IsLegal one_user (with_answer 2 (holds 3 Mine) use_without_a_value) }
{}

/// Two names with one surrogate are one variable.
pub fn shared_by_surrogates_is_legal()
    ensures legal { IsLegal two_users shared_by_surrogates }
    ensures own_value { ¬ IsLegal two_users (with_answer 5 (answered_value 1) shared_by_surrogates) }
    ensures surrogate { ¬ IsLegal two_users (with_act 2 (Offer 1001 b b None) shared_by_surrogates) }
    ensures local { ¬ IsLegal two_users (with_act 3 (Use x) shared_by_surrogates) }
{}

/// A name that was taken back is offered again.
pub fn offered_again_is_legal()
    ensures legal { IsLegal one_user offered_again }
    ensures degree { ¬ IsLegal one_user (with_answer 2 (kept 2 (Some (number_value 3))) offered_again) }
    ensures no_offer { ¬ IsLegal one_user (with_answer 4 not_shared offered_again) }
{}

/// A second set is held until the partner has used the first.
pub fn second_set_is_held_is_legal()
    ensures legal { IsLegal two_users second_set_is_held }
    ensures granted { ¬ IsLegal two_users (with_answer 5 granted second_set_is_held) }
    ensures owners { ¬ IsLegal two_users (with_answer 5 (holds 1 Both) second_set_is_held) }
    ensures element { ¬ IsLegal two_users (with_answer 5 (holds 2 Mine) second_set_is_held) }
    ensures first { ¬ IsLegal two_users (with_answer 4 (holds 1 Mine) second_set_is_held) }
{}

/// The partner's vector holds a second set.
pub fn held_by_the_partner_is_legal()
    ensures legal { IsLegal two_users held_by_the_partner }
    ensures owners { ¬ IsLegal two_users (with_answer 5 (holds 1 Mine) held_by_the_partner) }
    ensures still { ¬ IsLegal two_users (with_answer 7 (holds 1 Partner) held_by_the_partner) }
{}

/// A use is held in the partner's view.
pub fn view_is_swapped_is_legal()
    ensures legal { IsLegal two_users view_is_swapped }
    ensures element { ¬ IsLegal two_users (with_answer 4 (holds 3 Partner) view_is_swapped) }
    ensures no_value { ¬ IsLegal two_users (with_answer 4 no_value view_is_swapped) }
{}

/// Where both wait, each wait is given up.
pub fn both_hold_is_legal()
    ensures legal { IsLegal two_users both_hold }
    ensures element { ¬ IsLegal two_users (with_answer 8 (gives_up 4 Mine) both_hold) }
    ensures held_again { ¬ IsLegal two_users (with_answer 6 (holds 4 Partner) both_hold) }
    ensures no_value { ¬ IsLegal two_users (with_answer 8 no_value both_hold) }
{}

/// A second set is held before there is a partner.
pub fn second_set_before_a_partner_is_legal()
    ensures legal { IsLegal two_users second_set_before_a_partner }
    ensures granted { ¬ IsLegal two_users (with_answer 4 granted second_set_before_a_partner) }
    ensures owners { ¬ IsLegal two_users (with_answer 4 (holds 1 Both) second_set_before_a_partner) }
    ensures still { ¬ IsLegal two_users (with_answer 7 (holds 1 Mine) second_set_before_a_partner) }
{}

/// A value that was not seen may be set over.
pub fn set_over_unseen_is_legal()
    ensures legal { IsLegal two_users set_over_unseen }
    ensures first_value { ¬ IsLegal two_users (with_answer 8 (answered_value 1) set_over_unseen) }
    ensures own_value { ¬ IsLegal two_users (with_answer 6 (answered_value 1) set_over_unseen) }
    ensures held { ¬ IsLegal two_users (with_answer 5 (holds 2 Partner) set_over_unseen) }
{}

/// A wait is given up only where nobody can go on.
pub fn waits_are_not_given_up_too_soon()
    ensures too_soon { ¬ IsLegal two_users given_up_too_soon }
    ensures otherwise { ¬ IsLegal two_users (acts_while_it_waits (set_x 1001 1 granted)) }
    ensures leaves { IsLegal two_users (acts_while_it_waits (left 1001)) }
    ensures no_offer { IsLegal two_users (control_without_an_offer not_shared) }
    ensures controlled { ¬ IsLegal two_users (control_without_an_offer (vector (bits 1 1 1 1))) }
{}

/// Which offers match: not two to any, and of two that do the older.
pub fn older_matches_are_coupled()
    ensures general { IsLegal two_users two_general_offers }
    ensures coupled { ¬ IsLegal two_users (with_made 2 (pair 1 2) (with_answer 2 (degree 2) two_general_offers)) }
    ensures older { IsLegal three_users two_open_matches }
    ensures newer { ¬ IsLegal three_users (with_made 3 (pair 2 3) two_open_matches) }
    ensures turned { ¬ IsLegal three_users (with_made 3 (pair 3 1) two_open_matches) }
    ensures again { IsLegal two_users offered_twice }
    ensures open_again { ¬ IsLegal two_users (with_answer 4 (degree 1) offered_twice) }
{}

/// A leave couples what it reopens, one after the other, each with its oldest match.
pub fn leaves_couple_again()
    ensures two { IsLegal three_users (leave_of_two (record { a = 1; b = 5 } ∷ record { a = 3; b = 6 } ∷ [])) }
    ensures turned { ¬ IsLegal three_users (leave_of_two (record { a = 3; b = 6 } ∷ record { a = 1; b = 5 } ∷ [])) }
    ensures one { ¬ IsLegal three_users (leave_of_two (pair 1 5)) }
    ensures oldest { IsLegal three_users two_open_matches_left }
    ensures newest { ¬ IsLegal three_users (with_made 5 (pair 1 4) two_open_matches_left) }
{}

/// A party has at most 64 offers.
pub fn offers_are_at_most_64()
    ensures more { IsLegal two_users (one_more_offer offer_limit) }
    ensures taken { ¬ IsLegal two_users (one_more_offer (degree 1)) }
    ensures last { IsLegal two_users (last_of_64 (degree 1)) }
    ensures early { ¬ IsLegal two_users (last_of_64 offer_limit) }
{}

/// A party that has left makes no entry.
pub fn no_entry_follows_a_leave()
    ensures offer { ¬ IsLegal two_users (back_again (offer_x 1002 None) (degree 1)) }
    ensures leave { ¬ IsLegal two_users (back_again Leave done) }
{}

/// A general offer is matched again, after a leave and after a retraction.
pub fn offers_are_matched_again()
    ensures leave { IsLegal three_users matched_again }
    ensures open { ¬ IsLegal three_users (with_made 5 [] matched_again) }
    ensures degree { ¬ IsLegal three_users (with_answer 6 (degree 1) matched_again) }
    ensures retraction { IsLegal three_users matched_after_a_retraction }
    ensures left_open { ¬ IsLegal three_users (with_made 4 [] matched_after_a_retraction) }
    ensures still_stands { ¬ IsLegal three_users (with_answer 5 (degree 1) matched_after_a_retraction) }
    ensures compete { IsLegal three_users reopened_compete }
    ensures later { ¬ IsLegal three_users (with_made 6 (pair 2 5) reopened_compete) }
    ensures unmatched { ¬ IsLegal three_users (with_made 6 [] reopened_compete) }
{}

/// Each side keeps the value that it knows.
pub fn each_keeps_its_own_is_legal()
    ensures legal { IsLegal two_users each_keeps_its_own }
    ensures partners { ¬ IsLegal two_users (with_answer 6 (kept 1 (Some (number_value 5))) each_keeps_its_own) }
    ensures degree { ¬ IsLegal two_users (with_answer 6 (kept 2 (Some (number_value 2))) each_keeps_its_own) }
    ensures handed_in { ¬ IsLegal two_users (with_answer 4 (kept 2 (Some (number_value 1))) each_keeps_its_own) }
{}

/// The state vector says whose set is unseen.
pub fn older_value_unseen_is_legal()
    ensures legal { IsLegal two_users older_value_unseen }
    ensures view { ¬ IsLegal two_users (with_answer 3 (vector (bits 1 0 1 0)) older_value_unseen) }
    ensures unseen { ¬ IsLegal two_users (with_answer 5 (vector (bits 1 0 1 0)) older_value_unseen) }
{}

/// An item is set by a use and a set.
pub fn item_is_set_is_legal()
    ensures legal { IsLegal two_users item_is_set }
    ensures early { ¬ IsLegal two_users (with_answer 4 (value (three_numbers 1 2 3)) item_is_set) }
{}

/// Questions tell open offers made by number.
pub fn asked_who_offers_is_legal()
    ensures legal { IsLegal two_users asked_who_offers }
    ensures general { ¬ IsLegal two_users (with_answer 5 (names (codes "AB" ∷ codes "C" ∷ [])) asked_who_offers) }
    ensures nobody { ¬ IsLegal two_users (with_answer 4 (parties []) asked_who_offers) }
    ensures many { IsLegal three_users asked_among_many }
    ensures descending { ¬ IsLegal three_users (with_answer 5 (parties (1003 ∷ 1001 ∷ [])) asked_among_many) }
    ensures coupled { ¬ IsLegal three_users (with_answer 8 (names (codes "P" ∷ codes "O" ∷ [])) asked_among_many) }
{}

/// An offer that reopens has the value that it knows unseen, and a new offer begins without a vector.
pub fn offers_open_anew()
    ensures reopened { IsLegal two_users reopened_is_unseen }
    ensures seen { ¬ IsLegal two_users (with_answer 6 granted reopened_is_unseen) }
    ensures anew { IsLegal two_users vector_begins_anew }
    ensures old_vector { ¬ IsLegal two_users (with_answer 6 (holds 1 Mine) vector_begins_anew) }
{}

/// The text files answer a command.
pub fn text_files_answer_is_legal()
    ensures legal { IsLegal one_user (text_files_answer (number_value 1)) }
    ensures other_reply { IsLegal one_user (text_files_answer (number_value 2)) }
    ensures owner { ¬ IsLegal one_user (with_answer 7 (holds 3 Mine) (text_files_answer (number_value 1))) }
    ensures name { ¬ IsLegal one_user (with_act 2 (Offer 1001 (codes "S1") x None) (text_files_answer (number_value 1))) }
    ensures control { ¬ IsLegal one_user (with_act 4 (SetControl s2 (bits 1 1 1 0)) (text_files_answer (number_value 1))) }
{}

/// The clock answers.
pub fn clock_answers_is_legal()
    ensures legal { IsLegal one_user clock_answers }
    ensures own_value { ¬ IsLegal one_user (with_answer 9 (answered_value 0) clock_answers) }
    ensures owners { ¬ IsLegal one_user (with_answer 12 (holds 3 Partner) clock_answers) }
    ensures reply { ¬ IsLegal one_user (with_act 13 (SetControl s2 (bits 1 1 1 1)) clock_answers) }
{}

/// A file is copied by way of the text files.
pub fn file_is_copied_is_legal()
    ensures legal { IsLegal two_users file_is_copied }
    ensures pair { ¬ IsLegal two_users (with_made 7 (pair 1 7) file_is_copied) }
    ensures owners { ¬ IsLegal two_users (with_answer 8 (holds 3 Both) file_is_copied) }
{}

/// An auxiliary does its work, and nothing else.
pub fn auxiliaries_do_their_work()
    ensures taken_back { IsLegal one_user (counter_offer_taken_back 1) }
    ensures still_coupled { ¬ IsLegal one_user (counter_offer_taken_back 2) }
    ensures second_control { ¬ IsLegal one_user second_control }
    ensures seen { ¬ IsLegal one_user use_of_a_seen_value }
    ensures second_reply { ¬ IsLegal one_user second_reply }
    ensures older { IsLegal one_user counter_couples_with_an_older_one }
    ensures meant { ¬ IsLegal one_user (with_made 3 (pair 2 3) counter_couples_with_an_older_one) }
    ensures clock { IsLegal one_user (second_counter 10) }
    ensures text_files { ¬ IsLegal one_user (second_counter 20) }
    ensures leave { ¬ IsLegal one_user (countered 20 (left 20 ∷ [])) }
{}
