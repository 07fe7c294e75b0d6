//! Replays at work: the journals of worked bundles, entry by entry.
ghost use Rattle.std.specs.Prelude.{◌≡◌, ℕ, List, [], ◌∷◌, None, Some, IsTrue, false, true, codes};
ghost use Rattle.apl_arrays.specs.Array.{PlainArray};
ghost use Rattle.aux_parties.specs.Auxiliaries.{clock_party, text_party};
ghost use Rattle.auxiliaries.specs.Run.{answered, began};
ghost use Rattle.apl_meaning.specs.Worked.{number_value, word};
ghost use Rattle.sv_access.specs.Control.{four_elements};
ghost use Rattle.sv_access.specs.declared.verdict.Owners.TheVariants.{Both, Partner};
ghost use Rattle.sv_events.specs.Answer.{abandoned, degree, done, full, granted, held, value, vector};
ghost use Rattle.sv_events.specs.Entry.{uncoupled};
ghost use Rattle.sv_events.specs.declared.event.Act.TheVariants as act;
ghost use Rattle.sv_rules.specs.Entries.{Entries, has_left, is_full};
ghost use Rattle.sv_rules.specs.Legal.{entry_for, retried};
ghost use Rattle.session_rules.specs.Auxiliaries.{events_of};
ghost use Rattle.replay_rules.specs.Turns.{rounds, some_user_stays, turn};
ghost use Rattle.replay_rules.specs.Worked.{HasComeTo, alone_at, worked_bundle, clock_bundle, gives, worked_journal, no_replies, offering_user, stuck_bundle, text_bundle, user};

/// Two users of one variable: after three rounds both have left, and this is the journal, the newest entry first. The call
/// does nothing.
pub fn plain_path()
    ensures { worked_journal (worked_bundle (user 1001 (codes "X←3" ∷ codes "1002 ⎕SVO 'X'" ∷ codes "X←4" ∷ []) ∷ user 1002 (codes "1001 ⎕SVO 'X'" ∷ codes "X" ∷ []) ∷ []) []) no_replies 3
        ≡ uncoupled 1002 act.Leave done
        ∷ uncoupled 1001 act.Leave done
        ∷ uncoupled 1002 (act.Use (codes "X")) (value (number_value 4))
        ∷ uncoupled 1001 (act.Set (codes "X") (number_value 4)) granted
        ∷ record { party = 1002; act = act.Offer 1001 (codes "X") (codes "X") None; answer = degree 2; made = record { a = 1; b = 2 } ∷ [] }
        ∷ uncoupled 1001 (act.Offer 1002 (codes "X") (codes "X") (Some (number_value 3))) (degree 1)
        ∷ [] }
{}

/// A user of the clock, which waits until the clock has replied: in the fourth round it is held still, and adds nothing. What
/// answers behind the clock begins with the user, and replies once. The call does nothing.
pub fn clock_replies()
    ensures journal { worked_journal clock_bundle (gives clock_party (number_value 100 ∷ [])) 6
        ≡ uncoupled 1001 act.Leave done
        ∷ uncoupled 1001 (act.Use (codes "C")) (value (number_value 100))
        ∷ uncoupled 10 (act.Set (codes "S2") (number_value 100)) granted
        ∷ uncoupled 10 (act.Use (codes "S2")) (value (number_value 0))
        ∷ uncoupled 1001 (act.Use (codes "C")) (held (record { element = 3; owners = Partner }))
        ∷ uncoupled 10 (act.SetControl (codes "S2") (four_elements true true true true)) (vector (four_elements true true true true))
        ∷ uncoupled 1001 (act.Set (codes "C") (number_value 0)) granted
        ∷ record { party = 10; act = act.Offer 1001 (codes "S2") (codes "C") None; answer = degree 2; made = record { a = 1; b = 2 } ∷ [] }
        ∷ uncoupled 1001 (act.Offer 10 (codes "C") (codes "C") None) (degree 1)
        ∷ [] }
    ensures events { events_of (worked_journal clock_bundle (gives clock_party (number_value 100 ∷ [])) 6) clock_party ≡ answered 1001 (number_value 0) (number_value 100) ∷ began 1001 ∷ [] }
    ensures fourth_round { worked_journal clock_bundle (gives clock_party (number_value 100 ∷ [])) 4
        ≡ uncoupled 10 (act.Use (codes "S2")) (value (number_value 0)) ∷ worked_journal clock_bundle (gives clock_party (number_value 100 ∷ [])) 3 }
    ensures still_held { retried (1001 ∷ []) (worked_journal clock_bundle (gives clock_party (number_value 100 ∷ [])) 4) 1001 ≡ None }
{}

/// A user of the text files, which asks for a file that is not there: it waits for the answer until 20 has given it, which is
/// 1. What answers behind 20 begins with the user, and replies once. The call does nothing.
pub fn text_files_reply()
    ensures journal { worked_journal text_bundle (gives text_party (number_value 1 ∷ [])) 6
        ≡ uncoupled 1001 act.Leave done
        ∷ uncoupled 1001 (act.Use (codes "T")) (value (number_value 1))
        ∷ uncoupled 20 (act.Set (codes "S2") (number_value 1)) granted
        ∷ uncoupled 1001 (act.Use (codes "T")) (held (record { element = 3; owners = Both }))
        ∷ uncoupled 20 (act.Use (codes "S2")) (value (word (codes "READ GONE")))
        ∷ uncoupled 1001 (act.Set (codes "T") (word (codes "READ GONE"))) granted
        ∷ uncoupled 20 (act.SetControl (codes "S2") (four_elements true true true true)) (vector (four_elements true true true true))
        ∷ uncoupled 1001 (act.SetControl (codes "T") (four_elements true true true true)) (vector (four_elements true true true true))
        ∷ record { party = 20; act = act.Offer 1001 (codes "S2") (codes "T") None; answer = degree 2; made = record { a = 1; b = 2 } ∷ [] }
        ∷ uncoupled 1001 (act.Offer 20 (codes "T") (codes "T") None) (degree 1)
        ∷ [] }
    ensures events { events_of (worked_journal text_bundle (gives text_party (number_value 1 ∷ [])) 6) text_party ≡ answered 1001 (word (codes "READ GONE")) (number_value 1) ∷ began 1001 ∷ [] }
{}

/// A user that waits for an answer for which it never asked: no auxiliary has work, so that nobody can go on, and in the fourth
/// round it gives the wait up. The call does nothing.
pub fn waits_are_given_up()
    ensures { worked_journal stuck_bundle no_replies 5
        ≡ uncoupled 1001 act.Leave done
        ∷ uncoupled 1001 (act.Use (codes "T")) (abandoned (record { element = 3; owners = Both }))
        ∷ uncoupled 1001 (act.Use (codes "T")) (held (record { element = 3; owners = Both }))
        ∷ uncoupled 20 (act.SetControl (codes "S2") (four_elements true true true true)) (vector (four_elements true true true true))
        ∷ uncoupled 1001 (act.SetControl (codes "T") (four_elements true true true true)) (vector (four_elements true true true true))
        ∷ record { party = 20; act = act.Offer 1001 (codes "S2") (codes "T") None; answer = degree 2; made = record { a = 1; b = 2 } ∷ [] }
        ∷ uncoupled 1001 (act.Offer 20 (codes "T") (codes "T") None) (degree 1)
        ∷ [] }
{}

/// In a full journal a user that makes an act, or tries one again, adds nothing and hears Full; then its line is done, and it
/// leaves. The call does nothing.
pub fn full_journals_refuse()
    ensures hears { (journal : Entries) → IsTrue (is_full journal) → has_left journal 1001 ≡ false → turn (1001 ∷ []) journal (offering_user []) ≡ record { journal = journal; user = offering_user (full ∷ []) } }
    ensures leaves { (journal : Entries) → has_left journal 1001 ≡ false
        → turn (1001 ∷ []) journal (offering_user (full ∷ [])) ≡ record { journal = entry_for journal 1001 act.Leave ∷ journal; user = offering_user (full ∷ []) } }
{}

/// A replay whose journal is full: in a round the auxiliaries do nothing and the user hears Full; in the next one it leaves, and
/// the replay is over. The call does nothing.
pub fn full_replays_end()
    ensures heard { (journal : Entries) (replies : ℕ → List PlainArray) → IsTrue (is_full journal) → has_left journal 1001 ≡ false
        → HasComeTo (rounds 1 (alone_at journal replies (offering_user []))) journal (offering_user (full ∷ [])) }
    ensures left { (journal : Entries) (replies : ℕ → List PlainArray) → IsTrue (is_full journal) → has_left journal 1001 ≡ false
        → HasComeTo (rounds 2 (alone_at journal replies (offering_user []))) (entry_for journal 1001 act.Leave ∷ journal) (offering_user (full ∷ [])) }
    ensures over { (journal : Entries) (replies : ℕ → List PlainArray) → IsTrue (is_full journal) → has_left journal 1001 ≡ false
        → some_user_stays (rounds 2 (alone_at journal replies (offering_user []))) ≡ false }
{}

/// Turns of an order come before the rounds, and those behind the last leave do nothing. The call does nothing.
pub fn orders_come_first()
    ensures { worked_journal (worked_bundle (user 1001 (codes "1002 ⎕SVO 'X'" ∷ []) ∷ user 1002 [] ∷ []) (1002 ∷ 1001 ∷ 1001 ∷ 10 ∷ 1002 ∷ [])) no_replies 0
        ≡ uncoupled 1001 act.Leave done ∷ uncoupled 1001 (act.Offer 1002 (codes "X") (codes "X") None) (degree 1) ∷ uncoupled 1002 act.Leave done ∷ [] }
{}
