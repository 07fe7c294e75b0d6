ghost use Rattle.std.specs.Prelude.{◌≡◌, ◌<◌, ◌≤◌, ◌∷◌, [], ◌++◌, ℕ, List, IsTrue, None, Some, codes, decimal, length, take};
ghost use Rattle.apl_arrays.specs.Parties.{is_user_number};
ghost use Rattle.auxiliaries.specs.Protocol.{code, no_line, line_answer};
ghost use Rattle.auxiliaries.specs.Run.{Event, IsReplierRun};
ghost use Rattle.aux_relay.specs.Request.{request_of, other, send, take_from, waiting};
ghost use Rattle.aux_relay.specs.History.{AreRelayed, Reply, texts_given, untaken_count, next_text, texts_taken, text_answer};
ghost use Rattle.aux_relay.specs.Queues.{AreUntaken, Queues, Relays, replies_among};
ghost use Rattle.aux_relay.specs.Worked.{one_taken, replied, three_sent, two_taken};

use aux_words::{fields_are_as_written, numbers_are_as_written};

/// Requests as they are written: the word, a user's number and a text, with one blank between, and nothing before or
/// behind. The call does nothing.
pub fn requests_as_written()
    ensures send { (user : ℕ) (text : List ℕ) → IsTrue (is_user_number user) → request_of (line_answer (codes "SEND " ++ (decimal user ++ 32 ∷ text))) ≡ send user text }
    ensures take { (user : ℕ) → IsTrue (is_user_number user) → request_of (line_answer (codes "TAKE " ++ decimal user)) ≡ take_from user }
    ensures waiting { request_of (line_answer (codes "WAITING")) ≡ waiting }
    ensures nothing_sent { request_of (line_answer (codes "SEND 1002 ")) ≡ send 1002 [] }
    ensures blanks_sent { request_of (line_answer (codes "SEND 1002  A ")) ≡ send 1002 (codes " A ") }
    ensures no_blank { request_of (line_answer (codes "SEND 1002")) ≡ other }
    ensures no_user { request_of (line_answer (codes "TAKE 999")) ≡ other }
    ensures past_users { request_of (line_answer (codes "TAKE 2000")) ≡ other }
    ensures leading_zero { request_of (line_answer (codes "TAKE 01001")) ≡ other }
    ensures more_behind { request_of (line_answer (codes "TAKE 1001 ")) ≡ other }
    ensures more_waiting { request_of (line_answer (codes "WAITING ")) ≡ other }
    ensures nothing { request_of (line_answer []) ≡ other }
    ensures number { request_of (code 0) ≡ other }
{
    numbers_are_as_written();
    fields_are_as_written();
}

/// What a user takes of another by the relay is a front part of what that one gave, in its order, each text once. The call
/// does nothing.
pub fn what_is_taken_was_given()
    ensures { (replies : List Reply) (from to : ℕ) → AreRelayed replies
        → (length (texts_taken from to replies) ≤ length (texts_given from to replies)) × (texts_taken from to replies ≡ take (length (texts_taken from to replies)) (texts_given from to replies)) }
{}

/// Whatever happens to a relay that held nothing, its replies are the relay's. The call does nothing.
pub fn replies_are_relayed()
    ensures { (events : List Event) (end : Queues) → IsReplierRun (λ old party new. new ≡ old) Relays [] events end
        → AreRelayed (replies_among events) × AreUntaken end (replies_among events) }
{}

/// Replies as they were worked by hand: what waits for a user, what it takes, and how many texts are left. The call does
/// nothing.
pub fn replies_as_worked()
    ensures untaken { untaken_count three_sent ≡ 3 }
    ensures first { next_text 1001 1002 three_sent ≡ Some (codes "A") }
    ensures from_another { next_text 1003 1002 three_sent ≡ Some (codes "B") }
    ensures not_back { next_text 1002 1001 three_sent ≡ None }
    ensures one_glyph { text_answer (Some (codes "A")) ≡ line_answer (codes "A") }
    ensures second { next_text 1001 1002 one_taken ≡ Some (codes "C") }
    ensures one_less { untaken_count one_taken ≡ 2 }
    ensures none_left { next_text 1001 1002 two_taken ≡ None }
    ensures none { text_answer None ≡ no_line }
    ensures still_there { next_text 1003 1002 two_taken ≡ Some (codes "B") }
    ensures not_given { texts_given 1001 1002 (replied 1001 (codes "SEND 1002 A") (code 4) ∷ []) ≡ [] }
    ensures not_taken { texts_taken 1001 1002 (replied 1002 (codes "TAKE 1001") no_line ∷ []) ≡ [] }
    ensures empty_taken { texts_taken 1001 1002 (replied 1002 (codes "TAKE 1001") (line_answer []) ∷ []) ≡ [] ∷ [] }
{}
