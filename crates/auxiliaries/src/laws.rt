ghost use Rattle.std.specs.Prelude.{◌≡◌, ◌∷◌, [], ◌++◌, ℕ, List, codes, Err, Ok, None, Some};
ghost use Rattle.std.specs.declared.option.Option.{Option};
ghost use Rattle.apl_arrays.specs.Array.{PlainArray};
ghost use Rattle.apl_io.specs.Content.{KeepsPlaces};
ghost use Rattle.apl_io.specs.declared.store_error.StoreError.TheVariants.{Failed};
ghost use Rattle.auxiliaries.specs.Request.{request_of, read, next, write, put, done, other};
ghost use Rattle.auxiliaries.specs.File.{lines_in, IsText};
ghost use Rattle.auxiliaries.specs.Run.{CameTo, Event, began, answered, IsReplierRun, RunsTo};
ghost use Rattle.auxiliaries.specs.Protocol.{protocol_step, answers, reads, replaces, no_request, idle, reading, writing, code, line_answer, no_line, AfterRead, AfterReplace};
ghost use Rattle.auxiliaries.specs.Served.{Served, Replies, StaysServed, forgotten};

use crate::Replier;
use apl_arrays::texts_are_read_in_one_way;
use apl_io::TextStore;

/// Requests as they are written: the word, one blank, and a name or a text, with nothing before or behind. The call does
/// nothing.
pub fn requests_as_written()
    ensures read { request_of (line_answer (codes "READ NOTES")) ≡ read (codes "NOTES") }
    ensures next { request_of (line_answer (codes "NEXT")) ≡ next }
    ensures write { request_of (line_answer (codes "WRITE OUT")) ≡ write (codes "OUT") }
    ensures put { request_of (line_answer (codes "PUT HI")) ≡ put (codes "HI") }
    ensures put_blank { request_of (line_answer (codes "PUT  HI ")) ≡ put (codes " HI ") }
    ensures put_nothing { request_of (line_answer (codes "PUT ")) ≡ put [] }
    ensures done { request_of (line_answer (codes "DONE")) ≡ done }
    ensures no_text { request_of (line_answer (codes "PUT")) ≡ other }
    ensures next_blank { request_of (line_answer (codes "NEXT ")) ≡ other }
    ensures nothing { request_of (line_answer []) ≡ other }
    ensures number { request_of (code 0) ≡ other }
    ensures no_line { request_of no_line ≡ other }
{}

/// A session as it was worked by hand: a file that is not there, one of one line, a file written, and a failure of the
/// store at its third call. The call does nothing.
pub fn session_as_worked()
    ensures gone { protocol_step (read (codes "GONE")) idle ≡ reads (codes "GONE") }
    ensures missing { AfterRead (Ok None) (code 1) idle }
    ensures no_next { protocol_step next idle ≡ answers (code 2) idle }
    ensures notes { protocol_step (read (codes "NOTES")) idle ≡ reads (codes "NOTES") }
    ensures line { lines_in (codes "ONE" ++ 10 ∷ []) ≡ codes "ONE" ∷ [] }
    ensures one { protocol_step next (reading (codes "ONE" ∷ [])) ≡ answers (line_answer (codes "ONE")) (reading []) }
    ensures past { protocol_step next (reading []) ≡ answers no_line (reading []) }
    ensures no_put { protocol_step (put (codes "A")) (reading []) ≡ answers (code 2) (reading []) }
    ensures out { protocol_step (write (codes "OUT")) (reading []) ≡ answers (code 0) (writing (codes "OUT") []) }
    ensures no_read { protocol_step (read (codes "NOTES")) (writing (codes "OUT") []) ≡ answers (code 2) (writing (codes "OUT") []) }
    ensures hi { protocol_step (put (codes "HI")) (writing (codes "OUT") []) ≡ answers (code 0) (writing (codes "OUT") (codes "HI" ++ 10 ∷ [])) }
    ensures done { protocol_step done (writing (codes "OUT") (codes "HI" ++ 10 ∷ [])) ≡ replaces (codes "OUT") (codes "HI" ++ 10 ∷ []) }
    ensures failed { AfterReplace {T = Unit {0}} (Err Failed) (writing (codes "OUT") (codes "HI" ++ 10 ∷ [])) (code 3) (writing (codes "OUT") (codes "HI" ++ 10 ∷ [])) }
    ensures again { AfterReplace {T = Unit {0}} (Ok tt) (writing (codes "OUT") (codes "HI" ++ 10 ∷ [])) (code 0) idle }
{}

/// The lines of a file: what stands behind the last line feed is one too, a blank line is a line, and a file without
/// bytes has none. The call does nothing.
pub fn lines_as_they_stand()
    ensures nothing { lines_in [] ≡ [] }
    ensures blank { lines_in (10 ∷ []) ≡ [] ∷ [] }
    ensures unended { lines_in (codes "A" ++ 10 ∷ codes "B") ≡ codes "A" ∷ codes "B" ∷ [] }
    ensures between { lines_in (codes "A" ++ 10 ∷ 10 ∷ codes "B" ++ 10 ∷ []) ≡ codes "A" ∷ [] ∷ codes "B" ∷ [] }
{}

/// The bytes of a file are the text of at most one list of lines. The call does nothing.
pub fn files_are_read_in_one_way()
    ensures { (bytes : List ℕ) (lines other : List (List ℕ)) → IsText bytes lines → IsText bytes other → lines ≡ other }
{
    texts_are_read_in_one_way();
}

/// A run of a replier goes on with each of its calls: what came before, and then that call. The call does nothing.
pub fn runs_go_on<R: Replier + Drop>()
    ensures starts { (state : R) → IsReplierRun R.forgets R.replies state [] state }
    ensures forgets { (start before after : R) (events : List Event) (party : ℕ) → IsReplierRun R.forgets R.replies start events before
        → R.forgets before party after → IsReplierRun R.forgets R.replies start (began party ∷ events) after }
    ensures replies { (start before after : R) (events : List Event) (party : ℕ) (value answer : PlainArray) → IsReplierRun R.forgets R.replies start events before
        → R.replies before party value answer after → IsReplierRun R.forgets R.replies start (answered party value answer ∷ events) after }
{}

/// A replier came to the end of each run of it, and from there to what stays where memory runs out over the next answer. The
/// call does nothing.
pub fn repliers_come<R: Replier + Drop>()
    ensures runs { (start end : R) → RunsTo R.forgets R.replies start end → CameTo R.forgets R.replies R.wants start end }
    ensures wants { (start last end : R) (party : ℕ) (value : PlainArray) → RunsTo R.forgets R.replies start last → R.wants last party value end
        → CameTo R.forgets R.replies R.wants start end }
{}

/// Files are asked for and replaced, and nothing else: the store of a text auxiliary is given no place, also where
/// memory runs out over an answer. The call does nothing.
pub fn runs_give_no_place<T: TextStore>()
    ensures run { (start end : Served T) (events : List Event) → IsReplierRun (λ old party new. new ≡ forgotten old) (λ old party value answer new. Replies T.told T.faults old value answer new) start events end
        → KeepsPlaces (T.told start.store) (T.told end.store) }
    ensures came { (start end : Served T) → CameTo (λ old party new. new ≡ forgotten old) (λ old party value answer new. Replies T.told T.faults old value answer new) (λ old party value new. StaysServed T.told T.faults old new) start end
        → KeepsPlaces (T.told start.store) (T.told end.store) }
{}
