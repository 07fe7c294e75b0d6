ghost use Rattle.std.specs.Prelude.{ℕ, List};
ghost use Rattle.bundle_text.specs.User.{PlainUser};
ghost use Rattle.sv_journal.specs.Output.{PlainTranscript};
ghost use Rattle.sv_rules.specs.Entries.{Entries};
ghost use Rattle.sv_rules.specs.Legal.{IsLegal};
ghost use Rattle.session_rules.specs.Run.{AreUserParts, Dealings};
ghost use Rattle.journal_laws.specs.JournalLaws.{AccessesFollowTheTable, FullJournalsTakeLeavesAlone, TranscriptsAreEvaluatedAlone, UsesGiveTheLastValue};

use sv_story_laws::{answer_law, control_law};

/// In a legal journal each set and each use of a name that its party offers is granted exactly where nothing in the access
/// table refuses it over the entries before it, and else refused by the element that the table names, with its owners. The
/// call does nothing.
pub fn accesses_follow_the_table()
    ensures { (users : List ℕ) (journal : Entries) → IsLegal users journal → AccessesFollowTheTable journal }
{
    answer_law();
    control_law();
}

/// In a legal journal each use that is not refused gives what is there: in a coupling the value that was set last, by
/// either side; without one the value that its party knows; or none. The call does nothing.
pub fn uses_give_the_last_value()
    ensures { (users : List ℕ) (journal : Entries) → IsLegal users journal → UsesGiveTheLastValue journal }
{
    answer_law();
    control_law();
}

/// Each transcript is that of its user's lines, evaluated alone with the answers that the journal gives that user, and with
/// the replies of its shelf. The call does nothing.
pub fn transcripts_are_evaluated_alone()
    ensures { (dealings : Dealings) (journal : Entries) (users : List PlainUser) (transcripts : List PlainTranscript) → AreUserParts dealings journal users transcripts →
        TranscriptsAreEvaluatedAlone dealings users journal transcripts }
{}

/// Past its limit a legal journal takes leaves alone, and no entry has the answer Full: so whatever else is asked then is
/// answered Full without one. The call does nothing.
pub fn full_journals_take_leaves_alone()
    ensures { (users : List ℕ) (journal : Entries) → IsLegal users journal → FullJournalsTakeLeavesAlone journal }
{}
