ghost use Rattle.std.specs.Prelude.{◌≡◌, ℕ, List};
ghost use Rattle.bundle_text.specs.Rules.{IsBundle, PlainBundle};
ghost use Rattle.sv_journal.specs.Output.{PlainTranscript};
ghost use Rattle.sv_rules.specs.Entries.{Entries};
ghost use Rattle.check_rules.specs.Fits.{EntriesFit};
ghost use Rattle.check_rules.specs.Verdict.{IsOwnRun, IsVerdict};

use crate::verdict::Verdict;

/// Each entry of a run of a bundle over its own files and readings and empty shelves fits behind those before it. The call does
/// nothing.
pub fn a_run_fits()
    ensures { (bundle : PlainBundle) (journal : Entries) (transcripts : List PlainTranscript) → IsBundle bundle → IsOwnRun bundle journal transcripts → EntriesFit bundle journal }
{}

/// Of a bundle and a text one verdict is found. The call does nothing.
pub fn there_is_one_verdict()
    ensures { (bundle : PlainBundle) (text : List ℕ) (verdict other : Verdict) → IsBundle bundle → IsVerdict bundle text verdict → IsVerdict bundle text other → verdict ≡ other }
{}
