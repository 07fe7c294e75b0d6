//! Outputs at work.

ghost use Rattle.std.specs.Prelude.{◌≡◌, [], codes};
ghost use Rattle.sv_events.specs.Answer.{done};
ghost use Rattle.sv_events.specs.Entry.{uncoupled};
ghost use Rattle.sv_events.specs.declared.event.Act.TheVariants.{Leave};
ghost use Rattle.sv_journal.specs.EntryText.{entry_text};
ghost use Rattle.sv_journal.specs.Output.{output_text};
ghost use Rattle.sv_journal.specs.WorkedOutput.{plain_path_transcripts, plain_path_entries, plain_path_output, every_kind_transcripts, every_kind_entries, every_kind_output};

/// The output of one worked run, byte for byte. The call does nothing.
pub fn plain_path_is_written()
    ensures { output_text plain_path_transcripts plain_path_entries ≡ plain_path_output }
{}

/// Entries of every kind of act, answer and value, byte for byte; the greatest place; and the output of no users and no
/// entries. The call does nothing.
pub fn every_kind_is_written()
    ensures every_kind { output_text every_kind_transcripts every_kind_entries ≡ every_kind_output }
    ensures greatest { entry_text 18446744073709551615 (uncoupled 1002 Leave done) ≡ codes "18446744073709551615 1002 leave : done" }
    ensures nothing { output_text [] [] ≡ codes "journal\nend\n" }
{}
