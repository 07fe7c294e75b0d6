ghost use Rattle.std.specs.Prelude.{◌≡◌, ◌⊎◌, ◌+◌, ◌<◌, ◌^◌, ℕ, List, IfErr, IfOk, MatchResult, Option as OptionOf, length, option_copied};
ghost use Rattle.line_text.specs.Lines.{HasNoFeed};
ghost use Rattle.sv_events.specs.Entry.{PlainEntry};
ghost use Rattle.sv_journal.specs.Output.{PlainTranscript, output_text};
ghost use Rattle.printed_text.specs.Departs.{DepartsAt};
ghost use Rattle.printed_text.specs.Draft.{PlainDraft};
ghost use Rattle.printed_text.specs.MayBePrinted.{MayBePrinted};
ghost use Rattle.printed_text.specs.Reads.{ReadsText};
ghost use Rattle.printed_text.specs.Refused.{IsRefusal};
ghost use Rattle.printed_text.specs.Step.{AddsText, IsReadTo};

use crate::draft::Draft;
use crate::printed::Printed;
use crate::refused::PrintedRefused;
use line_text::first_line;
use std::alloc::Global;

// Adds a line, which stands at the offset.
fn add_line(
    alloc: Global,
    users: Option<&[u32]>,
    draft: &mut Draft,
    line: &[u8],
    offset: u64,
) -> Result<(), PrintedRefused>
    ensures { AddsText (option_copied users.entry) draft.old line.now draft.new offset result }
{
    match line.strip_prefix(b"|") {
        None => draft.add_other(alloc, users, line, offset),
        Some(text) => draft.add_shown(alloc, text, offset),
    }
}

// What the output tells, where nothing is left and the end was read. What is left stands at the offset.
fn finished(draft: Draft, rest: &[u8], offset: u64) -> Result<Printed, PrintedRefused>
    requires { HasNoFeed rest.now }
    ensures { (users : OptionOf (List ℕ)) (text : List ℕ) → IsReadTo users text rest.now draft → length text ≡ offset + length rest.now → ReadsText users text result }
{
    if !rest.is_empty() {
        drop(draft);
        return Err(PrintedRefused::Departs(offset));
    }
    match draft.finish() {
        Some(printed) => Ok(printed),
        None => Err(PrintedRefused::Departs(offset)),
    }
}

/// What the output tells that a text is, read line by line, with these users in their order; where none are named, with any
/// whose numbers ascend. `Departs` at the first line that no such output has there, at its first byte; a last piece without a
/// line feed is such a line; and at the text's end where lines are wanting there. It takes memory for what is told.
pub fn read(alloc: Global, users: Option<&[u32]>, text: &[u8]) -> Result<Printed, PrintedRefused>
    ensures output { IfOk result (λ printed. MayBePrinted (option_copied users.entry) printed.transcripts printed.journal) }
    ensures text { IfOk result (λ printed. text.now ≡ output_text printed.transcripts printed.journal) }
    ensures only { (transcripts : List PlainTranscript) (journal : List PlainEntry) → MayBePrinted (option_copied users.entry) transcripts journal → text.now ≡ output_text transcripts journal →
        MatchResult result (λ printed. printed ≡ record { transcripts = transcripts; journal = journal }) (λ why. why ≡ PrintedRefused.WantOfMemory) }
    ensures departs { IfErr result (λ why. IsRefusal why (DepartsAt (option_copied users.entry) text.now)) }
    ensures only_departs { (at : ℕ) → DepartsAt (option_copied users.entry) text.now at →
        MatchResult result (λ _. ⊥) (λ why. (why ≡ PrintedRefused.Departs at) ⊎ (why ≡ PrintedRefused.WantOfMemory)) }
{
    read_lines(alloc, users, text)
}

// What the output tells that a text is.
fn read_lines(alloc: Global, users: Option<&[u32]>, text: &[u8]) -> Result<Printed, PrintedRefused>
    ensures { ReadsText (option_copied users.entry) text.now result }
{
    let mut draft = Draft::new(alloc);
    let mut rest = text;
    while let Some((line, after)) = first_line(rest) {
        let offset = (text.len() - rest.len()) as u64;
        add_line(alloc, users, &mut draft, line, offset)?;
        rest = after;
    }
    finished(draft, rest, (text.len() - rest.len()) as u64)
}

/// What every text keeps: that of an output departs nowhere, any departs at one place at the most, and is that of one output at
/// the most. The call does nothing.
pub fn outputs_are_read_in_one_way()
    ensures nowhere { (users : OptionOf (List ℕ)) (text : List ℕ) (transcripts : List PlainTranscript) (journal : List PlainEntry) (at : ℕ) → MayBePrinted users transcripts journal
        → text ≡ output_text transcripts journal → DepartsAt users text at → ⊥ }
    ensures one_place { (users : OptionOf (List ℕ)) (text : List ℕ) (at other : ℕ) → DepartsAt users text at → DepartsAt users text other → at ≡ other }
    ensures one_output { (users : OptionOf (List ℕ)) (transcripts others : List PlainTranscript) (journal another : List PlainEntry) → MayBePrinted users transcripts journal → MayBePrinted users others another
        → output_text transcripts journal ≡ output_text others another → (transcripts ≡ others) × (journal ≡ another) }
{}
