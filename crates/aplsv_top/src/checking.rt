ghost use Rattle.std.specs.Prelude.{◌≡◌, ◌≢◌, ◌≤◌, ◌↔◌, [], IsTrue, Some, length, map, string_bytes};
ghost use Rattle.apl_io.specs.Faults.{Rose};
ghost use Rattle.apl_io.specs.Whole.{AreAtMost};
ghost use Rattle.aplsv_top.specs.Checks.{AskCheck, HasCheckCause, IsCheckConclusion, IsSplit, IsWritten, ending_found, most_checked_bytes};
ghost use Rattle.aplsv_top.specs.declared.status.Status.TheVariants as status;

use crate::status::Status;
use crate::top::write;
use crate::verdicts::line_of;
use apl_arrays::WantOfMemory;
use apl_io::{ReadRefused, Sink, Source, read_all};
use aplsv_check::check;
use bundle_text::{BundleRefused, read};
use check_rules::Verdict;
use line_text::first_line;
use std::alloc::Global;

/// The most bytes of a bundle with a text behind it.
const CHECK_LIMIT: usize = 67_108_864;

/// What the program does for the one word `--check`: it reads a bundle, up to and including its first line `end`, and a text
/// behind it, and says in a line what `check` finds of them: no thread runs and no device is asked, but each user's lines are
/// evaluated alone with the printed answers, which takes what a replay takes. It is `Done` where the text is the output of a run of
/// the bundle over its own files and readings and empty shelves, and `NotARun` where it is not; what is found is in both. Any
/// other list of words is `Usage`, for which nothing is read. It takes the memory of the input and of the check. It returns for
/// every source and sink.
pub fn aplsv_check_words<S: Source, W: Sink>(
    alloc: Global,
    words: &[String],
    input: &mut S,
    output: &mut W,
) -> Status
    ensures causes { AskCheck (map string_bytes words.now) → HasCheckCause result
        (record { bytes = S.left input.old; faults = S.faults input.old }) (record { bytes = S.left input.new; faults = S.faults input.new })
        (record { bytes = W.held output.old; faults = W.faults output.old }) (record { bytes = W.held output.new; faults = W.faults output.new }) }
    ensures usage { (result ≡ status.Usage) ↔ ¬ AskCheck (map string_bytes words.now) }
    ensures unread { ¬ AskCheck (map string_bytes words.now) → (input.new ≡ input.old) × (output.new ≡ output.old) }
    ensures unwritten { result ≢ status.Done → result ≢ status.WriteFault → ((found : Verdict) → result ≢ status.NotARun found) → output.new ≡ output.old }
    ensures complete { AskCheck (map string_bytes words.now) → AreAtMost (S.left input.old) most_checked_bytes
        → ¬ (Rose (S.faults input.old) (S.faults input.new)) → ¬ (Rose (W.faults output.old) (W.faults output.new))
        → IsCheckConclusion result }
{
    if asks_check(words) {
        checked(alloc, input, output)
    } else {
        Status::Usage
    }
}

// What becomes of an input that is read and checked.
fn checked<S: Source, W: Sink>(alloc: Global, input: &mut S, output: &mut W) -> Status
    ensures causes { HasCheckCause result
        (record { bytes = S.left input.old; faults = S.faults input.old }) (record { bytes = S.left input.new; faults = S.faults input.new })
        (record { bytes = W.held output.old; faults = W.faults output.old }) (record { bytes = W.held output.new; faults = W.faults output.new }) }
    ensures usage { result ≢ status.Usage }
    ensures unwritten { result ≢ status.Done → result ≢ status.WriteFault → ((found : Verdict) → result ≢ status.NotARun found) → output.new ≡ output.old }
{
    match read_all(alloc, input, CHECK_LIMIT) {
        Ok(bytes) => answer(alloc, bytes.as_slice(), output),
        Err(ReadRefused::ReadFault) => Status::ReadFault,
        Err(ReadRefused::TooLong) => Status::TooLong,
        Err(ReadRefused::WantOfMemory) => Status::WantOfMemory,
    }
}

// Whether the words are the one that asks for a check.
fn asks_check(words: &[String]) -> bool
    ensures { IsTrue result ↔ AskCheck (map string_bytes words.now) }
{
    match words {
        [word] => word.as_str() == "--check",
        _ => false,
    }
}

// The bundle part of an input, up to and including its first line `end`, and the text behind it.
fn parts_of(input: &[u8]) -> (&[u8], &[u8])
    ensures { IsSplit input.now result.0.now result.1.now }
{
    let mut rest = input;
    while let Some((line, after)) = first_line(rest) {
        if line == b"end".as_slice() {
            return input.split_at(input.len() - after.len());
        }
        rest = after;
    }
    (input, &input[input.len()..])
}

// What becomes of an input that was all read: it is the whole of a source that has no faults.
fn answer<W: Sink>(alloc: Global, input: &[u8], output: &mut W) -> Status
    requires few { length input.now ≤ most_checked_bytes }
    ensures causes { HasCheckCause result (record { bytes = Some input.now; faults = 0 }) (record { bytes = Some []; faults = 0 })
        (record { bytes = W.held output.old; faults = W.faults output.old }) (record { bytes = W.held output.new; faults = W.faults output.new }) }
    ensures usage { result ≢ status.Usage }
    ensures unwritten { result ≢ status.Done → result ≢ status.WriteFault → ((found : Verdict) → result ≢ status.NotARun found) → output.new ≡ output.old }
{
    let (part, text) = parts_of(input);
    let bundle = match read(alloc, part) {
        Ok(bundle) => bundle,
        Err(BundleRefused::Malformed { offset, rule }) => return Status::Malformed { offset, rule },
        Err(BundleRefused::WantOfMemory) => return Status::WantOfMemory,
    };
    let found = check(alloc, &bundle, text);
    drop(bundle);
    match found {
        Ok(found) => say(alloc, found, output),
        Err(WantOfMemory) => Status::WantOfMemory,
    }
}

// Writes what was found.
fn say<W: Sink>(alloc: Global, found: Verdict, output: &mut W) -> Status
    ensures written { IsWritten found result (W.held output.old) (W.held output.new) (W.faults output.old) (W.faults output.new) }
    ensures unwritten { result ≡ status.WantOfMemory → output.new ≡ output.old }
{
    match line_of(alloc, found) {
        Ok(line) => ending_of(found, write(&line, output)),
        Err(WantOfMemory) => Status::WantOfMemory,
    }
}

// How a check ends of which this was found, and whose line was written so.
fn ending_of(found: Verdict, written: Status) -> Status
    ensures { result ≡ ending_found found written }
{
    match (found, written) {
        (Verdict::Yes, written) => written,
        (found, Status::Done) => Status::NotARun(found),
        (_, written) => written,
    }
}
