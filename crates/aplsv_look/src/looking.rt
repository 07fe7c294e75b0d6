ghost use Rattle.std.specs.Prelude.{◌≡◌, ◌≢◌, ◌≤◌, ◌⊎◌, [], Some, length, map, string_bytes};
ghost use Rattle.apl_io.specs.Faults.{Rose};
ghost use Rattle.apl_io.specs.Whole.{AreAtMost};
ghost use Rattle.aplsv_words.specs.Looks.{MeanNoLook, MeanToLook};
ghost use Rattle.aplsv_words.specs.declared.look.Look.{Look as OneLook};
ghost use Rattle.aplsv_look.specs.Causes.{HasLookCause, IsWriting, most_looked_at};
ghost use Rattle.aplsv_look.specs.Statuses.{IsLookConclusion};
ghost use Rattle.aplsv_look.specs.declared.status.LookStatus.TheVariants as status;

use crate::sights::sight_of;
use crate::status::{LookStatus, status_refused};
use apl_io::{ReadRefused, Sink, Source, WriteFault, read_all, write_all};
use aplsv_words::{Look, WordsRefused, look_of};
use std::alloc::Global;

/// The most bytes of an output.
const OUTPUT_LIMIT: usize = 67_108_864;

/// What the program does for words that ask for a look: it reads a text to its end, and writes what `sight_of` gives: a picture
/// of its entries, or why one of them is what it is. It needs no bundle, and runs nothing. It is `Done` only where the text is an
/// output and the whole sight was written; `NoOutput` and `NoEntry` are those of `sight_of`, and then nothing is written.
/// Other words are `Usage`, for which nothing is read. It takes the memory of the text and of the sight. It returns for every
/// source and sink.
pub fn aplsv_look_words<S: Source, W: Sink>(
    alloc: Global,
    words: &[String],
    input: &mut S,
    output: &mut W,
) -> LookStatus
    ensures causes { (look : OneLook) → MeanToLook (map string_bytes words.now) look → HasLookCause look result
        (record { bytes = S.left input.old; faults = S.faults input.old }) (record { bytes = S.left input.new; faults = S.faults input.new })
        (record { bytes = W.held output.old; faults = W.faults output.old }) (record { bytes = W.held output.new; faults = W.faults output.new }) }
    ensures usage { result ≡ status.Usage → MeanNoLook (map string_bytes words.now) }
    ensures meaningless { MeanNoLook (map string_bytes words.now) → (result ≡ status.Usage) ⊎ (result ≡ status.WantOfMemory) }
    ensures unread { MeanNoLook (map string_bytes words.now) → (input.new ≡ input.old) × (output.new ≡ output.old) }
    ensures unwritten { result ≢ status.Done → result ≢ status.WriteFault → output.new ≡ output.old }
    ensures complete { (look : OneLook) → MeanToLook (map string_bytes words.now) look → AreAtMost (S.left input.old) most_looked_at
        → ¬ (Rose (S.faults input.old) (S.faults input.new)) → ¬ (Rose (W.faults output.old) (W.faults output.new))
        → IsLookConclusion result }
{
    match look_of(alloc, words) {
        Ok(look) => looked(alloc, look, input, output),
        Err(WordsRefused::Usage) => LookStatus::Usage,
        Err(WordsRefused::WantOfMemory) => LookStatus::WantOfMemory,
    }
}

// What becomes of an input that is read and looked at.
fn looked<S: Source, W: Sink>(
    alloc: Global,
    look: Look,
    input: &mut S,
    output: &mut W,
) -> LookStatus
    ensures causes { HasLookCause look result
        (record { bytes = S.left input.old; faults = S.faults input.old }) (record { bytes = S.left input.new; faults = S.faults input.new })
        (record { bytes = W.held output.old; faults = W.faults output.old }) (record { bytes = W.held output.new; faults = W.faults output.new }) }
    ensures usage { result ≢ status.Usage }
    ensures unwritten { result ≢ status.Done → result ≢ status.WriteFault → output.new ≡ output.old }
{
    match read_all(alloc, input, OUTPUT_LIMIT) {
        Ok(bytes) => shown(alloc, look, bytes.as_slice(), output),
        Err(ReadRefused::ReadFault) => LookStatus::ReadFault,
        Err(ReadRefused::TooLong) => LookStatus::TooLong,
        Err(ReadRefused::WantOfMemory) => LookStatus::WantOfMemory,
    }
}

// What becomes of an input that was all read: it is the whole of a source that has no faults.
fn shown<W: Sink>(alloc: Global, look: Look, input: &[u8], output: &mut W) -> LookStatus
    requires few { length input.now ≤ most_looked_at }
    ensures causes { HasLookCause look result (record { bytes = Some input.now; faults = 0 }) (record { bytes = Some []; faults = 0 })
        (record { bytes = W.held output.old; faults = W.faults output.old }) (record { bytes = W.held output.new; faults = W.faults output.new }) }
    ensures usage { result ≢ status.Usage }
    ensures unwritten { result ≢ status.Done → result ≢ status.WriteFault → output.new ≡ output.old }
{
    match sight_of(alloc, look, input) {
        Ok(sight) => write(&sight, output),
        Err(why) => status_refused(why),
    }
}

// Writes a sight: all of it, or a part from its front on where the sink fails.
fn write<W: Sink>(sight: &[u8], output: &mut W) -> LookStatus
    ensures { IsWriting (W.held output.old) (W.held output.new) (W.faults output.old) (W.faults output.new) sight.now result }
{
    match write_all(output, sight) {
        Ok(()) => LookStatus::Done,
        Err(WriteFault) => LookStatus::WriteFault,
    }
}
