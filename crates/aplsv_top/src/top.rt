ghost use Rattle.std.specs.Prelude.{◌≡◌, ◌≢◌, ◌≤◌, ◌⊎◌, ◌↔◌, [], None, Some, false, length, map, string_bytes, true, vec_len};
ghost use Rattle.apl_arrays.specs.Limits.{most_input_bytes, most_users};
ghost use Rattle.apl_io.specs.Faults.{Rose};
ghost use Rattle.apl_io.specs.Whole.{AreAtMost};
ghost use Rattle.aplsv_words.specs.Meaning.{Asked, Means, asked_by};
ghost use Rattle.aplsv_top.specs.Causes.{HasCause, IsWriting};
ghost use Rattle.aplsv_top.specs.Headline.{IsOutputAs};
ghost use Rattle.aplsv_top.specs.Words.{AskReplay, IsConclusion};
ghost use Rattle.aplsv_top.specs.declared.status.Status.TheVariants as status;

use crate::in_turns::run_as_asked;
use crate::output::output_in;
use crate::ran::Ran;
use crate::status::{Finish, Status};
use apl_arrays::Bytes;
use apl_io::{Clock, ReadRefused, Shelf, Sink, Source, TextStore, WriteFault, read_all, write_all};
use aplsv_words::{Words, WordsRefused, words_of};
use bundle_text::{BundleRefused, read};
use std::alloc::Global;

/// The most bytes of a bundle.
pub(crate) const INPUT_LIMIT: usize = 4_194_304;

/// What the program does for words among which `--replay` stands: it reads a bundle to its end, runs it on one thread, and
/// writes the transcripts and the journal. Where it is `Done`, the journal written is one legal history: each set and each
/// use is answered by the rules over the entries before it, and each transcript is its user's lines evaluated alone with
/// the answers that the journal gives that user and the replies of its shelf. The text store, the clock and the 32 shelves
/// are those handed in where `--text`, `--clock` and `--library` name them; else the files and the readings are the bundle's,
/// and each user has an empty shelf. The k-th user has the k-th shelf. With `--components` party 20 keeps files of arrays in that
/// store; with `--relay` party 10 carries texts between users, and no clock is called. Words that have no meaning, or lack
/// `--replay`, are `Usage`. It returns for every source and sink. What no word names is not called, and comes back as it came; the store and
/// the shelves of the bundle's users are told the place that a word names once a bundle was read, and the shelves behind
/// these are left. Nothing is written unless a bundle was run, where memory runs out too.
pub fn aplsv_replay_words<S: Source, W: Sink, T: TextStore, C: Clock, K: Shelf>(
    alloc: Global,
    words: &[String],
    input: &mut S,
    output: &mut W,
    text: T,
    clock: C,
    shelves: Vec<K>,
) -> Finish<T, C, K>
    requires shelves { vec_len shelves ≡ most_users }

    // The headline, and the cause of each other answer.
    ensures causes { (asked : Asked) → Means (map string_bytes words.now) asked →
        HasCause (IsOutputAs C.told C.faults T.told T.faults K.told K.faults asked clock result.clock text result.text shelves.items result.shelves.items) result.status
        (record { bytes = S.left input.old; faults = S.faults input.old }) (record { bytes = S.left input.new; faults = S.faults input.new })
        (record { bytes = W.held output.old; faults = W.faults output.old }) (record { bytes = W.held output.new; faults = W.faults output.new }) }
    ensures usage { result.status ≡ status.Usage → ¬ AskReplay (map string_bytes words.now) }
    ensures unasked { ¬ AskReplay (map string_bytes words.now) → (result.status ≡ status.Usage) ⊎ (result.status ≡ status.WantOfMemory) }
    ensures unread { ¬ AskReplay (map string_bytes words.now) → input.new ≡ input.old }
    ensures unwritten { result.status ≢ status.Done → result.status ≢ status.WriteFault → output.new ≡ output.old }

    // Without faults, bytes that are few enough are answered if there is memory: no bundle is refused, and nothing else is run.
    ensures complete { AskReplay (map string_bytes words.now) → AreAtMost (S.left input.old) most_input_bytes
        → ¬ (Rose (S.faults input.old) (S.faults input.new)) → ¬ (Rose (W.faults output.old) (W.faults output.new))
        → IsConclusion result.status }

    // What no word names comes back as it came, and all does where nothing was run.
    ensures unnamed { ¬ AskReplay (map string_bytes words.now) → (result.text ≡ text) × (result.clock ≡ clock) × (result.shelves ≡ shelves) }
    ensures text { (asked : Asked) → Means (map string_bytes words.now) asked → asked.text ≡ None → result.text ≡ text }
    ensures clock { (asked : Asked) → Means (map string_bytes words.now) asked → asked.clock ≡ false → result.clock ≡ clock }
    ensures relayed { (asked : Asked) → Means (map string_bytes words.now) asked → asked.relay ≡ true → result.clock ≡ clock }
    ensures library { (asked : Asked) → Means (map string_bytes words.now) asked → asked.library ≡ None → result.shelves ≡ shelves }
    ensures devices { result.status ≢ status.Done → result.status ≢ status.WriteFault → result.status ≢ status.WantOfMemory
        → (result.text ≡ text) × (result.clock ≡ clock) × (result.shelves ≡ shelves) }
{
    match words_of(alloc, words) {
        Ok(asked) => as_asked(alloc, &asked, input, output, text, clock, shelves),
        Err(WordsRefused::Usage) => ended(Status::Usage, text, clock, shelves),
        Err(WordsRefused::WantOfMemory) => ended(Status::WantOfMemory, text, clock, shelves),
    }
}

/// An ending that leaves the devices as they are here.
pub(crate) fn ended<T, C, K>(status: Status, text: T, clock: C, shelves: Vec<K>) -> Finish<T, C, K>
    ensures { result ≡ record { status = status; text = text; clock = clock; shelves = shelves } }
{
    Finish {
        status,
        text,
        clock,
        shelves,
    }
}

// What words that have a meaning come to, where they ask for a replay; else they are `Usage`.
fn as_asked<S: Source, W: Sink, T: TextStore, C: Clock, K: Shelf>(
    alloc: Global,
    words: &Words,
    input: &mut S,
    output: &mut W,
    text: T,
    clock: C,
    shelves: Vec<K>,
) -> Finish<T, C, K>
    requires shelves { vec_len shelves ≡ most_users }
    ensures causes { HasCause (IsOutputAs C.told C.faults T.told T.faults K.told K.faults (asked_by words.now) clock result.clock text result.text shelves.items result.shelves.items) result.status
        (record { bytes = S.left input.old; faults = S.faults input.old }) (record { bytes = S.left input.new; faults = S.faults input.new })
        (record { bytes = W.held output.old; faults = W.faults output.old }) (record { bytes = W.held output.new; faults = W.faults output.new }) }
    ensures usage { (result.status ≡ status.Usage) ↔ ((asked_by words.now).replay ≡ false) }
    ensures unread { (asked_by words.now).replay ≡ false → input.new ≡ input.old }
    ensures unwritten { result.status ≢ status.Done → result.status ≢ status.WriteFault → output.new ≡ output.old }
    ensures unnamed { (asked_by words.now).replay ≡ false → (result.text ≡ text) × (result.clock ≡ clock) × (result.shelves ≡ shelves) }
    ensures text { (asked_by words.now).text ≡ None → result.text ≡ text }
    ensures clock { (asked_by words.now).clock ≡ false → result.clock ≡ clock }
    ensures relayed { (asked_by words.now).relay ≡ true → result.clock ≡ clock }
    ensures library { (asked_by words.now).library ≡ None → result.shelves ≡ shelves }
    ensures devices { result.status ≢ status.Done → result.status ≢ status.WriteFault → result.status ≢ status.WantOfMemory
        → (result.text ≡ text) × (result.clock ≡ clock) × (result.shelves ≡ shelves) }
{
    if words.replay {
        run(alloc, words, input, output, text, clock, shelves)
    } else {
        ended(Status::Usage, text, clock, shelves)
    }
}

/// What words come to that ask for a replay of a bundle that is read. It takes memory for the bundle, the run and the output.
pub(crate) fn run<S: Source, W: Sink, T: TextStore, C: Clock, K: Shelf>(
    alloc: Global,
    words: &Words,
    input: &mut S,
    output: &mut W,
    text: T,
    clock: C,
    shelves: Vec<K>,
) -> Finish<T, C, K>
    requires replayed { (asked_by words.now).replay ≡ true }
    requires shelves { vec_len shelves ≡ most_users }
    ensures causes { HasCause (IsOutputAs C.told C.faults T.told T.faults K.told K.faults (asked_by words.now) clock result.clock text result.text shelves.items result.shelves.items) result.status
        (record { bytes = S.left input.old; faults = S.faults input.old }) (record { bytes = S.left input.new; faults = S.faults input.new })
        (record { bytes = W.held output.old; faults = W.faults output.old }) (record { bytes = W.held output.new; faults = W.faults output.new }) }
    ensures usage { result.status ≢ status.Usage }
    ensures unwritten { result.status ≢ status.Done → result.status ≢ status.WriteFault → output.new ≡ output.old }
    ensures text { (asked_by words.now).text ≡ None → result.text ≡ text }
    ensures clock { (asked_by words.now).clock ≡ false → result.clock ≡ clock }
    ensures relayed { (asked_by words.now).relay ≡ true → result.clock ≡ clock }
    ensures library { (asked_by words.now).library ≡ None → result.shelves ≡ shelves }
    ensures devices { result.status ≢ status.Done → result.status ≢ status.WriteFault → result.status ≢ status.WantOfMemory
        → (result.text ≡ text) × (result.clock ≡ clock) × (result.shelves ≡ shelves) }
{
    match read_all(alloc, input, INPUT_LIMIT) {
        Ok(bytes) => answer(alloc, words, bytes.as_slice(), output, text, clock, shelves),
        Err(ReadRefused::ReadFault) => ended(Status::ReadFault, text, clock, shelves),
        Err(ReadRefused::TooLong) => ended(Status::TooLong, text, clock, shelves),
        Err(ReadRefused::WantOfMemory) => ended(Status::WantOfMemory, text, clock, shelves),
    }
}

// What becomes of bytes that were all read: they are the whole of a source that has no faults.
fn answer<W: Sink, T: TextStore, C: Clock, K: Shelf>(
    alloc: Global,
    words: &Words,
    bytes: &[u8],
    output: &mut W,
    text: T,
    clock: C,
    shelves: Vec<K>,
) -> Finish<T, C, K>
    requires few { length bytes.now ≤ most_input_bytes }
    requires replayed { (asked_by words.now).replay ≡ true }
    requires shelves { vec_len shelves ≡ most_users }
    ensures causes { HasCause (IsOutputAs C.told C.faults T.told T.faults K.told K.faults (asked_by words.now) clock result.clock text result.text shelves.items result.shelves.items) result.status
        (record { bytes = Some bytes.now; faults = 0 }) (record { bytes = Some []; faults = 0 })
        (record { bytes = W.held output.old; faults = W.faults output.old }) (record { bytes = W.held output.new; faults = W.faults output.new }) }
    ensures usage { result.status ≢ status.Usage }
    ensures unwritten { result.status ≢ status.Done → result.status ≢ status.WriteFault → output.new ≡ output.old }
    ensures text { (asked_by words.now).text ≡ None → result.text ≡ text }
    ensures clock { (asked_by words.now).clock ≡ false → result.clock ≡ clock }
    ensures relayed { (asked_by words.now).relay ≡ true → result.clock ≡ clock }
    ensures library { (asked_by words.now).library ≡ None → result.shelves ≡ shelves }
    ensures devices { result.status ≢ status.Done → result.status ≢ status.WriteFault → result.status ≢ status.WantOfMemory
        → (result.text ≡ text) × (result.clock ≡ clock) × (result.shelves ≡ shelves) }
{
    let bundle = match read(alloc, bytes) {
        Ok(bundle) => bundle,
        Err(BundleRefused::Malformed { offset, rule }) => {
            return ended(Status::Malformed { offset, rule }, text, clock, shelves);
        }
        Err(BundleRefused::WantOfMemory) => {
            return ended(Status::WantOfMemory, text, clock, shelves);
        }
    };
    let Ran {
        ended: outcome,
        text,
        clock,
        shelves,
    } = run_as_asked(alloc, words, bundle, text, clock, shelves);
    let written = output_in(alloc, outcome);
    match written {
        Ok(written) => ended(write(&written, output), text, clock, shelves),
        Err(_) => ended(Status::WantOfMemory, text, clock, shelves),
    }
}

/// Writes what is said of a run: all of it, or a part from its front on where the sink fails. It takes no memory.
pub(crate) fn write<W: Sink>(written: &Bytes, output: &mut W) -> Status
    ensures { IsWriting (W.held output.old) (W.held output.new) (W.faults output.old) (W.faults output.new) written.now.items result }
{
    match write_all(output, written.as_slice()) {
        Ok(()) => Status::Done,
        Err(WriteFault) => Status::WriteFault,
    }
}
