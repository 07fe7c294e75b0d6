ghost use Rattle.std.specs.Prelude.{◌≡◌, ◌≢◌, ◌≤◌, ◌⊎◌, ℕ, None, Some, false, map, string_bytes, true, vec_len};
ghost use Rattle.apl_arrays.specs.Limits.{most_input_bytes, most_users};
ghost use Rattle.apl_io.specs.Faults.{Rose};
ghost use Rattle.apl_io.specs.Whole.{AreAtMost};
ghost use Rattle.aplsv_words.specs.Meaning.{Asked, Means, asked_by};
ghost use Rattle.aplsv_top.specs.Causes.{HasCause};
ghost use Rattle.aplsv_top.specs.Headline.{IsOutputAs};
ghost use Rattle.aplsv_top.specs.Loads.{HasLoadCause, IsLoadAs};
ghost use Rattle.aplsv_top.specs.Words.{HaveMeaning, IsConclusion};
ghost use Rattle.aplsv_top.specs.declared.status.Status.TheVariants as status;

use crate::loads::loaded;
use crate::on_threads::{Server, served};
use crate::status::{Finish, Status};
use crate::top::{ended, run};
use apl_io::{Clock, Gate, Shelf, Sink, Source, TextStore};
use aplsv_words::{Words, WordsRefused, words_of};
use std::alloc::Global;
use std::sync::Wait;
use std::thread::Threads;

/// The most workers: one for each party that there may be.
const MOST_WORKERS: u32 = 34;

/// What the program does for all words but those among which `--check` stands. It reads a bundle to its end, runs it, and writes the transcripts and the journal: on threads, by as
/// many workers as `--workers` says, and else by one for each party; or on one thread, in turns, for words among which `--replay`
/// stands, of which it makes what `aplsv_replay_words` makes. However the threads run, where it is `Done` the journal written is
/// one legal history, and each transcript is its user's lines evaluated alone with the answers that the journal gives that user
/// and the replies of its shelf. For words among which `--load N` stands it reads nothing, makes the bundle of N numbers, runs
/// it in turns, and writes the summary of its transcripts and its journal. It takes the devices that `aplsv_replay_words` takes;
/// what no word names is not called, and comes back as it came. On threads each party passes the gate before each of its turns.
/// Words that have no meaning are `Usage`; a load ends as `Done`, `WriteFault` or `WantOfMemory` else. A run on threads may
/// wait for ever.
pub fn aplsv<
    R: Threads + Wait + Sync,
    S: Source,
    W: Sink,
    T: TextStore + Send + Drop,
    C: Clock + Send + Drop,
    K: Shelf + Send + Drop,
    G: Gate + Sync,
>(
    rt: &R,
    alloc: Global,
    words: &[String],
    input: &mut S,
    output: &mut W,
    text: T,
    clock: C,
    shelves: Vec<K>,
    gate: &G,
) -> Finish<T, C, K>
    requires shelves { vec_len shelves ≡ most_users }

    // The headline, and the cause of each other answer.
    ensures causes { (asked : Asked) → Means (map string_bytes words.now) asked → asked.load ≡ None →
        HasCause (IsOutputAs C.told C.faults T.told T.faults K.told K.faults asked clock result.clock text result.text shelves.items result.shelves.items) result.status
        (record { bytes = S.left input.old; faults = S.faults input.old }) (record { bytes = S.left input.new; faults = S.faults input.new })
        (record { bytes = W.held output.old; faults = W.faults output.old }) (record { bytes = W.held output.new; faults = W.faults output.new }) }
    ensures usage { result.status ≡ status.Usage → ¬ HaveMeaning (map string_bytes words.now) }
    ensures meaningless { ¬ HaveMeaning (map string_bytes words.now) → (result.status ≡ status.Usage) ⊎ (result.status ≡ status.WantOfMemory) }
    ensures unread { ¬ HaveMeaning (map string_bytes words.now) → input.new ≡ input.old }
    ensures unwritten { result.status ≢ status.Done → result.status ≢ status.WriteFault → output.new ≡ output.old }

    // A load: nothing is read, and what is written sums up a run of its bundle.
    ensures load { (asked : Asked) → Means (map string_bytes words.now) asked → (n : ℕ) → asked.load ≡ Some n →
        HasLoadCause (IsLoadAs C.told C.faults T.told T.faults K.told K.faults n asked clock result.clock text result.text shelves.items result.shelves.items) result.status
        (record { bytes = W.held output.old; faults = W.faults output.old }) (record { bytes = W.held output.new; faults = W.faults output.new }) }
    ensures load_unread { (asked : Asked) → Means (map string_bytes words.now) asked → (n : ℕ) → asked.load ≡ Some n → input.new ≡ input.old }

    // Without faults, bytes that are few enough are answered if there is memory, and so is a load.
    ensures complete { HaveMeaning (map string_bytes words.now) → AreAtMost (S.left input.old) most_input_bytes
        → ¬ (Rose (S.faults input.old) (S.faults input.new)) → ¬ (Rose (W.faults output.old) (W.faults output.new))
        → IsConclusion result.status }

    // What no word names comes back as it came, and all does where nothing was run.
    ensures unnamed { ¬ HaveMeaning (map string_bytes words.now) → (result.text ≡ text) × (result.clock ≡ clock) × (result.shelves ≡ shelves) }
    ensures text { (asked : Asked) → Means (map string_bytes words.now) asked → asked.text ≡ None → result.text ≡ text }
    ensures clock { (asked : Asked) → Means (map string_bytes words.now) asked → asked.clock ≡ false → result.clock ≡ clock }
    ensures relayed { (asked : Asked) → Means (map string_bytes words.now) asked → asked.relay ≡ true → result.clock ≡ clock }
    ensures library { (asked : Asked) → Means (map string_bytes words.now) asked → asked.library ≡ None → result.shelves ≡ shelves }
    ensures devices { result.status ≢ status.Done → result.status ≢ status.WriteFault → result.status ≢ status.WantOfMemory
        → (result.text ≡ text) × (result.clock ≡ clock) × (result.shelves ≡ shelves) }
{
    match words_of(alloc, words) {
        Ok(asked) => by_words(rt, alloc, &asked, input, output, text, clock, shelves, gate),
        Err(WordsRefused::Usage) => ended(Status::Usage, text, clock, shelves),
        Err(WordsRefused::WantOfMemory) => ended(Status::WantOfMemory, text, clock, shelves),
    }
}

// What words that have a meaning come to.
fn by_words<
    R: Threads + Wait + Sync,
    S: Source,
    W: Sink,
    T: TextStore + Send + Drop,
    C: Clock + Send + Drop,
    K: Shelf + Send + Drop,
    G: Gate + Sync,
>(
    rt: &R,
    alloc: Global,
    words: &Words,
    input: &mut S,
    output: &mut W,
    text: T,
    clock: C,
    shelves: Vec<K>,
    gate: &G,
) -> Finish<T, C, K>
    requires shelves { vec_len shelves ≡ most_users }
    requires count { (n : ℕ) → (asked_by words.now).load ≡ Some n → (1 ≤ n) × (n ≤ 100000) }
    requires workers { (n : ℕ) → (asked_by words.now).workers ≡ Some n → (1 ≤ n) × (n ≤ 34) }
    ensures load { (n : ℕ) → (asked_by words.now).load ≡ Some n →
        HasLoadCause (IsLoadAs C.told C.faults T.told T.faults K.told K.faults n (asked_by words.now) clock result.clock text result.text shelves.items result.shelves.items) result.status
        (record { bytes = W.held output.old; faults = W.faults output.old }) (record { bytes = W.held output.new; faults = W.faults output.new }) }
    ensures causes { (asked_by words.now).load ≡ None →
        HasCause (IsOutputAs C.told C.faults T.told T.faults K.told K.faults (asked_by words.now) clock result.clock text result.text shelves.items result.shelves.items) result.status
        (record { bytes = S.left input.old; faults = S.faults input.old }) (record { bytes = S.left input.new; faults = S.faults input.new })
        (record { bytes = W.held output.old; faults = W.faults output.old }) (record { bytes = W.held output.new; faults = W.faults output.new }) }
    ensures usage { result.status ≢ status.Usage }
    ensures load_unread { (n : ℕ) → (asked_by words.now).load ≡ Some n → input.new ≡ input.old }
    ensures unwritten { result.status ≢ status.Done → result.status ≢ status.WriteFault → output.new ≡ output.old }
    ensures text { (asked_by words.now).text ≡ None → result.text ≡ text }
    ensures clock { (asked_by words.now).clock ≡ false → result.clock ≡ clock }
    ensures relayed { (asked_by words.now).relay ≡ true → result.clock ≡ clock }
    ensures library { (asked_by words.now).library ≡ None → result.shelves ≡ shelves }
    ensures devices { result.status ≢ status.Done → result.status ≢ status.WriteFault → result.status ≢ status.WantOfMemory
        → (result.text ≡ text) × (result.clock ≡ clock) × (result.shelves ≡ shelves) }
{
    match words.load {
        Some(count) => loaded(alloc, count, words, output, text, clock, shelves),
        None => by_driver(rt, alloc, words, input, output, text, clock, shelves, gate),
    }
}

// What those come to that ask for a run of a bundle that is read.
fn by_driver<
    R: Threads + Wait + Sync,
    S: Source,
    W: Sink,
    T: TextStore + Send + Drop,
    C: Clock + Send + Drop,
    K: Shelf + Send + Drop,
    G: Gate + Sync,
>(
    rt: &R,
    alloc: Global,
    words: &Words,
    input: &mut S,
    output: &mut W,
    text: T,
    clock: C,
    shelves: Vec<K>,
    gate: &G,
) -> Finish<T, C, K>
    requires shelves { vec_len shelves ≡ most_users }
    requires workers { (n : ℕ) → (asked_by words.now).workers ≡ Some n → (1 ≤ n) × (n ≤ 34) }
    ensures causes { HasCause (IsOutputAs C.told C.faults T.told T.faults K.told K.faults (asked_by words.now) clock result.clock text result.text shelves.items result.shelves.items) result.status
        (record { bytes = S.left input.old; faults = S.faults input.old }) (record { bytes = S.left input.new; faults = S.faults input.new })
        (record { bytes = W.held output.old; faults = W.faults output.old }) (record { bytes = W.held output.new; faults = W.faults output.new }) }
    ensures usage { result.status ≢ status.Usage }
    ensures unwritten { result.status ≢ status.Done → result.status ≢ status.WriteFault → output.new ≡ output.old }
    ensures text { (asked_by words.now).text ≡ None → result.text ≡ text }
    ensures clock { (asked_by words.now).clock ≡ false → result.clock ≡ clock }
    ensures relayed { (asked_by words.now).relay ≡ true → result.clock ≡ clock }
    ensures library { (asked_by words.now).library ≡ None → result.shelves ≡ shelves }
    ensures devices { result.status ≢ status.Done → result.status ≢ status.WriteFault → result.status ≢ status.WantOfMemory
        → (result.text ≡ text) × (result.clock ≡ clock) × (result.shelves ≡ shelves) }
{
    if words.replay {
        run(alloc, words, input, output, text, clock, shelves)
    } else {
        let workers = workers_for(words);
        let server = Server { rt, workers, gate };
        served(alloc, &server, words, input, output, text, clock, shelves)
    }
}

// As many workers as the words ask for, and else the most.
fn workers_for(words: &Words) -> u32
    requires { (n : ℕ) → (asked_by words.now).workers ≡ Some n → (1 ≤ n) × (n ≤ 34) }
    ensures some { 1 ≤ result }
    ensures few { result ≤ 34 }
{
    match words.workers {
        Some(workers) => workers,
        None => MOST_WORKERS,
    }
}
