// The program: it makes the devices of the machine, hands them and its words to the proved run, and tells how that ended.
#![tactic(auto)]

ghost use Rattle.std.specs.Prelude.{◌≡◌, ◌≢◌, ◌⊎◌, ◌↔◌, ℕ, IfErr, IfOk, IsOk, None, Some, bytes_eq, codes, drop, length, map, string_bytes, vec_len};
ghost use Rattle.std.specs.List.{list_any};
ghost use Rattle.std.specs.Vec.Iter.{into_iter_items, into_iter_len};
ghost use Rattle.apl_arrays.specs.Limits.{most_input_bytes, most_users};
ghost use Rattle.apl_io.specs.Faults.{Rose};
ghost use Rattle.apl_io.specs.Whole.{AreAtMost};
ghost use Rattle.aplsv_words.specs.Looks.{MeanNoLook, MeanToLook};
ghost use Rattle.aplsv_words.specs.Meaning.{Asked, Means};
ghost use Rattle.aplsv_words.specs.declared.look.Look.{Look};
ghost use Rattle.aplsv_look.specs.Causes.{HasLookCause, most_looked_at};
ghost use Rattle.aplsv_look.specs.Statuses.{IsLookConclusion};
ghost use Rattle.aplsv_look.specs.declared.status.LookStatus.TheVariants as look_status;
ghost use Rattle.aplsv_top.specs.Causes.{HasCause};
ghost use Rattle.aplsv_top.specs.Checks.{AskCheck, HasCheckCause, IsCheckConclusion, most_checked_bytes};
ghost use Rattle.aplsv_top.specs.Headline.{IsOutputAs};
ghost use Rattle.aplsv_top.specs.Loads.{HasLoadCause, IsLoadAs};
ghost use Rattle.aplsv_top.specs.Words.{HaveMeaning, IsConclusion};
ghost use Rattle.aplsv_top.specs.declared.status.Status.TheVariants as status;
ghost use Rattle.check_rules.specs.declared.verdict.Verdict.{Verdict};

use apl_arrays::{USER_LIMIT, WantOfMemory};
use apl_io::{Devices, Sink, Source};
use aplsv_devices::{DirShelf, DirText, OpenGate, StdSink, StdSource, SystemClock};
use aplsv_look::{LookStatus, aplsv_look_words};
use aplsv_top::{Finish, Status, aplsv, aplsv_check_words};
use bundle_text::BundleRule;
use refusal_lines::{malformed_lines, usage_lines};
use std::alloc::{AllocError, Global};
use std::env::{self, Args};
use std::io::{self, ErrorKind};
use std::process::{self, ExitCode};
use std::sync::Wait;
use std::thread::Threads;

type Text = DirText<HostRuntime>;

type Clock = SystemClock<HostRuntime>;

type Shelf = DirShelf<HostRuntime>;

// The words of the process in their order, the program's name in front: all of them, where what gives them counts what it has.
fn all_words(alloc: Global, given: Args) -> Result<Vec<String>, AllocError>
    ensures { IfOk result (λ words. into_iter_len given ≡ length (into_iter_items given) → words.items ≡ into_iter_items given) }
{
    let mut words = Vec::new(alloc);
    for word in given {
        words.push(word)?;
    }
    Ok(words)
}

// The words behind the program's name.
fn behind_name(words: &[String]) -> &[String]
    ensures { result.now ≡ drop 1 words.now }
{
    if words.is_empty() { words } else { &words[1..] }
}

// A shelf for each user, without a place, and with the mark of this process.
fn shelves(rt: HostRuntime, mark: u32) -> Result<Vec<Shelf>, WantOfMemory>
    ensures { IfOk result (λ shelves. vec_len shelves ≡ most_users) }
{
    let mut shelves = Vec::new(rt.alloc());
    for _made in 0..USER_LIMIT {
        shelves.push(DirShelf::new(rt, mark))?;
    }
    Ok(shelves)
}

// The devices of the machine, without a place.
fn devices(rt: HostRuntime) -> Result<Devices<Text, Clock, Shelf>, WantOfMemory>
    ensures { IfOk result (λ devices. vec_len devices.shelves ≡ most_users) }
{
    let mark = process::id(rt.process());
    Ok(Devices {
        text: DirText::new(rt, mark),
        clock: SystemClock::new(rt),
        shelves: shelves(rt, mark)?,
    })
}

// What the program does for its words, the program's name in front, over a source and a sink: what the top call does over the
// devices of the machine, which tell nothing of what they hold, and past a gate that stands open.
fn run<R: Threads + Wait + Sync, S: Source, W: Sink>(
    threads: &R,
    alloc: Global,
    words: &[String],
    input: &mut S,
    output: &mut W,
    devices: Devices<Text, Clock, Shelf>,
) -> Finish<Text, Clock, Shelf>
    requires shelves { vec_len devices.shelves ≡ most_users }
    ensures load { (asked : Asked) → Means (map string_bytes (drop 1 words.now)) asked → (n : ℕ) → asked.load ≡ Some n →
        HasLoadCause (IsLoadAs (λ _. None) (λ clock. clock.faults) (λ _. None) (λ text. text.faults) (λ _. None) (λ shelf. shelf.faults)
        n asked devices.clock result.clock devices.text result.text devices.shelves.items result.shelves.items) result.status
        (record { bytes = W.held output.old; faults = W.faults output.old }) (record { bytes = W.held output.new; faults = W.faults output.new }) }
    ensures causes { (asked : Asked) → Means (map string_bytes (drop 1 words.now)) asked → asked.load ≡ None →
        HasCause (IsOutputAs (λ _. None) (λ clock. clock.faults) (λ _. None) (λ text. text.faults) (λ _. None) (λ shelf. shelf.faults)
        asked devices.clock result.clock devices.text result.text devices.shelves.items result.shelves.items) result.status
        (record { bytes = S.left input.old; faults = S.faults input.old }) (record { bytes = S.left input.new; faults = S.faults input.new })
        (record { bytes = W.held output.old; faults = W.faults output.old }) (record { bytes = W.held output.new; faults = W.faults output.new }) }
    ensures usage { result.status ≡ status.Usage → ¬ HaveMeaning (map string_bytes (drop 1 words.now)) }
    ensures meaningless { ¬ HaveMeaning (map string_bytes (drop 1 words.now)) → (result.status ≡ status.Usage) ⊎ (result.status ≡ status.WantOfMemory) }
    ensures unread { ¬ HaveMeaning (map string_bytes (drop 1 words.now)) → input.new ≡ input.old }
    ensures refused { result.status ≡ status.Usage → input.new ≡ input.old }
    ensures unwritten { result.status ≢ status.Done → result.status ≢ status.WriteFault → output.new ≡ output.old }
    ensures complete { HaveMeaning (map string_bytes (drop 1 words.now)) → AreAtMost (S.left input.old) most_input_bytes
        → ¬ (Rose (S.faults input.old) (S.faults input.new)) → ¬ (Rose (W.faults output.old) (W.faults output.new))
        → IsConclusion result.status }
{
    let Devices {
        text,
        clock,
        shelves,
    } = devices;
    aplsv(
        threads,
        alloc,
        behind_name(words),
        input,
        output,
        text,
        clock,
        shelves,
        &OpenGate,
    )
}

// What the program does for its words, the program's name in front, where a check is asked for.
fn checked<S: Source, W: Sink>(
    alloc: Global,
    words: &[String],
    input: &mut S,
    output: &mut W,
) -> Status
    ensures causes { AskCheck (map string_bytes (drop 1 words.now)) → HasCheckCause result
        (record { bytes = S.left input.old; faults = S.faults input.old }) (record { bytes = S.left input.new; faults = S.faults input.new })
        (record { bytes = W.held output.old; faults = W.faults output.old }) (record { bytes = W.held output.new; faults = W.faults output.new }) }
    ensures usage { (result ≡ status.Usage) ↔ ¬ AskCheck (map string_bytes (drop 1 words.now)) }
    ensures unread { result ≡ status.Usage → input.new ≡ input.old }
    ensures unwritten { result ≢ status.Done → result ≢ status.WriteFault → ((found : Verdict) → result ≢ status.NotARun found) → output.new ≡ output.old }
    ensures complete { AskCheck (map string_bytes (drop 1 words.now)) → AreAtMost (S.left input.old) most_checked_bytes
        → ¬ (Rose (S.faults input.old) (S.faults input.new)) → ¬ (Rose (W.faults output.old) (W.faults output.new))
        → IsCheckConclusion result }
{
    aplsv_check_words(alloc, behind_name(words), input, output)
}

// Whether a word asks for a check.
fn is_check(word: &String) -> bool
    ensures { result ≡ bytes_eq (string_bytes word.now) (codes "--check") }
{
    word.as_str() == "--check"
}

// Whether a check is asked for: by one of the words.
fn asks_check(words: &[String]) -> bool
    ensures { result ≡ list_any (λ word. bytes_eq (string_bytes word) (codes "--check")) words.now }
{
    words.iter().any(|word| is_check(word))
}

// How it ends over the devices of the machine, for the words of the process.
fn ending_of_run<R: Threads + Wait + Sync, S: Source, W: Sink>(
    rt: HostRuntime,
    threads: &R,
    words: &[String],
    input: &mut S,
    output: &mut W,
) -> Result<Status, WantOfMemory>
    ensures unread { IfOk result (λ ending. ending ≡ status.Usage → input.new ≡ input.old) }
    ensures unwritten { IfOk result (λ ending. ending ≢ status.Done → ending ≢ status.WriteFault → output.new ≡ output.old) }
    ensures refused { IfErr result (λ _. (input.new ≡ input.old) × (output.new ≡ output.old)) }
{
    let devices = devices(rt)?;
    let finish = run(threads, rt.alloc(), words, input, output, devices);
    let status = finish.status;
    drop(finish);
    Ok(status)
}

// How it ends for its words: a check, where one is asked for, and else a run.
fn ending_by_words<R: Threads + Wait + Sync, S: Source, W: Sink>(
    rt: HostRuntime,
    threads: &R,
    words: &[String],
    input: &mut S,
    output: &mut W,
) -> Result<Status, WantOfMemory>
    ensures check { IfOk result (λ ending. AskCheck (map string_bytes (drop 1 words.now)) → HasCheckCause ending
        (record { bytes = S.left input.old; faults = S.faults input.old }) (record { bytes = S.left input.new; faults = S.faults input.new })
        (record { bytes = W.held output.old; faults = W.faults output.old }) (record { bytes = W.held output.new; faults = W.faults output.new })) }
    ensures always { AskCheck (map string_bytes (drop 1 words.now)) → IsOk result }
    ensures unread { IfOk result (λ ending. ending ≡ status.Usage → input.new ≡ input.old) }
    ensures unwritten { IfOk result (λ ending. ending ≢ status.Done → ending ≢ status.WriteFault → ((found : Verdict) → ending ≢ status.NotARun found) → output.new ≡ output.old) }
    ensures refused { IfErr result (λ _. (input.new ≡ input.old) × (output.new ≡ output.old)) }
{
    if asks_check(behind_name(words)) {
        Ok(checked(rt.alloc(), words, input, output))
    } else {
        ending_of_run(rt, threads, words, input, output)
    }
}

// What the program does for its words, the program's name in front, where a look is asked for.
fn looked<S: Source, W: Sink>(
    alloc: Global,
    words: &[String],
    input: &mut S,
    output: &mut W,
) -> LookStatus
    ensures causes { (look : Look) → MeanToLook (map string_bytes (drop 1 words.now)) look → HasLookCause look result
        (record { bytes = S.left input.old; faults = S.faults input.old }) (record { bytes = S.left input.new; faults = S.faults input.new })
        (record { bytes = W.held output.old; faults = W.faults output.old }) (record { bytes = W.held output.new; faults = W.faults output.new }) }
    ensures usage { result ≡ look_status.Usage → MeanNoLook (map string_bytes (drop 1 words.now)) }
    ensures meaningless { MeanNoLook (map string_bytes (drop 1 words.now)) → (result ≡ look_status.Usage) ⊎ (result ≡ look_status.WantOfMemory) }
    ensures unread { MeanNoLook (map string_bytes (drop 1 words.now)) → (input.new ≡ input.old) × (output.new ≡ output.old) }
    ensures unwritten { result ≢ look_status.Done → result ≢ look_status.WriteFault → output.new ≡ output.old }
    ensures complete { (look : Look) → MeanToLook (map string_bytes (drop 1 words.now)) look → AreAtMost (S.left input.old) most_looked_at
        → ¬ (Rose (S.faults input.old) (S.faults input.new)) → ¬ (Rose (W.faults output.old) (W.faults output.new))
        → IsLookConclusion result }
{
    aplsv_look_words(alloc, behind_name(words), input, output)
}

// The same for the words of the process.
fn ending_of_look<S: Source, W: Sink>(
    rt: HostRuntime,
    given: Args,
    input: &mut S,
    output: &mut W,
) -> Result<LookStatus, AllocError>
    ensures unread { IfOk result (λ ending. ending ≡ look_status.Usage → (input.new ≡ input.old) × (output.new ≡ output.old)) }
    ensures unwritten { IfOk result (λ ending. ending ≢ look_status.Done → ending ≢ look_status.WriteFault → output.new ≡ output.old) }
    ensures refused { IfErr result (λ _. (input.new ≡ input.old) × (output.new ≡ output.old)) }
{
    let words = all_words(rt.alloc(), given)?;
    Ok(looked(rt.alloc(), &words, input, output))
}

// The same, where words that are no text ask for no look.
fn status_of_look<S: Source, W: Sink>(rt: HostRuntime, input: &mut S, output: &mut W) -> LookStatus
    ensures unread { result ≡ look_status.Usage → (input.new ≡ input.old) × (output.new ≡ output.old) }
    ensures unwritten { result ≢ look_status.Done → result ≢ look_status.WriteFault → output.new ≡ output.old }
{
    match env::args(&rt) {
        Ok(given) => match ending_of_look(rt, given, input, output) {
            Ok(status) => status,
            Err(AllocError) => LookStatus::WantOfMemory,
        },
        Err(fault) if fault.kind() == ErrorKind::OutOfMemory => LookStatus::WantOfMemory,
        Err(_) => LookStatus::Usage,
    }
}

// How it ends for the words of the process.
fn ending<R: Threads + Wait + Sync, S: Source, W: Sink>(
    rt: HostRuntime,
    threads: &R,
    given: Args,
    input: &mut S,
    output: &mut W,
) -> Result<Status, WantOfMemory>
    ensures unread { IfOk result (λ ending. ending ≡ status.Usage → input.new ≡ input.old) }
    ensures unwritten { IfOk result (λ ending. ending ≢ status.Done → ending ≢ status.WriteFault → ((found : Verdict) → ending ≢ status.NotARun found) → output.new ≡ output.old) }
    ensures refused { IfErr result (λ _. (input.new ≡ input.old) × (output.new ≡ output.old)) }
{
    let words = all_words(rt.alloc(), given)?;
    ending_by_words(rt, threads, &words, input, output)
}

// The same, where words that are no text have no meaning.
fn status_of<R: Threads + Wait + Sync, S: Source, W: Sink>(
    rt: HostRuntime,
    threads: &R,
    input: &mut S,
    output: &mut W,
) -> Status
    ensures unread { result ≡ status.Usage → input.new ≡ input.old }
    ensures unwritten { result ≢ status.Done → result ≢ status.WriteFault → ((found : Verdict) → result ≢ status.NotARun found) → output.new ≡ output.old }
{
    match env::args(&rt) {
        Ok(given) => match ending(rt, threads, given, input, output) {
            Ok(status) => status,
            Err(WantOfMemory) => Status::WantOfMemory,
        },
        Err(fault) if fault.kind() == ErrorKind::OutOfMemory => Status::WantOfMemory,
        Err(_) => Status::Usage,
    }
}

// Says why the bytes that were read are no bundle, where memory lasts.
fn say_malformed(rt: &HostRuntime, bytes: &[u8], offset: u64, rule: BundleRule) -> io::Result<()> {
    match malformed_lines(rt.alloc(), bytes, offset, rule) {
        Ok(lines) => {
            let lines = lines.as_str();
            eprint!(rt; "{lines}")
        }
        Err(WantOfMemory) => Ok(()),
    }
}

// Says how the run ended, and what may help there.
fn say(rt: &HostRuntime, status: Status, read: Option<&[u8]>) -> io::Result<()> {
    eprintln!(rt; "{status}")?;
    match (status, read) {
        (Status::Usage, _) => {
            let lines = usage_lines();
            eprint!(rt; "{lines}")
        }
        (Status::Malformed { offset, rule }, Some(bytes)) => {
            say_malformed(rt, bytes, offset, rule)
        }
        _ => Ok(()),
    }
}

// What a look comes to: its line on standard error, where it is not done, and its exit status.
fn code_of_look(rt: &HostRuntime, status: LookStatus) -> ExitCode {
    if status != LookStatus::Done {
        // Where standard error fails too, the exit status still tells.
        let _ = eprintln!(rt; "{status}");
    }
    ExitCode::from(status.code())
}

fn main(rt: HostRuntime) -> ExitCode {
    let mut input = StdSource::new(rt.alloc(), rt.stdin());
    let mut output = StdSink::new(rt.stdout());
    let looked = status_of_look(rt, &mut input, &mut output);
    if looked != LookStatus::Usage {
        return code_of_look(&rt, looked);
    }
    let status = status_of(rt, &rt, &mut input, &mut output);
    if status != Status::Done {
        // Where standard error fails too, the exit status still tells.
        let _ = say(&rt, status, input.kept());
    }
    ExitCode::from(status.code())
}
