ghost use Rattle.std.specs.Prelude.{◌≡◌, ◌≢◌, ◌≤◌, [], None, Some, false, length, true, vec_len};
ghost use Rattle.apl_arrays.specs.Limits.{most_input_bytes, most_users};
ghost use Rattle.aplsv_words.specs.Meaning.{asked_by};
ghost use Rattle.aplsv_top.specs.Causes.{HasCause};
ghost use Rattle.aplsv_top.specs.Headline.{IsOutputAs};
ghost use Rattle.aplsv_top.specs.declared.status.Status.TheVariants as status;

use crate::on_threads::run::run_as_asked;
use crate::on_threads::server::Server;
use crate::output::output_in;
use crate::ran::Ran;
use crate::status::{Finish, Status};
use crate::top::{INPUT_LIMIT, ended, write};
use apl_io::{Clock, Gate, ReadRefused, Shelf, Sink, Source, TextStore, read_all};
use aplsv_words::Words;
use bundle_text::{BundleRefused, read};
use std::alloc::Global;
use std::sync::Wait;
use std::thread::Threads;

/// What words come to that ask for a run on threads of a bundle that is read. It takes memory for the bundle, the run and the
/// output.
pub(crate) fn served<
    R: Threads + Wait + Sync,
    G: Gate + Sync,
    S: Source,
    W: Sink,
    T: TextStore + Send + Drop,
    C: Clock + Send + Drop,
    K: Shelf + Send + Drop,
>(
    alloc: Global,
    server: &Server<'_, R, G>,
    words: &Words,
    input: &mut S,
    output: &mut W,
    text: T,
    clock: C,
    shelves: Vec<K>,
) -> Finish<T, C, K>
    requires served { (asked_by words.now).replay ≡ false }
    requires shelves { vec_len shelves ≡ most_users }
    ensures causes { HasCause (IsOutputAs C.told C.faults T.told T.faults K.told K.faults (asked_by words.now) clock result.clock text result.text shelves.items result.shelves.items) result.status
        (record { bytes = S.left input.old; faults = S.faults input.old }) (record { bytes = S.left input.new; faults = S.faults input.new })
        (record { bytes = W.held output.old; faults = W.faults output.old }) (record { bytes = W.held output.new; faults = W.faults output.new }) }
    ensures usage { result.status ≢ status.Usage }
    ensures unwritten { result.status ≢ status.Done → result.status ≢ status.WriteFault → output.new ≡ output.old }
    ensures text { (asked_by words.now).text ≡ None → result.text ≡ text }
    ensures clock { (asked_by words.now).clock ≡ false → result.clock ≡ clock }
    ensures relayed { (asked_by words.now).relay ≡ true → result.clock ≡ clock }
    ensures library { (asked_by words.now).library ≡ None → result.shelves ≡ shelves }
    ensures devices { result.status ≢ status.Done → result.status ≢ status.WriteFault → result.status ≢ status.WantOfMemory
        → (result.text ≡ text) × (result.clock ≡ clock) × (result.shelves ≡ shelves) }
{
    match read_all(alloc, input, INPUT_LIMIT) {
        Ok(bytes) => answer(
            alloc,
            server,
            words,
            bytes.as_slice(),
            output,
            text,
            clock,
            shelves,
        ),
        Err(ReadRefused::ReadFault) => ended(Status::ReadFault, text, clock, shelves),
        Err(ReadRefused::TooLong) => ended(Status::TooLong, text, clock, shelves),
        Err(ReadRefused::WantOfMemory) => ended(Status::WantOfMemory, text, clock, shelves),
    }
}

// What becomes of bytes that were all read: they are the whole of a source that has no faults.
fn answer<
    R: Threads + Wait + Sync,
    G: Gate + Sync,
    W: Sink,
    T: TextStore + Send + Drop,
    C: Clock + Send + Drop,
    K: Shelf + Send + Drop,
>(
    alloc: Global,
    server: &Server<'_, R, G>,
    words: &Words,
    bytes: &[u8],
    output: &mut W,
    text: T,
    clock: C,
    shelves: Vec<K>,
) -> Finish<T, C, K>
    requires few { length bytes.now ≤ most_input_bytes }
    requires served { (asked_by words.now).replay ≡ false }
    requires shelves { vec_len shelves ≡ most_users }
    ensures causes { HasCause (IsOutputAs C.told C.faults T.told T.faults K.told K.faults (asked_by words.now) clock result.clock text result.text shelves.items result.shelves.items) result.status
        (record { bytes = Some bytes.now; faults = 0 }) (record { bytes = Some []; faults = 0 })
        (record { bytes = W.held output.old; faults = W.faults output.old }) (record { bytes = W.held output.new; faults = W.faults output.new }) }
    ensures usage { result.status ≢ status.Usage }
    ensures unwritten { result.status ≢ status.Done → result.status ≢ status.WriteFault → output.new ≡ output.old }
    ensures text { (asked_by words.now).text ≡ None → result.text ≡ text }
    ensures clock { (asked_by words.now).clock ≡ false → result.clock ≡ clock }
    ensures relayed { (asked_by words.now).relay ≡ true → result.clock ≡ clock }
    ensures library { (asked_by words.now).library ≡ None → result.shelves ≡ shelves }
    ensures devices { result.status ≢ status.Done → result.status ≢ status.WriteFault → result.status ≢ status.WantOfMemory
        → (result.text ≡ text) × (result.clock ≡ clock) × (result.shelves ≡ shelves) }
{
    let bundle = match read(alloc, bytes) {
        Ok(bundle) => bundle,
        Err(BundleRefused::Malformed { offset, rule }) => {
            return ended(Status::Malformed { offset, rule }, text, clock, shelves);
        }
        Err(BundleRefused::WantOfMemory) => {
            return ended(Status::WantOfMemory, text, clock, shelves);
        }
    };
    let Ran {
        ended: outcome,
        text,
        clock,
        shelves,
    } = run_as_asked(alloc, server, words, bundle, text, clock, shelves);
    let written = output_in(alloc, outcome);
    match written {
        Ok(written) => ended(write(&written, output), text, clock, shelves),
        Err(_) => ended(Status::WantOfMemory, text, clock, shelves),
    }
}
