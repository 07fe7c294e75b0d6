ghost use Rattle.std.specs.Prelude.{◌≡◌, ◌≢◌, ◌≤◌, false, None, true, vec_len};
ghost use Rattle.apl_arrays.specs.Limits.{most_users};
ghost use Rattle.aplsv_words.specs.Meaning.{asked_by};
ghost use Rattle.aplsv_top.specs.Loads.{HasLoadCause, IsLoadAs};
ghost use Rattle.aplsv_top.specs.declared.status.Status.TheVariants as status;

use crate::in_turns::run_as_asked;
use crate::ran::Ran;
use crate::status::{Finish, Status};
use crate::summaries::summary_in;
use crate::top::{ended, write};
use apl_arrays::WantOfMemory;
use apl_io::{Clock, Shelf, Sink, TextStore};
use aplsv_words::Words;
use bundle_text::load;
use std::alloc::Global;

/// Makes the bundle of so many numbers, runs it over the devices that the words name, and writes its summary. Nothing is read.
/// It takes memory for the bundle, the run and the summary.
pub(crate) fn loaded<W: Sink, T: TextStore, C: Clock, K: Shelf>(
    alloc: Global,
    count: u32,
    words: &Words,
    output: &mut W,
    text: T,
    clock: C,
    shelves: Vec<K>,
) -> Finish<T, C, K>
    requires some { 1 ≤ count }
    requires few { count ≤ 100000 }
    requires shelves { vec_len shelves ≡ most_users }
    ensures causes { HasLoadCause (IsLoadAs C.told C.faults T.told T.faults K.told K.faults count (asked_by words.now) clock result.clock text result.text shelves.items result.shelves.items) result.status
        (record { bytes = W.held output.old; faults = W.faults output.old }) (record { bytes = W.held output.new; faults = W.faults output.new }) }
    ensures unwritten { result.status ≢ status.Done → result.status ≢ status.WriteFault → output.new ≡ output.old }
    ensures text { (asked_by words.now).text ≡ None → result.text ≡ text }
    ensures clock { (asked_by words.now).clock ≡ false → result.clock ≡ clock }
    ensures relayed { (asked_by words.now).relay ≡ true → result.clock ≡ clock }
    ensures library { (asked_by words.now).library ≡ None → result.shelves ≡ shelves }
{
    let bundle = match load(alloc, count) {
        Ok(bundle) => bundle,
        Err(WantOfMemory) => return ended(Status::WantOfMemory, text, clock, shelves),
    };
    let Ran {
        ended: outcome,
        text,
        clock,
        shelves,
    } = run_as_asked(alloc, words, bundle, text, clock, shelves);
    let written = summary_in(alloc, count, outcome);
    match written {
        Ok(written) => ended(write(&written, output), text, clock, shelves),
        Err(WantOfMemory) => ended(Status::WantOfMemory, text, clock, shelves),
    }
}
