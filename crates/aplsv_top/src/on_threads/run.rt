ghost use Rattle.std.specs.Prelude.{◌≡◌, false, None, Some, true, vec_len};
ghost use Rattle.apl_arrays.specs.Limits.{most_users};
ghost use Rattle.apl_session.specs.Ended.{IfWhole};
ghost use Rattle.aplsv_words.specs.Meaning.{asked_by};
ghost use Rattle.aplsv_top.specs.Headline.{NamedRun};

use crate::on_threads::behind_twenty::{over_bundle_text, over_text};
use crate::on_threads::server::Server;
use crate::ran::Ran;
use apl_arrays::WantOfMemory;
use apl_io::{Clock, Gate, Shelf, TextStore};
use apl_session::Ended;
use aplsv_words::Words;
use bundle_text::Bundle;
use std::alloc::Global;
use std::sync::Wait;
use std::thread::Threads;

/// Runs a bundle over the devices that the words name; in the place of each other one is a new one in memory: the bundle's
/// files, its readings, and an empty shelf for each user. Behind 20 stand component files in the text store, where words ask for
/// them, and behind 10 a relay in the place of a clock. What no word names is not called, and no clock is where there is a relay.
/// It takes memory for the run.
pub(crate) fn run_as_asked<
    R: Threads + Wait + Sync,
    G: Gate + Sync,
    T: TextStore + Send + Drop,
    C: Clock + Send + Drop,
    K: Shelf + Send + Drop,
>(
    alloc: Global,
    server: &Server<'_, R, G>,
    words: &Words,
    bundle: Bundle,
    text: T,
    clock: C,
    shelves: Vec<K>,
) -> Ran<T, C, K>
    requires shelves { vec_len shelves ≡ most_users }
    ensures run { IfWhole result.ended (λ transcripts journal. NamedRun false C.told C.faults T.told T.faults K.told K.faults (asked_by words.now).text (asked_by words.now).components (asked_by words.now).relay (asked_by words.now).clock (asked_by words.now).library
        bundle journal transcripts clock result.clock text result.text
        shelves.items result.shelves.items) }
    ensures text { (asked_by words.now).text ≡ None → result.text ≡ text }
    ensures clock { (asked_by words.now).clock ≡ false → result.clock ≡ clock }
    ensures relayed { (asked_by words.now).relay ≡ true → result.clock ≡ clock }
    ensures library { (asked_by words.now).library ≡ None → result.shelves ≡ shelves }
{
    match words.text {
        Some(place) => over_placed_text(alloc, server, place, words, bundle, text, clock, shelves),
        None => over_bundle_text(alloc, server, words, bundle, text, clock, shelves),
    }
}

// Runs it over the text store that was handed in, which is told its place.
fn over_placed_text<
    R: Threads + Wait + Sync,
    G: Gate + Sync,
    T: TextStore + Send + Drop,
    C: Clock + Send + Drop,
    K: Shelf + Send + Drop,
>(
    alloc: Global,
    server: &Server<'_, R, G>,
    place: &str,
    words: &Words,
    bundle: Bundle,
    text: T,
    clock: C,
    shelves: Vec<K>,
) -> Ran<T, C, K>
    requires shelves { vec_len shelves ≡ most_users }
    ensures run { IfWhole result.ended (λ transcripts journal. NamedRun false C.told C.faults T.told T.faults K.told K.faults (Some place.now) (asked_by words.now).components (asked_by words.now).relay (asked_by words.now).clock (asked_by words.now).library
        bundle journal transcripts clock result.clock text result.text
        shelves.items result.shelves.items) }
    ensures clock { (asked_by words.now).clock ≡ false → result.clock ≡ clock }
    ensures relayed { (asked_by words.now).relay ≡ true → result.clock ≡ clock }
    ensures library { (asked_by words.now).library ≡ None → result.shelves ≡ shelves }
{
    let mut text = text;
    match text.set_place(place) {
        Ok(()) => over_text(alloc, server, words, bundle, text, clock, shelves),
        Err(WantOfMemory) => Ran {
            ended: Ended::WantOfMemory,
            text,
            clock,
            shelves,
        },
    }
}
