ghost use Rattle.std.specs.Prelude.{◌≡◌, false, None, true, vec_len};
ghost use Rattle.apl_arrays.specs.Limits.{most_users};
ghost use Rattle.apl_session.specs.Ended.{IfWhole};
ghost use Rattle.aux_choice.specs.OneOf.{is_first};
ghost use Rattle.aplsv_words.specs.Meaning.{asked_by};
ghost use Rattle.bundle_devices.specs.Devices.{text_store_of};
ghost use Rattle.aplsv_top.specs.Headline.{NamedRun, OverFiles, TwentyRun};

use crate::choices::{Files, Twenty, files_in, store_of};
use crate::on_threads::behind_ten::over_twenty;
use crate::on_threads::server::Server;
use crate::ran::Ran;
use apl_arrays::WantOfMemory;
use apl_io::{Clock, Gate, MemoryText, Shelf, TextStore};
use apl_session::Ended;
use aplsv_words::Words;
use aux_choice::{Choice, Chosen, OneOf};
use auxiliaries::Replier;
use bundle_devices::memory_text;
use bundle_text::Bundle;
use std::alloc::Global;
use std::marker::Brand;
use std::sync::Wait;
use std::thread::Threads;

/// Runs a bundle over the files in a text store that was handed in, as component files where the words ask for them and else as
/// files of lines, and over all else that they ask for. It takes memory for the run.
pub(crate) fn over_text<
    R: Threads + Wait + Sync,
    G: Gate + Sync,
    T: TextStore + Send + Drop,
    C: Clock + Send + Drop,
    K: Shelf + Send + Drop,
>(
    alloc: Global,
    server: &Server<'_, R, G>,
    words: &Words,
    bundle: Bundle,
    text: T,
    clock: C,
    shelves: Vec<K>,
) -> Ran<T, C, K>
    requires shelves { vec_len shelves ≡ most_users }
    ensures run { IfWhole result.ended (λ transcripts journal. OverFiles T.told T.faults (asked_by words.now).components text result.text (λ Y forgets_twenty replies_twenty twenty twenty_then.
        TwentyRun false C.told C.faults forgets_twenty replies_twenty K.told K.faults (asked_by words.now).relay (asked_by words.now).clock (asked_by words.now).library
        bundle journal transcripts clock result.clock twenty twenty_then shelves.items result.shelves.items)) }
    ensures clock { (asked_by words.now).clock ≡ false → result.clock ≡ clock }
    ensures relayed { (asked_by words.now).relay ≡ true → result.clock ≡ clock }
    ensures library { (asked_by words.now).library ≡ None → result.shelves ≡ shelves }
{
    let files = files_in(alloc, words.components, text);
    let twenty: Twenty<T> = OneOf::First(files);
    let Ran {
        ended,
        text: twenty,
        clock,
        shelves,
    } = over_files::<R, G, Brand, T, C, K>(alloc, server, words, bundle, twenty, clock, shelves);
    match twenty {
        OneOf::First(files) => Ran {
            ended,
            text: store_of(files),
            clock,
            shelves,
        },
        OneOf::Second(_) => unreachable!(),
    }
}

/// Runs a bundle over its own files, and over all else that the words ask for; the text store that was handed in is left. It
/// takes memory for the files and the run.
pub(crate) fn over_bundle_text<
    R: Threads + Wait + Sync,
    G: Gate + Sync,
    T: TextStore + Send + Drop,
    C: Clock + Send + Drop,
    K: Shelf + Send + Drop,
>(
    alloc: Global,
    server: &Server<'_, R, G>,
    words: &Words,
    bundle: Bundle,
    text: T,
    clock: C,
    shelves: Vec<K>,
) -> Ran<T, C, K>
    requires shelves { vec_len shelves ≡ most_users }
    ensures run { IfWhole result.ended (λ transcripts journal. NamedRun false C.told C.faults T.told T.faults K.told K.faults None (asked_by words.now).components (asked_by words.now).relay (asked_by words.now).clock (asked_by words.now).library
        bundle journal transcripts clock result.clock text result.text
        shelves.items result.shelves.items) }
    ensures text { result.text ≡ text }
    ensures clock { (asked_by words.now).clock ≡ false → result.clock ≡ clock }
    ensures relayed { (asked_by words.now).relay ≡ true → result.clock ≡ clock }
    ensures library { (asked_by words.now).library ≡ None → result.shelves ≡ shelves }
{
    match memory_text(alloc, &bundle) {
        Ok(store) => over_own_text(alloc, server, words, bundle, store, text, clock, shelves),
        Err(WantOfMemory) => Ran {
            ended: Ended::WantOfMemory,
            text,
            clock,
            shelves,
        },
    }
}

// Runs it over these, which are its own.
fn over_own_text<
    R: Threads + Wait + Sync,
    G: Gate + Sync,
    T: TextStore + Send + Drop,
    C: Clock + Send + Drop,
    K: Shelf + Send + Drop,
>(
    alloc: Global,
    server: &Server<'_, R, G>,
    words: &Words,
    bundle: Bundle,
    store: MemoryText,
    text: T,
    clock: C,
    shelves: Vec<K>,
) -> Ran<T, C, K>
    requires shelves { vec_len shelves ≡ most_users }
    requires own { store ≡ text_store_of bundle }
    ensures run { IfWhole result.ended (λ transcripts journal. NamedRun false C.told C.faults T.told T.faults K.told K.faults None (asked_by words.now).components (asked_by words.now).relay (asked_by words.now).clock (asked_by words.now).library
        bundle journal transcripts clock result.clock text result.text
        shelves.items result.shelves.items) }
    ensures text { result.text ≡ text }
    ensures clock { (asked_by words.now).clock ≡ false → result.clock ≡ clock }
    ensures relayed { (asked_by words.now).relay ≡ true → result.clock ≡ clock }
    ensures library { (asked_by words.now).library ≡ None → result.shelves ≡ shelves }
{
    let files = files_in(alloc, words.components, store);
    let twenty: Twenty<T> = OneOf::Second(files);
    let Ran {
        ended,
        text: twenty,
        clock,
        shelves,
    } = over_files::<R, G, Brand, T, C, K>(alloc, server, words, bundle, twenty, clock, shelves);
    match twenty {
        OneOf::First(_) => unreachable!(),
        OneOf::Second(files) => {
            drop(files);
            Ran {
                ended,
                text,
                clock,
                shelves,
            }
        }
    }
}

// Runs it over these, which are those that a choice says, and stay those where memory runs out too.
fn over_files<
    R: Threads + Wait + Sync,
    G: Gate + Sync,
    P: Choice + Send,
    T: TextStore + Send + Drop,
    C: Clock + Send + Drop,
    K: Shelf + Send + Drop,
>(
    alloc: Global,
    server: &Server<'_, R, G>,
    words: &Words,
    bundle: Bundle,
    files: Twenty<T>,
    clock: C,
    shelves: Vec<K>,
) -> Ran<Twenty<T>, C, K>
    requires chosen { is_first files ≡ P.is_first }
    requires shelves { vec_len shelves ≡ most_users }
    ensures run { IfWhole result.ended (λ transcripts journal. TwentyRun false C.told C.faults ⟦<Twenty<T> as Replier>⟧.forgets ⟦<Twenty<T> as Replier>⟧.replies K.told K.faults (asked_by words.now).relay (asked_by words.now).clock (asked_by words.now).library
        bundle journal transcripts clock result.clock files result.text shelves.items result.shelves.items) }
    ensures stays { is_first result.text ≡ is_first files }
    ensures clock { (asked_by words.now).clock ≡ false → result.clock ≡ clock }
    ensures relayed { (asked_by words.now).relay ≡ true → result.clock ≡ clock }
    ensures library { (asked_by words.now).library ≡ None → result.shelves ≡ shelves }
{
    let chosen: Chosen<P, Files<T>, Files<MemoryText>> = Chosen::new(files);
    let Ran {
        ended,
        text: files,
        clock,
        shelves,
    } = over_twenty(alloc, server, words, bundle, chosen, clock, shelves);
    Ran {
        ended,
        text: files.into_one(),
        clock,
        shelves,
    }
}
