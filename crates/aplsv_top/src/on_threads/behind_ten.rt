ghost use Rattle.std.specs.Prelude.{◌≡◌, false, None, true, vec_len};
ghost use Rattle.apl_arrays.specs.Limits.{most_users};
ghost use Rattle.apl_session.specs.Ended.{IfWhole};
ghost use Rattle.aux_choice.specs.OneOf.{is_first};
ghost use Rattle.aplsv_words.specs.Meaning.{asked_by};
ghost use Rattle.bundle_devices.specs.Devices.{clock_of};
ghost use Rattle.aplsv_top.specs.Headline.{ShelvedRun, TwentyRun};

use crate::choices::{OwnTen, Ten};
use crate::on_threads::over_shelves::over_both;
use crate::on_threads::server::Server;
use crate::ran::Ran;
use apl_arrays::WantOfMemory;
use apl_io::{Clock, Gate, MemoryClock, Shelf};
use apl_session::{Ended, RunOf};
use aplsv_words::Words;
use aux_choice::{Choice, Chosen, OneOf};
use aux_relay::Relay;
use auxiliaries::{ClockAux, Replier};
use bundle_devices::memory_clock;
use bundle_text::Bundle;
use std::alloc::Global;
use std::marker::Brand;
use std::sync::Wait;
use std::thread::Threads;

/// Runs a bundle over what answers behind 20, which comes back in the place of a text store, and the relay or the clock and the
/// shelves that the words ask for. It takes memory for the run.
pub(crate) fn over_twenty<
    R: Threads + Wait + Sync,
    G: Gate + Sync,
    Y: Replier + Send + Drop,
    C: Clock + Send + Drop,
    K: Shelf + Send + Drop,
>(
    alloc: Global,
    server: &Server<'_, R, G>,
    words: &Words,
    bundle: Bundle,
    twenty: Y,
    clock: C,
    shelves: Vec<K>,
) -> Ran<Y, C, K>
    requires shelves { vec_len shelves ≡ most_users }
    ensures run { IfWhole result.ended (λ transcripts journal. TwentyRun false C.told C.faults Y.forgets Y.replies K.told K.faults (asked_by words.now).relay (asked_by words.now).clock (asked_by words.now).library
        bundle journal transcripts clock result.clock twenty result.text
        shelves.items result.shelves.items) }
    ensures clock { (asked_by words.now).clock ≡ false → result.clock ≡ clock }
    ensures relayed { (asked_by words.now).relay ≡ true → result.clock ≡ clock }
    ensures library { (asked_by words.now).library ≡ None → result.shelves ≡ shelves }
{
    if words.relay {
        over_relay(alloc, server, words, bundle, twenty, clock, shelves)
    } else if words.clock {
        over_clock(alloc, server, words, bundle, twenty, clock, shelves)
    } else {
        over_readings(alloc, server, words, bundle, twenty, clock, shelves)
    }
}

// Runs it over a relay that holds nothing yet, and no clock.
fn over_relay<
    R: Threads + Wait + Sync,
    G: Gate + Sync,
    Y: Replier + Send + Drop,
    C: Clock + Send + Drop,
    K: Shelf + Send + Drop,
>(
    alloc: Global,
    server: &Server<'_, R, G>,
    words: &Words,
    bundle: Bundle,
    twenty: Y,
    clock: C,
    shelves: Vec<K>,
) -> Ran<Y, C, K>
    requires shelves { vec_len shelves ≡ most_users }
    ensures run { IfWhole result.ended (λ transcripts journal. TwentyRun false C.told C.faults Y.forgets Y.replies K.told K.faults true (asked_by words.now).clock (asked_by words.now).library
        bundle journal transcripts clock result.clock twenty result.text
        shelves.items result.shelves.items) }
    ensures clock { result.clock ≡ clock }
    ensures library { (asked_by words.now).library ≡ None → result.shelves ≡ shelves }
{
    let own: OwnTen = OneOf::First(Relay::new(alloc));
    let ten: Ten<C> = OneOf::Second(own);
    let RunOf {
        ended,
        ten,
        twenty,
        shelves,
    } = over_ten::<R, G, Brand, C, Y, K>(alloc, server, words, bundle, ten, twenty, shelves);
    match ten {
        OneOf::First(_) => unreachable!(),
        OneOf::Second(relay) => {
            drop(relay);
            Ran {
                ended,
                text: twenty,
                clock,
                shelves,
            }
        }
    }
}

// Runs it over the clock that was handed in.
fn over_clock<
    R: Threads + Wait + Sync,
    G: Gate + Sync,
    Y: Replier + Send + Drop,
    C: Clock + Send + Drop,
    K: Shelf + Send + Drop,
>(
    alloc: Global,
    server: &Server<'_, R, G>,
    words: &Words,
    bundle: Bundle,
    twenty: Y,
    clock: C,
    shelves: Vec<K>,
) -> Ran<Y, C, K>
    requires shelves { vec_len shelves ≡ most_users }
    ensures run { IfWhole result.ended (λ transcripts journal. TwentyRun false C.told C.faults Y.forgets Y.replies K.told K.faults false true (asked_by words.now).library
        bundle journal transcripts clock result.clock twenty result.text
        shelves.items result.shelves.items) }
    ensures library { (asked_by words.now).library ≡ None → result.shelves ≡ shelves }
{
    let ten: Ten<C> = OneOf::First(ClockAux::new(clock));
    let RunOf {
        ended,
        ten,
        twenty,
        shelves,
    } = over_ten::<R, G, Brand, C, Y, K>(alloc, server, words, bundle, ten, twenty, shelves);
    match ten {
        OneOf::First(handed) => Ran {
            ended,
            text: twenty,
            clock: handed.into_clock(),
            shelves,
        },
        OneOf::Second(_) => unreachable!(),
    }
}

// Runs it over its own readings; the clock that was handed in is left.
fn over_readings<
    R: Threads + Wait + Sync,
    G: Gate + Sync,
    Y: Replier + Send + Drop,
    C: Clock + Send + Drop,
    K: Shelf + Send + Drop,
>(
    alloc: Global,
    server: &Server<'_, R, G>,
    words: &Words,
    bundle: Bundle,
    twenty: Y,
    clock: C,
    shelves: Vec<K>,
) -> Ran<Y, C, K>
    requires shelves { vec_len shelves ≡ most_users }
    ensures run { IfWhole result.ended (λ transcripts journal. TwentyRun false C.told C.faults Y.forgets Y.replies K.told K.faults false false (asked_by words.now).library
        bundle journal transcripts clock result.clock twenty result.text
        shelves.items result.shelves.items) }
    ensures clock { result.clock ≡ clock }
    ensures library { (asked_by words.now).library ≡ None → result.shelves ≡ shelves }
{
    match memory_clock(alloc, &bundle) {
        Ok(readings) => over_own_clock(
            alloc, server, words, bundle, readings, twenty, clock, shelves,
        ),
        Err(WantOfMemory) => Ran {
            ended: Ended::WantOfMemory,
            text: twenty,
            clock,
            shelves,
        },
    }
}

// Runs it over these readings, which are its own.
fn over_own_clock<
    R: Threads + Wait + Sync,
    G: Gate + Sync,
    Y: Replier + Send + Drop,
    C: Clock + Send + Drop,
    K: Shelf + Send + Drop,
>(
    alloc: Global,
    server: &Server<'_, R, G>,
    words: &Words,
    bundle: Bundle,
    readings: MemoryClock,
    twenty: Y,
    clock: C,
    shelves: Vec<K>,
) -> Ran<Y, C, K>
    requires shelves { vec_len shelves ≡ most_users }
    requires own { readings ≡ clock_of bundle }
    ensures run { IfWhole result.ended (λ transcripts journal. TwentyRun false C.told C.faults Y.forgets Y.replies K.told K.faults false false (asked_by words.now).library
        bundle journal transcripts clock result.clock twenty result.text
        shelves.items result.shelves.items) }
    ensures clock { result.clock ≡ clock }
    ensures library { (asked_by words.now).library ≡ None → result.shelves ≡ shelves }
{
    let own: OwnTen = OneOf::Second(ClockAux::new(readings));
    let ten: Ten<C> = OneOf::Second(own);
    let RunOf {
        ended,
        ten,
        twenty,
        shelves,
    } = over_ten::<R, G, Brand, C, Y, K>(alloc, server, words, bundle, ten, twenty, shelves);
    match ten {
        OneOf::First(_) => unreachable!(),
        OneOf::Second(readings) => {
            drop(readings);
            Ran {
                ended,
                text: twenty,
                clock,
                shelves,
            }
        }
    }
}

// Runs it over this, which is the one that a choice says, and stays that one where memory runs out too.
fn over_ten<
    R: Threads + Wait + Sync,
    G: Gate + Sync,
    P: Choice + Send,
    C: Clock + Send + Drop,
    Y: Replier + Send + Drop,
    K: Shelf + Send + Drop,
>(
    alloc: Global,
    server: &Server<'_, R, G>,
    words: &Words,
    bundle: Bundle,
    ten: Ten<C>,
    twenty: Y,
    shelves: Vec<K>,
) -> RunOf<Ten<C>, Y, K>
    requires chosen { is_first ten ≡ P.is_first }
    requires shelves { vec_len shelves ≡ most_users }
    ensures run { IfWhole result.ended (λ transcripts journal. ShelvedRun false ⟦<Ten<C> as Replier>⟧.forgets ⟦<Ten<C> as Replier>⟧.replies Y.forgets Y.replies K.told K.faults (asked_by words.now).library
        bundle journal transcripts ten result.ten twenty result.twenty
        shelves.items result.shelves.items) }
    ensures stays { is_first result.ten ≡ is_first ten }
    ensures library { (asked_by words.now).library ≡ None → result.shelves ≡ shelves }
{
    let chosen: Chosen<P, ClockAux<C>, OwnTen> = Chosen::new(ten);
    let RunOf {
        ended,
        ten,
        twenty,
        shelves,
    } = over_both(alloc, server, words, bundle, chosen, twenty, shelves);
    RunOf {
        ended,
        ten: ten.into_one(),
        twenty,
        shelves,
    }
}
