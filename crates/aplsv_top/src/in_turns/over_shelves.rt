ghost use Rattle.std.specs.Prelude.{◌≡◌, None, Some, true, vec_len};
ghost use Rattle.apl_arrays.specs.Limits.{most_users};
ghost use Rattle.apl_session.specs.Ended.{IfWhole};
ghost use Rattle.aplsv_words.specs.Meaning.{asked_by};
ghost use Rattle.aplsv_top.specs.Headline.{ShelvedRun};

use crate::shelf_places::place_shelves;
use apl_arrays::WantOfMemory;
use apl_io::Shelf;
use apl_session::{Ended, RunOf};
use aplsv_replay::replay_with;
use aplsv_words::Words;
use auxiliaries::Replier;
use bundle_devices::memory_shelves;
use bundle_text::Bundle;
use std::alloc::Global;

/// Runs a bundle over what answers behind 10 and 20, and the shelves that the words ask for. It takes memory for the run.
pub(crate) fn over_both<X: Replier, Y: Replier, K: Shelf>(
    alloc: Global,
    words: &Words,
    bundle: Bundle,
    ten: X,
    twenty: Y,
    shelves: Vec<K>,
) -> RunOf<X, Y, K>
    requires shelves { vec_len shelves ≡ most_users }
    ensures run { IfWhole result.ended (λ transcripts journal. ShelvedRun true X.forgets X.replies Y.forgets Y.replies K.told K.faults (asked_by words.now).library
        bundle journal transcripts ten result.ten twenty result.twenty
        shelves.items result.shelves.items) }
    ensures library { (asked_by words.now).library ≡ None → result.shelves ≡ shelves }
{
    match words.library {
        Some(place) => over_placed_shelves(alloc, place, bundle, ten, twenty, shelves),
        None => over_empty_shelves(alloc, bundle, ten, twenty, shelves),
    }
}

// Runs it over the shelves that were handed in; each user's is told its place.
fn over_placed_shelves<X: Replier, Y: Replier, K: Shelf>(
    alloc: Global,
    place: &str,
    bundle: Bundle,
    ten: X,
    twenty: Y,
    shelves: Vec<K>,
) -> RunOf<X, Y, K>
    requires shelves { vec_len shelves ≡ most_users }
    ensures run { IfWhole result.ended (λ transcripts journal. ShelvedRun true X.forgets X.replies Y.forgets Y.replies K.told K.faults (Some place.now)
        bundle journal transcripts ten result.ten twenty result.twenty
        shelves.items result.shelves.items) }
{
    let mut shelves = shelves;
    match place_shelves(&mut shelves, bundle.users().len(), place) {
        Ok(()) => replay_with(alloc, bundle, ten, twenty, shelves),
        Err(WantOfMemory) => RunOf {
            ended: Ended::WantOfMemory,
            ten,
            twenty,
            shelves,
        },
    }
}

// Runs it over a new shelf for each user.
fn over_empty_shelves<X: Replier, Y: Replier, K: Shelf>(
    alloc: Global,
    bundle: Bundle,
    ten: X,
    twenty: Y,
    shelves: Vec<K>,
) -> RunOf<X, Y, K>
    ensures run { IfWhole result.ended (λ transcripts journal. ShelvedRun true X.forgets X.replies Y.forgets Y.replies K.told K.faults None
        bundle journal transcripts ten result.ten twenty result.twenty
        shelves.items result.shelves.items) }
    ensures library { result.shelves ≡ shelves }
{
    let made = match memory_shelves(alloc, &bundle) {
        Ok(made) => made,
        Err(WantOfMemory) => {
            return RunOf {
                ended: Ended::WantOfMemory,
                ten,
                twenty,
                shelves,
            };
        }
    };
    let RunOf {
        ended,
        ten,
        twenty,
        shelves: _made,
    } = replay_with(alloc, bundle, ten, twenty, made);
    RunOf {
        ended,
        ten,
        twenty,
        shelves,
    }
}
