ghost use Rattle.std.specs.Prelude.{◌≡◌, ◌&&◌, ◌∷◌, false, not, min, length, IfOk};
ghost use Rattle.std.specs.Option.{option_copied, option_map_or};
ghost use Rattle.sv_access.specs.Access.{is_set};
ghost use Rattle.sv_access.specs.Story.{last_value, state_of_story};
ghost use Rattle.sv_access.specs.declared.access.Side.TheVariants.{A};
ghost use Rattle.sv_events.specs.Entry.{plain_entry};
ghost use Rattle.sv_plain.specs.Told.{state_with, state_with_both, value_with, value_with_both};
ghost use Rattle.sv_rules.specs.Coupling.{couplings_among, is_coupled};
ghost use Rattle.sv_rules.specs.Journal.{journal_of};
ghost use Rattle.sv_rules.specs.Story.{access_on, first_set, giver_story, known, opens_at, opening, story};

use crate::{couplings_of, standing_offers};
use apl_arrays::{Array, WantOfMemory};
use std::alloc::Global;
use sv_access::{AccessState, Kind, Side, after};
use sv_events::Entry;
use sv_rules::{
    Coupling, Made, Standing, is_coupled, keep_couplings, kind_on, known_value, value_on,
};

// By what stood after an entry, the coupling of the offer at a place ends there.
fn coupling_ends(mut coupled: Vec<Made>, after: &[Standing], place: u64) -> bool
    ensures { result ≡ (is_coupled coupled.items place && not (is_coupled (couplings_among after.now coupled.items) place)) }
{
    let was = is_coupled(&coupled, place);
    keep_couplings(&mut coupled, after);
    was && !is_coupled(&coupled, place)
}

// Whether an entry opens an offer, by the entries before it and with it.
fn opens_at(
    alloc: Global,
    before: &[Entry],
    upto: &[Entry],
    entry: &Entry,
    offer: &Standing,
) -> Result<bool, WantOfMemory>
    requires { journal_of upto.now ≡ plain_entry entry.now ∷ journal_of before.now }
    ensures { IfOk result (λ opens. opens ≡ opens_at (plain_entry entry.now) (journal_of before.now) offer.now) }
{
    let coupled = couplings_of(alloc, before)?;
    let after = standing_offers(alloc, upto)?;
    Ok(offer.place == before.len() as u64 + 1 || coupling_ends(coupled, &after, offer.place))
}

// The state where a story begins with a set of the value that is known, if one is.
fn first_state(side: Side, known: Option<&Array>) -> AccessState
    ensures { result ≡ state_of_story (first_set side (option_copied known.entry)) }
{
    match known {
        None => AccessState::Quiet,
        Some(_) => after(AccessState::Quiet, side, Kind::Set),
    }
}

// The state once a side made an access, if it made one.
fn state_with(state: AccessState, side: Side, access: Option<Kind>) -> AccessState
    ensures { result ≡ state_with state side access }
{
    match access {
        None => state,
        Some(kind) => after(state, side, kind),
    }
}

// The state of an offer's story after an entry, by that before.
fn opening_state_after(
    alloc: Global,
    before: &[Entry],
    upto: &[Entry],
    entry: &Entry,
    offer: &Standing,
    side: Side,
    state: AccessState,
) -> Result<AccessState, WantOfMemory>
    requires entry { journal_of upto.now ≡ plain_entry entry.now ∷ journal_of before.now }
    requires state { state ≡ state_of_story (opening side (journal_of before.now) offer.now) }
    ensures { IfOk result (λ got. got ≡ state_of_story (opening side (journal_of upto.now) offer.now)) }
{
    let opens = opens_at(alloc, before, upto, entry, offer)?;
    if opens {
        Ok(first_state(side, known_value(upto, offer)))
    } else {
        Ok(state_with(state, side, kind_on(offer, entry)))
    }
}

/// The state of the story of an offer since it last opened, with its party on a side. It takes memory for the offers and
/// the couplings of each entry in turn.
pub fn opening_state(
    alloc: Global,
    entries: &[Entry],
    offer: &Standing,
    side: Side,
) -> Result<AccessState, WantOfMemory>
    ensures { IfOk result (λ state. state ≡ state_of_story (opening side (journal_of entries.now) offer.now)) }
{
    let mut state = AccessState::Quiet;
    for i in 0..entries.len() {
        state = opening_state_after(
            alloc,
            &entries[..i],
            &entries[..=i],
            &entries[i],
            offer,
            side,
            state,
        )?;
    }
    Ok(state)
}

// Whether the access is a set.
fn is_set(access: Option<Kind>) -> bool
    ensures { result ≡ option_map_or is_set access false }
{
    matches!(access, Some(Kind::Set))
}

// The last value set, once an entry made an access on an offer, if it made one.
fn value_with<'a>(value: Option<&'a Array>, offer: &Standing, entry: &'a Entry) -> Option<&'a Array>
    ensures { option_copied result ≡ value_with (option_copied value.entry) (access_on offer.now (plain_entry entry.now)) }
{
    let sets = is_set(kind_on(offer, entry));
    if sets { value_on(offer, entry) } else { value }
}

// The last value set in an offer's story after an entry, by that before.
fn opening_value_after<'a>(
    alloc: Global,
    before: &'a [Entry],
    upto: &'a [Entry],
    entry: &'a Entry,
    offer: &Standing,
    value: Option<&'a Array>,
) -> Result<Option<&'a Array>, WantOfMemory>
    requires entry { journal_of upto.now ≡ plain_entry entry.now ∷ journal_of before.now }
    requires value { option_copied value ≡ last_value (opening A (journal_of before.now) offer.now) }
    ensures { IfOk result (λ got. option_copied got ≡ last_value (opening A (journal_of upto.now) offer.now)) }
{
    let opens = opens_at(alloc, before, upto, entry, offer)?;
    if opens {
        Ok(known_value(upto, offer))
    } else {
        Ok(value_with(value, offer, entry))
    }
}

// The last value set in the story of an offer since it last opened.
fn opening_value<'a>(
    alloc: Global,
    entries: &'a [Entry],
    offer: &Standing,
) -> Result<Option<&'a Array>, WantOfMemory>
    ensures { IfOk result (λ got. option_copied got ≡ last_value (opening A (journal_of entries.now) offer.now)) }
{
    let mut value = None;
    for i in 0..entries.len() {
        value = opening_value_after(
            alloc,
            &entries[..i],
            &entries[..=i],
            &entries[i],
            offer,
            value,
        )?;
    }
    Ok(value)
}

// The state of the giver's story: A's where A knows a value, else B's.
fn giver_state(
    alloc: Global,
    entries: &[Entry],
    coupling: &Coupling,
) -> Result<AccessState, WantOfMemory>
    ensures { IfOk result
        (λ state. state ≡ state_of_story (giver_story (journal_of entries.now) coupling.now (known (journal_of entries.now) coupling.now.a))) }
{
    match known_value(entries, &coupling.a) {
        None => {
            let of_b = opening_state(alloc, entries, &coupling.b, Side::B)?;
            Ok(of_b)
        }
        Some(_) => {
            let of_a = opening_state(alloc, entries, &coupling.a, Side::A)?;
            Ok(of_a)
        }
    }
}

// The last value set in the giver's story.
fn giver_value<'a>(
    alloc: Global,
    entries: &'a [Entry],
    coupling: &Coupling,
) -> Result<Option<&'a Array>, WantOfMemory>
    ensures { IfOk result
        (λ got. option_copied got ≡ last_value (giver_story (journal_of entries.now) coupling.now (known (journal_of entries.now) coupling.now.a))) }
{
    match known_value(entries, &coupling.a) {
        None => {
            let of_b = opening_value(alloc, entries, &coupling.b)?;
            Ok(of_b)
        }
        Some(_) => {
            let of_a = opening_value(alloc, entries, &coupling.a)?;
            Ok(of_a)
        }
    }
}

// How many of the entries come up to the one that made the coupling.
fn entries_before(entries: &[Entry], coupling: &Coupling) -> usize
    ensures { result ≡ min (length entries.now) coupling.now.at }
{
    if coupling.at < entries.len() as u64 {
        coupling.at as usize
    } else {
        entries.len()
    }
}

// The state of a coupling's story after an entry, by that before.
fn state_after(state: AccessState, coupling: &Coupling, entry: &Entry) -> AccessState
    ensures { result ≡ state_with_both state coupling.now (plain_entry entry.now) }
{
    let of_b = state_with(state, Side::B, kind_on(&coupling.b, entry));
    state_with(of_b, Side::A, kind_on(&coupling.a, entry))
}

// The last value set in a coupling's story after an entry, by that before.
fn value_after<'a>(
    value: Option<&'a Array>,
    coupling: &Coupling,
    entry: &'a Entry,
) -> Option<&'a Array>
    ensures { option_copied result ≡ value_with_both (option_copied value.entry) coupling.now (plain_entry entry.now) }
{
    let of_b = value_with(value, &coupling.b, entry);
    value_with(of_b, &coupling.a, entry)
}

/// The state of the story of a coupling. It takes memory for the offers and the couplings of each entry in turn.
pub fn story_state(
    alloc: Global,
    entries: &[Entry],
    coupling: &Coupling,
) -> Result<AccessState, WantOfMemory>
    ensures { IfOk result (λ state. state ≡ state_of_story (story (journal_of entries.now) coupling.now)) }
{
    let start = entries_before(entries, coupling);
    let mut state = giver_state(alloc, &entries[..start], coupling)?;
    for i in start..entries.len() {
        state = state_after(state, coupling, &entries[i]);
    }
    Ok(state)
}

/// The last value set in the story of a coupling, if there is one. It takes memory for the offers and the couplings of
/// each entry in turn.
pub fn story_value<'a>(
    alloc: Global,
    entries: &'a [Entry],
    coupling: &Coupling,
) -> Result<Option<&'a Array>, WantOfMemory>
    ensures { IfOk result (λ got. option_copied got ≡ last_value (story (journal_of entries.now) coupling.now)) }
{
    let start = entries_before(entries, coupling);
    let mut value = giver_value(alloc, &entries[..start], coupling)?;
    for i in start..entries.len() {
        value = value_after(value, coupling, &entries[i]);
    }
    Ok(value)
}
