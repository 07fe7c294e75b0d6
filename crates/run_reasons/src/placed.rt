ghost use Rattle.std.specs.Prelude.{◌≡◌, ◌||◌, ◌∷◌, IfOk, length, min, option_map};
ghost use Rattle.sv_access.specs.Access.{is_set};
ghost use Rattle.sv_events.specs.Entry.{plain_entry};
ghost use Rattle.sv_rules.specs.Journal.{journal_of};
ghost use Rattle.sv_rules.specs.Entries.{Entries};
ghost use Rattle.sv_rules.specs.Story.{coupling_ends, handed_in, known};
ghost use Rattle.run_reasons.specs.Placed.{known_source, placed, placed_control, placed_giver, placed_opening, placed_story, source_of};
ghost use Rattle.run_reasons.specs.StoryFacts.{told, told_with_both};

use crate::story::{Source, StoryFacts, told_first, told_with};
use crate::walk::Walk;
use apl_arrays::WantOfMemory;
use std::alloc::Global;
use sv_access::{Control, Kind, Side};
use sv_events::Entry;
use sv_rules::{Coupling, Standing, control_on, kind_on, known_value};

/// A control, and the place of the entry that set it.
#[derive(Clone, Copy, Debug, PartialEq, Eq)]
pub struct PlacedControl {
    pub at: u64,
    pub control: Control,
}

// The entry at a place whose value the offer hands in, if it does.
fn handed_at(entry: &Entry, at: u64) -> Option<Source>
    ensures { result ≡ option_map source_of (placed at (handed_in entry.now.act)) }
{
    if entry.act.hands_in().is_some() {
        Some(Source { at, is_set: false })
    } else {
        None
    }
}

// Whether an access is a set.
fn is_set(kind: Kind) -> bool
    ensures { result ≡ is_set kind }
{
    match kind {
        Kind::Set => true,
        Kind::Use => false,
    }
}

/// The entry by which the party of an offer knows its value: its newest set or get there, or else its offer; or `None` where it
/// knows none.
pub(crate) fn known_at(entries: &[Entry], offer: &Standing) -> Option<Source>
    ensures { result ≡ known_source (journal_of entries.now) offer.now }
{
    let mut left = entries.len();
    while left > 0 {
        let entry = &entries[left - 1];
        if offer.place >= left as u64 {
            return handed_at(entry, left as u64);
        }
        if let Some(kind) = kind_on(offer, entry) {
            return Some(Source {
                at: left as u64,
                is_set: is_set(kind),
            });
        }
        left -= 1;
    }
    None
}

/// The last control that its party set on an offer, with its entry, if it set one.
pub(crate) fn control_at(entries: &[Entry], offer: &Standing) -> Option<PlacedControl>
    ensures { result ≡ placed_control (journal_of entries.now) offer.now }
{
    let mut left = entries.len();
    while left > 0 {
        if offer.place >= left as u64 {
            return None;
        }
        if let Some(control) = control_on(offer, &entries[left - 1]) {
            return Some(PlacedControl {
                at: left as u64,
                control,
            });
        }
        left -= 1;
    }
    None
}

// Whether an offer is made here, or its coupling ends.
fn either(is_made: bool, ends: bool) -> bool
    ensures { result ≡ (is_made || ends) }
{
    is_made || ends
}

// What is kept of the story of an offer up to an entry, by that before: it opens where the offer is made, or where its coupling
// ends.
fn opening_after(
    upto: &[Entry],
    entry: &Entry,
    offer: &Standing,
    side: Side,
    ends: bool,
    before: StoryFacts,
) -> StoryFacts
    ensures { (journal : Entries) → journal_of upto.now ≡ plain_entry entry.now ∷ journal → ends ≡ coupling_ends (plain_entry entry.now) journal offer.now.place
        → before ≡ told (placed_opening side journal offer.now) → result ≡ told (placed_opening side (journal_of upto.now) offer.now) }
{
    let at = upto.len() as u64;
    let opens = either(offer.place == at, ends);
    if opens {
        told_first(side, known_at(upto, offer))
    } else {
        told_with(before, side, at, kind_on(offer, entry))
    }
}

/// What is kept of the story of an offer since it last opened, with its party on a side. It takes memory for what stands and for
/// the pairs of the offer.
pub(crate) fn opening_told(
    alloc: Global,
    entries: &[Entry],
    offer: &Standing,
    side: Side,
) -> Result<StoryFacts, WantOfMemory>
    ensures { IfOk result (λ got. got ≡ told (placed_opening side (journal_of entries.now) offer.now)) }
{
    let mut walk = Walk::new(alloc);
    let mut story = told_first(side, None);
    for i in 0..entries.len() {
        let entry = &entries[i];
        let ends = walk.goes_on(alloc, offer.place, i as u64 + 1, entry)?;
        story = opening_after(&entries[..=i], entry, offer, side, ends, story);
    }
    Ok(story)
}

// What is kept of the giver's story: A's where A knows a value, else B's.
fn giver_told(
    alloc: Global,
    entries: &[Entry],
    coupling: &Coupling,
) -> Result<StoryFacts, WantOfMemory>
    ensures { IfOk result (λ got. got ≡ told (placed_giver (journal_of entries.now) coupling.now (known (journal_of entries.now) coupling.now.a))) }
{
    match known_value(entries, &coupling.a) {
        None => {
            let of_b = opening_told(alloc, entries, &coupling.b, Side::B)?;
            Ok(of_b)
        }
        Some(_) => {
            let of_a = opening_told(alloc, entries, &coupling.a, Side::A)?;
            Ok(of_a)
        }
    }
}

// How many of the entries come up to the one that made the coupling.
fn entries_before(entries: &[Entry], coupling: &Coupling) -> usize
    ensures { result ≡ min (length entries.now) coupling.now.at }
{
    if coupling.at < entries.len() as u64 {
        coupling.at as usize
    } else {
        entries.len()
    }
}

// What is kept of a coupling's story after an entry at a place, by that before.
fn told_after(before: StoryFacts, coupling: &Coupling, at: u64, entry: &Entry) -> StoryFacts
    ensures { result ≡ told_with_both before coupling.now at (plain_entry entry.now) }
{
    let of_b = told_with(before, Side::B, at, kind_on(&coupling.b, entry));
    told_with(of_b, Side::A, at, kind_on(&coupling.a, entry))
}

/// What is kept of the story of a coupling. It takes memory for what stands and for the pairs of the giver's offer.
pub(crate) fn story_told(
    alloc: Global,
    entries: &[Entry],
    coupling: &Coupling,
) -> Result<StoryFacts, WantOfMemory>
    ensures { IfOk result (λ got. got ≡ told (placed_story (journal_of entries.now) coupling.now)) }
{
    let start = entries_before(entries, coupling);
    let mut story = giver_told(alloc, &entries[..start], coupling)?;
    for i in start..entries.len() {
        story = told_after(story, coupling, i as u64 + 1, &entries[i]);
    }
    Ok(story)
}
