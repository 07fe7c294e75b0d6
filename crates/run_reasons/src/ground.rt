ghost use Rattle.std.specs.Prelude.{◌≡◌, IfOk, None, Some};
ghost use Rattle.sv_rules.specs.Journal.{journal_of};
ghost use Rattle.sv_rules.specs.Refused.{hold_under};
ghost use Rattle.run_reasons.specs.Ground.{Ground, control_in, ground_of, sharing_in};
ghost use Rattle.run_reasons.specs.Facts.{facts_of};
ghost use Rattle.run_reasons.specs.Why.{ground_hold};

use crate::placed::{PlacedControl, control_at, opening_told, story_told};
use crate::story::StoryFacts;
use apl_arrays::WantOfMemory;
use std::alloc::Global;
use sv_access::{Control, Kind, NO_CONTROL, Side};
use sv_events::{Accessing, Entry, Hold};
use sv_rules::{Coupling, Standing, hold_by_state, side_at};

/// What decides of an access: the offer, its coupling, the party's side, the controls of sides A and B, and what is kept of the
/// story.
#[derive(Clone, Copy, Debug)]
pub struct GroundFacts {
    pub offer: Standing,
    pub coupling: Option<Coupling>,
    pub side: Side,
    pub a: Option<PlacedControl>,
    pub b: Option<PlacedControl>,
    pub told: StoryFacts,
}

// The ground of an open offer.
fn open_ground(
    alloc: Global,
    entries: &[Entry],
    offer: &Standing,
) -> Result<GroundFacts, WantOfMemory>
    ensures { IfOk result (λ facts. facts ≡ facts_of (ground_of (journal_of entries.now) offer.now None)) }
{
    let told = opening_told(alloc, entries, offer, Side::A)?;
    Ok(GroundFacts {
        offer: *offer,
        coupling: None,
        side: Side::A,
        a: control_at(entries, offer),
        b: None,
        told,
    })
}

// The ground of a coupled offer.
fn coupled_ground(
    alloc: Global,
    entries: &[Entry],
    offer: &Standing,
    coupling: Coupling,
) -> Result<GroundFacts, WantOfMemory>
    ensures { IfOk result (λ facts. facts ≡ facts_of (ground_of (journal_of entries.now) offer.now (Some coupling))) }
{
    let told = story_told(alloc, entries, &coupling)?;
    Ok(GroundFacts {
        offer: *offer,
        coupling: Some(coupling),
        side: side_at(&coupling, offer.place),
        a: control_at(entries, &coupling.a),
        b: control_at(entries, &coupling.b),
        told,
    })
}

/// The ground of an offer with its coupling. It takes memory for what stands at each entry in turn.
pub(crate) fn ground_of(
    alloc: Global,
    entries: &[Entry],
    offer: &Standing,
    coupling: Option<Coupling>,
) -> Result<GroundFacts, WantOfMemory>
    ensures { IfOk result (λ facts. facts ≡ facts_of (ground_of (journal_of entries.now) offer.now coupling)) }
{
    match coupling {
        None => open_ground(alloc, entries, offer),
        Some(coupling) => coupled_ground(alloc, entries, offer, coupling),
    }
}

// A control, or none at all.
fn control_in(set: Option<PlacedControl>) -> Control
    ensures { result ≡ control_in set }
{
    match set {
        None => NO_CONTROL,
        Some(set) => set.control,
    }
}

// What refuses an access on a ground, if anything does.
fn hold_on(facts: &GroundFacts, kind: Kind) -> Option<Hold>
    ensures { (basis : Ground) → facts.now ≡ facts_of basis → result ≡ hold_under (sharing_in basis) kind }
{
    let of_a = control_in(facts.a);
    let of_b = control_in(facts.b);
    hold_by_state(of_a, of_b, facts.told.state, facts.side, kind)
}

/// What refuses the access of an act on a ground, if it makes one and anything does.
pub(crate) fn ground_hold(facts: &GroundFacts, access: Option<Accessing>) -> Option<Hold>
    ensures { (basis : Ground) → facts.now ≡ facts_of basis → result ≡ ground_hold basis access }
{
    match access {
        None => None,
        Some(access) => hold_on(facts, access.kind),
    }
}
