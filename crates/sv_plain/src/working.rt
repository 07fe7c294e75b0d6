ghost use Rattle.std.specs.Prelude.{◌≡◌, not, false, true, find, unwrap_or, IfOk};
ghost use Rattle.std.specs.Option.{option_map_or};
ghost use Rattle.sv_access.specs.Access.{is_set, other_side};
ghost use Rattle.sv_events.specs.Entry.{plain_entry};
ghost use Rattle.sv_events.specs.declared.work.Work.TheVariants.{Idle};
ghost use Rattle.sv_plain.specs.Told.{is_unseen_by};
ghost use Rattle.sv_rules.specs.Coupling.{couplings, coupling_at, is_coupled};
ghost use Rattle.sv_rules.specs.Journal.{journal_of};
ghost use Rattle.sv_rules.specs.Standing.{standing};
ghost use Rattle.sv_rules.specs.Work.{first_work, gets_value, has_unseen, lacks_control, own_offers, owes_reply, to_counter, work_due, work_of};

use crate::asking::open_to;
use crate::stories::story_state;
use crate::{couplings_of, is_full, standing_offers};
use apl_arrays::WantOfMemory;
use aux_parties::most_counters;
use std::alloc::Global;
use sv_access::{AccessState, Kind, Side};
use sv_events::{Entry, Work};
use sv_rules::{
    Coupling, Made, Standing, control_on, coupling_at, is_coupled, kind_on, offer_count, side_at,
    tries,
};

// Whether its party set no control on the offer since the coupling was made.
fn lacks_control(entries: &[Entry], offer: &Standing, coupling: &Coupling) -> bool
    ensures { result ≡ lacks_control (journal_of entries.now) offer.now coupling.now }
{
    let mut left = entries.len();
    while coupling.at < left as u64 {
        if control_on(offer, &entries[left - 1]).is_some() {
            return false;
        }
        left -= 1;
    }
    true
}

// Whether the access is a use.
fn is_use(access: Option<Kind>) -> bool
    ensures { result ≡ option_map_or (λ kind. not (is_set kind)) access false }
{
    matches!(access, Some(Kind::Use))
}

// Whether the entry is a use that got a value.
fn gets_value(offer: &Standing, entry: &Entry) -> bool
    ensures { result ≡ gets_value offer.now (plain_entry entry.now) }
{
    is_use(kind_on(offer, entry))
}

// Whether the last set or use by its party since the coupling was made is a use that got a value.
fn owes_reply(entries: &[Entry], offer: &Standing, coupling: &Coupling) -> bool
    ensures { result ≡ owes_reply (journal_of entries.now) offer.now coupling.now }
{
    let mut left = entries.len();
    while coupling.at < left as u64 {
        let entry = &entries[left - 1];
        if tries(offer, entry) {
            return gets_value(offer, entry);
        }
        left -= 1;
    }
    false
}

// Whether a set of the partner of a side is unseen, by the state.
fn is_partners_unseen(state: AccessState, side: Side) -> bool
    ensures { result ≡ is_unseen_by state (other_side side) }
{
    match side {
        Side::A => matches!(state, AccessState::UnseenB),
        Side::B => matches!(state, AccessState::UnseenA),
    }
}

// Whether a set of the partner is unseen.
fn has_unseen(
    alloc: Global,
    entries: &[Entry],
    offer: &Standing,
    coupling: &Coupling,
) -> Result<bool, WantOfMemory>
    ensures { IfOk result (λ unseen. unseen ≡ has_unseen (journal_of entries.now) offer.now coupling.now) }
{
    let state = story_state(alloc, entries, coupling)?;
    let side = side_at(coupling, offer.place);
    Ok(is_partners_unseen(state, side))
}

// The offers of a party that stand, by place.
fn own_offers(
    alloc: Global,
    entries: &[Entry],
    offers: &[Standing],
    party: u32,
) -> Result<Vec<Standing>, WantOfMemory>
    requires { offers.now ≡ standing (journal_of entries.now) }
    ensures { IfOk result (λ own. own.items ≡ own_offers (journal_of entries.now) party) }
{
    let mut own = Vec::from_slice(alloc, offers)?;
    own.retain(|offer| offer.party == party);
    Ok(own)
}

// The first open offer.
fn first_open(coupled: &[Made], own: &[Standing]) -> Option<Standing>
    ensures { result ≡ find (λ offer. not (is_coupled coupled.now offer.place)) own.now }
{
    own.iter()
        .find(|offer| !is_coupled(coupled, offer.place))
        .copied()
}

// Whether the offer is coupled and lacks a control.
fn lacks_at(entries: &[Entry], offers: &[Standing], coupled: &[Made], offer: &Standing) -> bool
    ensures { result ≡ option_map_or (lacks_control (journal_of entries.now) offer.now) (coupling_at offers.now coupled.now offer.now.place) false }
{
    match coupling_at(offers, coupled, offer.place) {
        None => false,
        Some(coupling) => lacks_control(entries, offer, &coupling),
    }
}

// Whether the offer is coupled and owes a reply.
fn owes_at(entries: &[Entry], offers: &[Standing], coupled: &[Made], offer: &Standing) -> bool
    ensures { result ≡ option_map_or (owes_reply (journal_of entries.now) offer.now) (coupling_at offers.now coupled.now offer.now.place) false }
{
    match coupling_at(offers, coupled, offer.place) {
        None => false,
        Some(coupling) => owes_reply(entries, offer, &coupling),
    }
}

// Whether the offer is coupled and a set of the partner is unseen.
fn unseen_at(
    alloc: Global,
    entries: &[Entry],
    offers: &[Standing],
    coupled: &[Made],
    offer: &Standing,
) -> Result<bool, WantOfMemory>
    ensures { IfOk result
        (λ unseen. unseen ≡ option_map_or (has_unseen (journal_of entries.now) offer.now) (coupling_at offers.now coupled.now offer.now.place) false) }
{
    match coupling_at(offers, coupled, offer.place) {
        None => Ok(false),
        Some(coupling) => has_unseen(alloc, entries, offer, &coupling),
    }
}

// The first coupled offer without a control.
fn first_lacking(
    entries: &[Entry],
    offers: &[Standing],
    coupled: &[Made],
    own: &[Standing],
) -> Option<Standing>
    ensures { result ≡ find (λ offer. option_map_or (lacks_control (journal_of entries.now) offer) (coupling_at offers.now coupled.now offer.place) false) own.now }
{
    own.iter()
        .find(|offer| lacks_at(entries, offers, coupled, offer))
        .copied()
}

// The first coupled offer on which a reply is owed.
fn first_owing(
    entries: &[Entry],
    offers: &[Standing],
    coupled: &[Made],
    own: &[Standing],
) -> Option<Standing>
    ensures { result ≡ find (λ offer. option_map_or (owes_reply (journal_of entries.now) offer) (coupling_at offers.now coupled.now offer.place) false) own.now }
{
    own.iter()
        .find(|offer| owes_at(entries, offers, coupled, offer))
        .copied()
}

// The first coupled offer on which a set of the partner is unseen.
fn first_unseen(
    alloc: Global,
    entries: &[Entry],
    offers: &[Standing],
    coupled: &[Made],
    own: &[Standing],
) -> Result<Option<Standing>, WantOfMemory>
    ensures { IfOk result
        (λ first. first ≡ find (λ offer. option_map_or (has_unseen (journal_of entries.now) offer) (coupling_at offers.now coupled.now offer.place) false) own.now) }
{
    for offer in own {
        if unseen_at(alloc, entries, offers, coupled, offer)? {
            return Ok(Some(*offer));
        }
    }
    Ok(None)
}

// The first offer.
fn first_of(offers: &[Standing]) -> Option<Standing>
    ensures { result ≡ find (λ offer. true) offers.now }
{
    offers.first().copied()
}

// The open offer of the lowest place that is made to the auxiliary, where it may have one offer more.
fn to_counter(
    alloc: Global,
    entries: &[Entry],
    offers: &[Standing],
    coupled: &[Made],
    party: u32,
) -> Result<Option<Standing>, WantOfMemory>
    requires offers { offers.now ≡ standing (journal_of entries.now) }
    requires coupled { coupled.now ≡ couplings (journal_of entries.now) }
    ensures { IfOk result (λ first. first ≡ to_counter (journal_of entries.now) party) }
{
    let opened = open_to(alloc, entries, offers, coupled, party)?;
    if offer_count(offers, party) < most_counters(party) {
        Ok(first_of(&opened))
    } else {
        Ok(None)
    }
}

// The work with an offer that was found, for the first kind of which one was.
fn first_work(
    opened: Option<Standing>,
    lacking: Option<Standing>,
    owing: Option<Standing>,
    waiting: Option<Standing>,
    unseen: Option<Standing>,
) -> Work
    ensures { result ≡ unwrap_or (first_work opened lacking owing waiting unseen) Idle }
{
    if let Some(offer) = opened {
        Work::Retract(offer.local)
    } else if let Some(offer) = lacking {
        Work::Control(offer.local)
    } else if let Some(offer) = owing {
        Work::Reply(offer.local)
    } else if let Some(offer) = waiting {
        Work::Counter {
            to: offer.party,
            surrogate: offer.surrogate,
        }
    } else if let Some(offer) = unseen {
        Work::Use(offer.local)
    } else {
        Work::Idle
    }
}

// The work of an auxiliary, by the offers, the couplings and its own offers.
fn work_among(
    alloc: Global,
    entries: &[Entry],
    offers: &[Standing],
    coupled: &[Made],
    own: &[Standing],
    party: u32,
) -> Result<Work, WantOfMemory>
    requires offers { offers.now ≡ standing (journal_of entries.now) }
    requires coupled { coupled.now ≡ couplings (journal_of entries.now) }
    requires own { own.now ≡ own_offers (journal_of entries.now) party }
    ensures { IfOk result (λ work. work ≡ unwrap_or (work_due (journal_of entries.now) party) Idle) }
{
    let opened = first_open(coupled, own);
    let lacking = first_lacking(entries, offers, coupled, own);
    let owing = first_owing(entries, offers, coupled, own);
    let waiting = to_counter(alloc, entries, offers, coupled, party)?;
    let unseen = first_unseen(alloc, entries, offers, coupled, own)?;
    Ok(first_work(opened, lacking, owing, waiting, unseen))
}

// The work of an auxiliary after entries that leave room for it.
fn work_due(alloc: Global, entries: &[Entry], party: u32) -> Result<Work, WantOfMemory>
    ensures { IfOk result (λ work. work ≡ unwrap_or (work_due (journal_of entries.now) party) Idle) }
{
    let offers = standing_offers(alloc, entries)?;
    let coupled = couplings_of(alloc, entries)?;
    let own = own_offers(alloc, entries, &offers, party)?;
    work_among(alloc, entries, &offers, &coupled, &own, party)
}

/// The work of an auxiliary: none where the entries leave no room. It takes memory for the offers and the couplings of each
/// entry in turn.
pub fn work_of(alloc: Global, entries: &[Entry], party: u32) -> Result<Work, WantOfMemory>
    ensures { IfOk result (λ work. work ≡ work_of (journal_of entries.now) party) }
{
    if is_full(entries) {
        Ok(Work::Idle)
    } else {
        work_due(alloc, entries, party)
    }
}
