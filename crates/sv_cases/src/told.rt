ghost use Rattle.std.specs.Prelude.{◌≡◌, true};
ghost use Rattle.sv_events.specs.declared.work.Work.TheVariants.{Control, Reply};
ghost use Rattle.aux_parties.specs.Auxiliaries.{is_auxiliary};
ghost use Rattle.sv_rules.specs.Work.{work_of};

use apl_arrays::{Array, Name};
use sv_core::Core;
use sv_events::{Act, Entry, Work};

/// Whether an auxiliary is told of its work what the entries say: where this is a reply, the value that it used last, and
/// where it is a reply or a control, whose offer is coupled with its own.
pub fn is_told(core: &Core, party: u32) -> bool
    requires { is_auxiliary party ≡ true }
{
    match core.work_of(party) {
        Work::Reply(name) => is_told_to_reply(core, party, name),
        Work::Control(name) => is_told_to_control(core, party, name),
        Work::Idle | Work::Retract(_) | Work::Counter { .. } | Work::Use(_) => true,
    }
}

fn is_told_to_reply(core: &Core, party: u32, name: Name) -> bool
    requires auxiliary { is_auxiliary party ≡ true }
    requires work { work_of core.now.journal party ≡ Reply name }
{
    let entries = core.journal();
    last_used(entries, party, &name) == Some(core.request(party))
        && partner(entries, party, &name) == Some(core.customer(party))
}

fn is_told_to_control(core: &Core, party: u32, name: Name) -> bool
    requires auxiliary { is_auxiliary party ≡ true }
    requires work { work_of core.now.journal party ≡ Control name }
{
    partner(core.journal(), party, &name) == Some(core.customer(party))
}

// What a party's last use of a name got, if it used it and got a value.
fn last_used<'a>(entries: &'a [Entry], party: u32, name: &Name) -> Option<&'a Array> {
    let mut got = None;
    for entry in entries {
        if uses(entry, party, name) {
            got = entry.answer.value();
        }
    }
    got
}

fn uses(entry: &Entry, party: u32, name: &Name) -> bool {
    match &entry.act {
        Act::Use(local) => entry.party == party && local == name,
        _ => false,
    }
}

// The party of the offer that was coupled last with a party's last offer of a name.
fn partner(entries: &[Entry], party: u32, name: &Name) -> Option<u32> {
    match last_offered(entries, party, name) {
        None => None,
        Some(place) => mate(entries, place).and_then(|other| party_at(entries, other)),
    }
}

// The place of a party's last offer of a name.
fn last_offered(entries: &[Entry], party: u32, name: &Name) -> Option<u64> {
    let mut last = None;
    let mut place = 0u64;
    for entry in entries {
        place = place.saturating_add(1);
        if entry.party == party && offers(&entry.act, name) {
            last = Some(place);
        }
    }
    last
}

fn offers(act: &Act, name: &Name) -> bool {
    match act {
        Act::Offer { local, .. } => local == name,
        _ => false,
    }
}

// The place of the offer that was coupled last with the one at a place.
fn mate(entries: &[Entry], place: u64) -> Option<u64> {
    let mut mate = None;
    for entry in entries {
        for pair in entry.made.as_slice() {
            if pair.a == place {
                mate = Some(pair.b);
            } else if pair.b == place {
                mate = Some(pair.a);
            }
        }
    }
    mate
}

fn party_at(entries: &[Entry], place: u64) -> Option<u32> {
    match place.checked_sub(1) {
        None => None,
        Some(index) => entries.get(index as usize).map(|entry| entry.party),
    }
}
