ghost use Rattle.std.specs.Prelude.{◌≡◌, ◌≤◌, IfOk, IfSome, MatchOption, OnOk, insert, length, map, count_by, nat_lt};
ghost use Rattle.sv_events.specs.Entry.{plain_entry};
ghost use Rattle.sv_rules.specs.Questions.{with_number};
ghost use Rattle.run_picture.specs.Lane.{has_lane, lanes_of, middle_of};

use apl_arrays::{List, PartyList, WantOfMemory};
use std::alloc::Global;
use sv_events::Entry;

/// The most lanes, one for each entry of a picture.
pub(crate) const MOST_LANES: usize = 2000;

// Where a new party has its place among ascending ones; none where it stands there already.
fn place_for(lanes: &[u32], new: u32) -> Option<usize>
    ensures within { IfSome result (λ at. at ≤ length lanes.now) }
    ensures found { MatchOption result (lanes.now ≡ with_number new lanes.now) (λ at. insert lanes.now at new ≡ with_number new lanes.now) }
{
    for at in 0..lanes.len() {
        if new < lanes[at] {
            return Some(at);
        }
        if new == lanes[at] {
            return None;
        }
    }
    Some(lanes.len())
}

// Puts a party among ascending ones, each once.
fn put_lane(lanes: &mut PartyList, new: u32) -> Result<(), WantOfMemory>
    ensures { OnOk result (lanes.new.items ≡ with_number new lanes.old.items) }
{
    match place_for(lanes.as_slice(), new) {
        Some(at) => lanes.insert(at, new),
        None => Ok(()),
    }
}

/// The parties of entries, ascending, each once. It takes memory for them.
pub(crate) fn lanes_of(alloc: Global, entries: &[Entry]) -> Result<PartyList, WantOfMemory>
    ensures lanes { IfOk result (λ lanes. lanes.items ≡ lanes_of (map plain_entry entries.now)) }
    ensures few { IfOk result (λ lanes. length lanes.items ≤ length entries.now) }
{
    let mut lanes = List::new(alloc);
    let mut left = entries.len();
    while left > 0 {
        left -= 1;
        put_lane(&mut lanes, entries[left].party)?;
    }
    Ok(lanes)
}

/// Whether the party has a lane.
pub(crate) fn has_lane(lanes: &[u32], party: u32) -> bool
    ensures { result ≡ has_lane lanes.now party }
{
    lanes.contains(&party)
}

/// The middle of a party's lane.
pub(crate) fn middle_of(lanes: &[u32], party: u32) -> u64
    requires { length lanes.now ≤ 2000 }
    ensures middle { result ≡ middle_of lanes.now party }
    ensures small { result ≤ 208076 }
{
    let front = lanes.iter().filter(|lane| **lane < party).count() as u64;
    76 + 104 * front
}
