ghost use Rattle.std.specs.Prelude.{◌≡◌, ◌≤◌, IfOk, OnOk, length, map};
ghost use Rattle.sv_events.specs.Entry.{plain_entry};
ghost use Rattle.sv_events.specs.Row.{act_row};
ghost use Rattle.run_picture.specs.Layout.{height_with};
ghost use Rattle.run_picture.specs.Link.{coupled, link_added, link_between, links_behind, links_of, offered, party_at};

use crate::lane::has_lane;
use apl_arrays::{List, WantOfMemory};
use std::alloc::Global;
use sv_events::{Entry, Opening, Pair};

/// A line between the lanes of two parties: of a coupling, or of an offer.
#[derive(Clone, Copy, Debug, PartialEq, Eq)]
pub struct Link {
    pub coupled: bool,
    pub from: u32,
    pub to: u32,
}

/// The most lines of one entry.
const MOST: usize = 64;

// The line from one party to another, where both have lanes.
fn link_between(lanes: &[u32], coupled: bool, from: u32, to: u32) -> Option<Link>
    ensures { result ≡ link_between lanes.now coupled from to }
{
    if has_lane(lanes, from) && has_lane(lanes, to) {
        Some(Link { coupled, from, to })
    } else {
        None
    }
}

// The line of an offer, where it is made to another party.
fn offered(lanes: &[u32], party: u32, opens: Option<Opening>) -> Option<Link>
    ensures { result ≡ offered lanes.now party opens }
{
    let opening = opens?;
    if opening.to == party {
        None
    } else {
        link_between(lanes, false, party, opening.to)
    }
}

// The party of the entry at a place.
fn party_at(entries: &[Entry], place: u64) -> Option<u32>
    ensures { result ≡ party_at (map plain_entry entries.now) place }
{
    if place == 0 || place > entries.len() as u64 {
        return None;
    }
    Some(entries[place as usize - 1].party)
}

// The line of a pair, between the parties of its offers.
fn coupled(lanes: &[u32], entries: &[Entry], pair: &Pair) -> Option<Link>
    ensures { result ≡ coupled lanes.now (map plain_entry entries.now) pair.now }
{
    let a = party_at(entries, pair.a)?;
    let b = party_at(entries, pair.b)?;
    link_between(lanes, true, a, b)
}

// Adds a line, if there is one and others leave room for it.
fn add_link(links: &mut List<Link>, link: Option<Link>) -> Result<(), WantOfMemory>
    ensures { OnOk result (links.new.items ≡ link_added links.old.items link) }
{
    match link {
        None => Ok(()),
        Some(link) => {
            if links.as_slice().len() < MOST {
                links.push(link)?;
            }
            Ok(())
        }
    }
}

// Adds the lines of pairs, as long as others leave room for them.
#[tactic(auto, using(crate::proofs::Links::full_stays))]
fn add_couplings(
    links: &mut List<Link>,
    lanes: &[u32],
    entries: &[Entry],
    pairs: &[Pair],
) -> Result<(), WantOfMemory>
    ensures { OnOk result (links.new.items ≡ links_behind lanes.now (map plain_entry entries.now) links.old.items pairs.now) }
{
    for pair in pairs {
        if links.as_slice().len() >= MOST {
            return Ok(());
        }
        add_link(links, coupled(lanes, entries, pair))?;
    }
    Ok(())
}

/// The lines of an entry, 64 at most. It takes memory for them.
pub(crate) fn links_of(
    alloc: Global,
    lanes: &[u32],
    entries: &[Entry],
    entry: &Entry,
) -> Result<List<Link>, WantOfMemory>
    ensures links { IfOk result (λ links. links.items ≡ links_of lanes.now (map plain_entry entries.now) (plain_entry entry.now)) }
    ensures few { IfOk result (λ links. length links.items ≤ 64) }
{
    let mut links = List::new(alloc);
    add_link(
        &mut links,
        offered(lanes, entry.party, entry.act.row().opens),
    )?;
    add_couplings(&mut links, lanes, entries, entry.made.as_slice())?;
    Ok(links)
}

/// How high an entry with so many lines is.
pub(crate) fn height_with(links: usize) -> u64
    requires { links ≤ 64 }
    ensures height { result ≡ height_with links }
    ensures small { result ≤ 404 }
{
    26 + 6 * (links as u64).saturating_sub(1)
}
