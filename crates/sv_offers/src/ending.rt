ghost use Rattle.std.specs.Prelude.{◌≡◌, ◌+◌, ◌<◌, ◌≤◌, [], All, Contains, length, true, vec_capacity, vec_len};
ghost use Rattle.sv_offers.specs.Places.{AreOnce, ByPlace, other_place, set_free, with_free, without_coupling, without_place};
ghost use Rattle.sv_rules.specs.Coupling.{both_stand, kept_by_ending, offer_at, reopened_by_ending};
ghost use Rattle.sv_rules.specs.Standing.{is_ended, without_ended};

use crate::couplings::Couplings;
use crate::places::put_in;
use crate::standings::{Standings, is_ended};
use sv_events::Ending;
use sv_rules::{Made, Standing};

// The other place of a pair.
fn other_place(place: u64, made: &Made) -> u64
    ensures { result ≡ other_place place made.now }
{
    if made.pair.a == place {
        made.pair.b
    } else {
        made.pair.a
    }
}

// The offer at a place, unless an act of a party ends it.
fn left_at(offers: &Standings, place: u64, party: u32, ending: &Ending) -> Option<Standing>
    requires { ByPlace offers.now }
    ensures { result ≡ offer_at (without_ended offers.now party ending.now) place }
{
    let offer = offers.at(place)?;
    if is_ended(party, ending, &offer) {
        return None;
    }
    Some(offer)
}

// The coupling of the offer at a place goes, and the partner that this sets free is answered, unless it ends too.
fn part(
    offers: &Standings,
    coupled: &mut Couplings,
    place: u64,
    party: u32,
    ending: &Ending,
) -> Option<Standing>
    requires by_place { ByPlace offers.now }
    requires once { AreOnce coupled.old.items }
    ensures free { result ≡ set_free offers.now coupled.old.items place party ending.now }
    ensures coupled { coupled.new.items ≡ without_coupling coupled.old.items place }
    ensures room { coupled.new.room ≡ coupled.old.room }
{
    let made = coupled.part(place)?;
    left_at(offers, other_place(place, &made), party, ending)
}

// One of the offers that an act of a party ends goes, and its coupling; the partner that this sets free is noted by place.
fn end_one(
    offers: &mut Standings,
    coupled: &mut Couplings,
    reopened: &mut Vec<Standing>,
    offer: &Standing,
    party: u32,
    ending: &Ending,
)
    requires by_place { ByPlace offers.old }
    requires there { Contains offers.old offer.now }
    requires ends { is_ended party ending.now offer.now ≡ true }
    requires once { AreOnce coupled.old.items }
    requires noted { ByPlace reopened.old.items }
    requires room { vec_len reopened.old < vec_capacity reopened.old }
    ensures offers { offers.new ≡ without_place offers.old offer.now.place }
    ensures coupled { coupled.new.items ≡ without_coupling coupled.old.items offer.now.place }
    ensures reopened { reopened.new.items ≡ with_free reopened.old.items (set_free offers.old coupled.old.items offer.now.place party ending.now) }
    ensures capacity { vec_capacity reopened.old ≤ vec_capacity reopened.new }
    ensures room { coupled.new.room ≡ coupled.old.room }
{
    offers.remove(offer);
    if let Some(free) = part(offers, coupled, offer.place, party, ending) {
        put_in(reopened, &free);
    }
}

/// The offers that an act of a party ends go, and their couplings; the partners that this sets free are noted by place.
pub fn end_all(
    offers: &mut Standings,
    coupled: &mut Couplings,
    reopened: &mut Vec<Standing>,
    party: u32,
    ending: &Ending,
)
    requires by_place { ByPlace offers.old }
    requires stand { All (λ made. both_stand offers.old made.pair ≡ true) coupled.old.items }
    requires once { AreOnce coupled.old.items }
    requires none { reopened.old.items ≡ [] }
    requires room { length offers.old ≤ vec_capacity reopened.old }
    ensures offers { offers.new ≡ without_ended offers.old party ending.now }
    ensures coupled { coupled.new.items ≡ kept_by_ending offers.old coupled.old.items party ending.now }
    ensures reopened { reopened.new.items ≡ reopened_by_ending offers.old coupled.old.items party ending.now }
    ensures few { length reopened.new.items + length offers.new ≤ length offers.old }
    ensures capacity { vec_capacity reopened.old ≤ vec_capacity reopened.new }
    ensures room { coupled.new.room ≡ coupled.old.room }
{
    while let Some(offer) = offers.first_ended(party, ending) {
        end_one(offers, coupled, reopened, &offer, party, ending);
    }
}
