ghost use Rattle.std.specs.Prelude.{◌≡◌, ◌≢◌, Some};
ghost use Rattle.sv_offers.specs.Table.{match_at};
ghost use Rattle.sv_rules.specs.Coupling.{coupling_at, coupling_of, is_open_match, offer_at, open_match, rejoined};

use crate::couplings::Couplings;
use crate::standings::Standings;
use sv_rules::{Coupling, Made, Standing, is_match, pair_of};

fn is_open_match(coupled: &Couplings, offer: &Standing, other: &Standing) -> bool
    ensures { result ≡ is_open_match coupled.now.items offer.now other.now }
{
    !coupled.has(other.place) && is_match(offer, other)
}

// Of the open matches of an offer that is made to a party the oldest: they are that party's own.
fn match_of_party(offers: &Standings, coupled: &Couplings, offer: &Standing) -> Option<Standing>
    requires { offer.now.to ≢ 0 }
    ensures { result ≡ open_match offers.now coupled.now.items offer.now }
{
    offers
        .of(offer.to)
        .iter()
        .find(|theirs| is_open_match(coupled, offer, theirs))
        .copied()
}

// The offer at a place, if it is open and matches another.
fn match_at(
    offers: &Standings,
    coupled: &Couplings,
    offer: &Standing,
    place: u64,
) -> Option<Standing>
    ensures { result ≡ match_at offers.now coupled.now.items offer.now place }
{
    let other = offers.at(place)?;
    if is_open_match(coupled, offer, &other) {
        Some(other)
    } else {
        None
    }
}

// Of the open matches of an offer that is made to any the oldest: they are made to its party, under its surrogate.
fn match_of_any(offers: &Standings, coupled: &Couplings, offer: &Standing) -> Option<Standing>
    requires { offer.now.to ≡ 0 }
    ensures { result ≡ open_match offers.now coupled.now.items offer.now }
{
    let places = offers.places_to(offer.party, Some(offer.surrogate))?;
    for place in places.iter() {
        if let Some(other) = match_at(offers, coupled, offer, *place) {
            return Some(other);
        }
    }
    None
}

/// Of the open matches of an offer the oldest, if it has any.
pub fn open_match(offers: &Standings, coupled: &Couplings, offer: &Standing) -> Option<Standing>
    ensures { result ≡ open_match offers.now coupled.now.items offer.now }
{
    if offer.to == 0 {
        match_of_any(offers, coupled, offer)
    } else {
        match_of_party(offers, coupled, offer)
    }
}

/// The pair that a reopened offer makes at a place: with its open match, where it is still open itself and has one.
pub fn rejoined(at: u64, offers: &Standings, coupled: &Couplings, offer: &Standing) -> Option<Made>
    ensures { result ≡ rejoined at offers.now coupled.now.items offer.now }
{
    if coupled.has(offer.place) {
        return None;
    }
    let other = open_match(offers, coupled, offer)?;
    Some(Made {
        pair: pair_of(offer, &other),
        at,
    })
}

fn coupling_of(offers: &Standings, made: &Made) -> Option<Coupling>
    ensures { result ≡ coupling_of offers.now made.now }
{
    let a = offers.at(made.pair.a)?;
    let b = offers.at(made.pair.b)?;
    Some(Coupling { a, b, at: made.at })
}

/// The coupling of the offer at a place, if it has one.
pub fn coupling_at(offers: &Standings, coupled: &Couplings, place: u64) -> Option<Coupling>
    ensures { result ≡ coupling_at offers.now coupled.now.items place }
{
    let made = coupled.with(place)?;
    coupling_of(offers, &made)
}

// The offer at a place, which is looked up unless it is the one at hand.
fn at_hand(offers: &Standings, place: u64, offer: &Standing) -> Option<Standing>
    requires { offer_at offers.now offer.now.place ≡ Some offer.now }
    ensures { result ≡ offer_at offers.now place }
{
    if offer.place == place {
        Some(*offer)
    } else {
        offers.at(place)
    }
}

// The offers of a coupling, of which one is at hand.
fn coupling_with(offers: &Standings, made: &Made, offer: &Standing) -> Option<Coupling>
    requires { offer_at offers.now offer.now.place ≡ Some offer.now }
    ensures { result ≡ coupling_of offers.now made.now }
{
    let a = at_hand(offers, made.pair.a, offer)?;
    let b = at_hand(offers, made.pair.b, offer)?;
    Some(Coupling { a, b, at: made.at })
}

/// The coupling of an offer that stands, if it has one: only its partner is looked up.
pub fn coupling_on(offers: &Standings, coupled: &Couplings, offer: &Standing) -> Option<Coupling>
    requires { offer_at offers.now offer.now.place ≡ Some offer.now }
    ensures { result ≡ coupling_at offers.now coupled.now.items offer.now.place }
{
    let made = coupled.with(offer.place)?;
    coupling_with(offers, &made, offer)
}
