ghost use Rattle.std.specs.Prelude.{◌≡◌, ◌≤◌, find, vec_len, vec_capacity};
ghost use Rattle.sv_rules.specs.Coupling.{stands_at, both_stand, couplings_among, has_place, is_coupled, degree_at, is_open_match, open_match, pair_of, rejoined, offer_at, coupling_of, coupling_at};

use crate::Standing;
use crate::standing::is_match;
use sv_events::Pair;

/// A pair of offers, and the place of the entry that made it.
#[derive(Clone, Copy, Debug, PartialEq, Eq)]
pub struct Made {
    pub pair: Pair,
    pub at: u64,
}

/// Two coupled offers, and the place of the entry that coupled them; `a` is the lower one.
#[derive(Clone, Copy, Debug, PartialEq, Eq)]
pub struct Coupling {
    pub a: Standing,
    pub b: Standing,
    pub at: u64,
}

fn stands_at(offers: &[Standing], place: u64) -> bool
    ensures { result ≡ stands_at offers.now place }
{
    offers.iter().any(|offer| offer.place == place)
}

/// Whether both offers of a pair are among these.
pub fn both_stand(offers: &[Standing], pair: &Pair) -> bool
    ensures { result ≡ both_stand offers.now pair.now }
{
    stands_at(offers, pair.a) && stands_at(offers, pair.b)
}

/// Keeps the couplings of which both offers are among these.
pub fn keep_couplings(coupled: &mut Vec<Made>, offers: &[Standing])
    ensures items { coupled.new.items ≡ couplings_among offers.now coupled.old.items }
    ensures len { vec_len coupled.new ≤ vec_len coupled.old }
    ensures capacity { vec_capacity coupled.new ≡ vec_capacity coupled.old }
{
    coupled.retain(|made| both_stand(offers, &made.pair));
}

fn has_place(place: u64, made: &Made) -> bool
    ensures { result ≡ has_place place made.now }
{
    made.pair.a == place || made.pair.b == place
}

/// Whether the offer at a place is coupled.
pub fn is_coupled(coupled: &[Made], place: u64) -> bool
    ensures { result ≡ is_coupled coupled.now place }
{
    coupled.iter().any(|made| has_place(place, made))
}

/// 2 for a coupled offer, else 1.
pub fn degree_at(coupled: &[Made], place: u64) -> u8
    ensures { result ≡ degree_at coupled.now place }
{
    if is_coupled(coupled, place) { 2 } else { 1 }
}

fn is_open_match(coupled: &[Made], offer: &Standing, other: &Standing) -> bool
    ensures { result ≡ is_open_match coupled.now offer.now other.now }
{
    !is_coupled(coupled, other.place) && is_match(offer, other)
}

/// Of the open matches of an offer the oldest, if it has any.
pub fn open_match(offers: &[Standing], coupled: &[Made], offer: &Standing) -> Option<Standing>
    ensures { result ≡ open_match offers.now coupled.now offer.now }
{
    offers
        .iter()
        .find(|other| is_open_match(coupled, offer, other))
        .copied()
}

/// The pair of two offers, the lower place first.
pub fn pair_of(one: &Standing, other: &Standing) -> Pair
    ensures { result ≡ pair_of one.now other.now }
{
    let (a, b) = if one.place < other.place {
        (one.place, other.place)
    } else {
        (other.place, one.place)
    };
    Pair { a, b }
}

/// The pair that a reopened offer makes at a place: with its open match, where it is still open itself and has one.
pub fn rejoined(at: u64, offers: &[Standing], coupled: &[Made], offer: &Standing) -> Option<Made>
    ensures { result ≡ rejoined at offers.now coupled.now offer.now }
{
    if is_coupled(coupled, offer.place) {
        return None;
    }
    let other = open_match(offers, coupled, offer)?;
    Some(Made {
        pair: pair_of(offer, &other),
        at,
    })
}

fn offer_at(offers: &[Standing], place: u64) -> Option<Standing>
    ensures { result ≡ offer_at offers.now place }
{
    offers.iter().find(|offer| offer.place == place).copied()
}

fn coupling_of(offers: &[Standing], made: &Made) -> Option<Coupling>
    ensures { result ≡ coupling_of offers.now made.now }
{
    let a = offer_at(offers, made.pair.a)?;
    let b = offer_at(offers, made.pair.b)?;
    Some(Coupling { a, b, at: made.at })
}

fn made_with(coupled: &[Made], place: u64) -> Option<Made>
    ensures { result ≡ find (has_place place) coupled.now }
{
    coupled.iter().find(|made| has_place(place, made)).copied()
}

/// The coupling of the offer at a place, if it has one.
pub fn coupling_at(offers: &[Standing], coupled: &[Made], place: u64) -> Option<Coupling>
    ensures { result ≡ coupling_at offers.now coupled.now place }
{
    let made = made_with(coupled, place)?;
    coupling_of(offers, &made)
}
