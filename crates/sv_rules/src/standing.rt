ghost use Rattle.std.specs.Prelude.{◌≡◌, ◌≤◌, vec_len, vec_capacity};
ghost use Rattle.sv_rules.specs.Standing.{own_offer, offer_count, without_ended, without_offer_of, without_party, is_match};

use apl_arrays::Name;
use sv_events::Ending;

/// A standing offer: the place of its entry, whose it is, to whom it is made (0: to any), and under which local name
/// and which surrogate.
#[derive(Clone, Copy, Debug, PartialEq, Eq)]
pub struct Standing {
    pub place: u64,
    pub party: u32,
    pub to: u32,
    pub local: Name,
    pub surrogate: Name,
}

/// The party's offer of a local name, if it has one.
pub fn own_offer(offers: &[Standing], party: u32, local: &Name) -> Option<Standing>
    ensures { result ≡ own_offer offers.now party local.now }
{
    offers
        .iter()
        .find(|offer| offer.party == party && offer.local == *local)
        .copied()
}

/// How many of the offers are the party's.
pub fn offer_count(offers: &[Standing], party: u32) -> usize
    ensures { result ≡ offer_count offers.now party }
{
    offers.iter().filter(|offer| offer.party == party).count()
}

// Takes the party's offers out.
fn end_offers(offers: &mut Vec<Standing>, party: u32)
    ensures items { offers.new.items ≡ without_party offers.old.items party }
    ensures len { vec_len offers.new ≤ vec_len offers.old }
    ensures capacity { vec_capacity offers.new ≡ vec_capacity offers.old }
{
    offers.retain(|offer| offer.party != party);
}

// Takes the party's offer of a local name out.
fn end_offer(offers: &mut Vec<Standing>, party: u32, local: &Name)
    ensures items { offers.new.items ≡ without_offer_of offers.old.items party local.now }
    ensures len { vec_len offers.new ≤ vec_len offers.old }
    ensures capacity { vec_capacity offers.new ≡ vec_capacity offers.old }
{
    offers.retain(|offer| !(offer.party == party && offer.local == *local));
}

/// Takes the offers out that an act of a party ends.
pub fn end_together(offers: &mut Vec<Standing>, party: u32, ending: Ending)
    ensures items { offers.new.items ≡ without_ended offers.old.items party ending }
    ensures len { vec_len offers.new ≤ vec_len offers.old }
    ensures capacity { vec_capacity offers.new ≡ vec_capacity offers.old }
{
    match ending {
        Ending::One(local) => end_offer(offers, party, &local),
        Ending::All => end_offers(offers, party),
    }
}

/// Whether two offers are of different parties under one surrogate, each made to the other's party or to any, and not
/// both to any.
pub fn is_match(one: &Standing, other: &Standing) -> bool
    ensures { result ≡ is_match one.now other.now }
{
    one.party != other.party
        && one.surrogate == other.surrogate
        && (one.to == other.party || one.to == 0)
        && (other.to == one.party || other.to == 0)
        && !(one.to == 0 && other.to == 0)
}
