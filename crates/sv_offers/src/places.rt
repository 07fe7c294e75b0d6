ghost use Rattle.std.specs.Prelude.{◌≡◌, ◌≤◌, ◌<◌, length, vec_len, vec_capacity};
ghost use Rattle.std.specs.List.{AllWithin};
ghost use Rattle.sv_offers.specs.Places.{ByPlace, with_place, without_place};

use sv_rules::Standing;

// How many of the offers are at lower places; they stand in front.
fn lower(offers: &[Standing], place: u64) -> usize
    requires { ByPlace offers.now }
    ensures within { result ≤ length offers.now }
    ensures front { AllWithin (λ offer. offer.place < place) offers.now 0 result }
    ensures rest { AllWithin (λ offer. place ≤ offer.place) offers.now result (length offers.now) }
{
    offers.partition_point(|offer| offer.place < place)
}

/// Takes the offer at a place out, if there is one.
pub fn take_out(offers: &mut Vec<Standing>, place: u64)
    requires { ByPlace offers.old.items }
    ensures items { offers.new.items ≡ without_place offers.old.items place }
{
    let at = lower(offers, place);
    if at < offers.len() && offers[at].place == place {
        offers.remove(at);
    }
}

/// Puts an offer in by its place, where there is room.
pub fn put_in(offers: &mut Vec<Standing>, new: &Standing)
    requires by_place { ByPlace offers.old.items }
    requires room { vec_len offers.old < vec_capacity offers.old }
    ensures items { offers.new.items ≡ with_place offers.old.items new.now }
    ensures capacity { vec_capacity offers.old ≤ vec_capacity offers.new }
{
    let at = lower(offers, new.place);
    match offers.insert(at, *new) {
        Ok(()) => (),
        Err(_) => unreachable!(),
    }
}
