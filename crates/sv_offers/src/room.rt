ghost use Rattle.std.specs.Prelude.{◌≡◌, ◌+◌, ◌≤◌, ◌<◌, ◌++◌, All, option_map, option_to_list, length, map};
ghost use Rattle.sv_rules.specs.Coupling.{recoupled, pair_of};

use crate::couplings::Couplings;
use crate::matching::rejoined;
use crate::standings::Standings;
use sv_events::PairList;
use sv_rules::{Made, Standing, pair_of};

/// Couples a new offer with its open match, if there is one.
pub fn join(coupled: &mut Couplings, other: &Option<Standing>, new: &Standing)
    requires room { 0 < coupled.old.room }
    requires later { All (λ made. made.at ≤ new.now.place) coupled.old.items }
    ensures items { coupled.new.items ≡ coupled.old.items ++ option_to_list (option_map (λ other. record { pair = pair_of other new.now; at = new.now.place }) other.now) }
    ensures room { coupled.old.room ≤ coupled.new.room + 1 }
{
    match other {
        None => (),
        Some(other) => coupled.push(Made {
            pair: pair_of(other, new),
            at: new.place,
        }),
    }
}

/// Couples reopened offers, one after another.
pub fn recouple(
    at: u64,
    offers: &Standings,
    coupled: &mut Couplings,
    reopened: &[Standing],
    made: &mut PairList,
)
    requires room { length reopened.now ≤ coupled.old.room }
    requires pairs { length reopened.now ≤ made.old.room }
    requires later { All (λ made. made.at ≤ at) coupled.old.items }
    ensures items { coupled.new.items ≡ coupled.old.items ++ recoupled at offers.now coupled.old.items reopened.now }
    ensures room { coupled.old.room ≤ coupled.new.room + length reopened.now }
    ensures made { made.new.items ≡ made.old.items ++ map (λ made. made.pair) (recoupled at offers.now coupled.old.items reopened.now) }
{
    for offer in reopened {
        if let Some(joined) = rejoined(at, offers, coupled, offer) {
            coupled.push(joined);
            made.push_reserved(joined.pair);
        }
    }
}
