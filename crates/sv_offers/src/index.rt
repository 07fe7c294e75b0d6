ghost use Rattle.std.specs.Prelude.{◌≡◌, ◌+◌, ◌≤◌, ◌<◌, ◌==◌, ℕ, List, IsSome, None, Some, nat_eq, if◌then◌else◌};
ghost use Rattle.std.specs.Option.{option_or};
ghost use Rattle.std.specs.HashMap.{get, spare};
ghost use Rattle.sv_offers.specs.Finding.{same_key};
ghost use Rattle.sv_rules.specs.Coupling.{has_place};
ghost use Rattle.sv_rules.specs.Standing.{is_own};

use apl_arrays::Name;
use std::collections::HashMap;
use sv_rules::{Made, Standing};

/// Offers by their parties and local names.
pub type Named = HashMap<(u32, Name), Standing>;

/// Couplings by the places of both their offers.
pub type Mated = HashMap<u64, Made>;

/// An offer is found by its party and its local name, unless another is.
pub fn note_name(named: &mut Named, offer: &Standing)
    requires { 0 < spare named.old }
    ensures { (party : ℕ) (local : List ℕ) → get same_key named.new (party, local)
        ≡ option_or (get same_key named.old (party, local)) (if is_own party local offer.now then Some offer.now else None) }
{
    let key = (offer.party, offer.local);
    if !named.contains_key(&key) {
        match named.insert(key, *offer) {
            Ok(_) => (),
            Err(_) => unreachable!(),
        }
    }
}

/// By the party and the local name of an offer that went the next is found, or none.
pub fn replace_name(named: &mut Named, gone: &Standing, next: Option<Standing>)
    requires { IsSome (get same_key named.old (gone.now.party, gone.now.local)) }
    ensures { (party : ℕ) (local : List ℕ) → get same_key named.new (party, local)
        ≡ (if is_own party local gone.now then next else get same_key named.old (party, local)) }
{
    let key = (gone.party, gone.local);
    match next {
        None => {
            named.remove(&key);
        }
        Some(offer) => match named.insert(key, offer) {
            Ok(_) => (),
            Err(_) => unreachable!(),
        },
    }
}

// A coupling is found by a place, unless another is.
fn note_mate(mated: &mut Mated, at: u64, made: &Made)
    requires { 0 < spare mated.old }
    ensures finds { (place : ℕ) → get nat_eq mated.new place
        ≡ option_or (get nat_eq mated.old place) (if at == place then Some made.now else None) }
    ensures room { spare mated.old ≤ spare mated.new + 1 }
{
    if !mated.contains_key(&at) {
        match mated.insert(at, *made) {
            Ok(_) => (),
            Err(_) => unreachable!(),
        }
    }
}

/// A coupling is found by the places of both its offers, unless others are.
pub fn note_mates(mated: &mut Mated, made: &Made)
    requires { 2 ≤ spare mated.old }
    ensures finds { (place : ℕ) → get nat_eq mated.new place
        ≡ option_or (get nat_eq mated.old place) (if has_place place made.now then Some made.now else None) }
    ensures room { spare mated.old ≤ spare mated.new + 2 }
{
    note_mate(mated, made.pair.a, made);
    note_mate(mated, made.pair.b, made);
}

/// No coupling is found by the places of a pair any more.
pub fn forget_mates(mated: &mut Mated, made: &Made)
    ensures finds { (place : ℕ) → get nat_eq mated.new place ≡ (if has_place place made.now then None else get nat_eq mated.old place) }
    ensures room { spare mated.old ≤ spare mated.new }
{
    mated.remove(&made.pair.a);
    mated.remove(&made.pair.b);
}
