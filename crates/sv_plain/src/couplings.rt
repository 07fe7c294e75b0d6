ghost use Rattle.std.specs.Prelude.{◌≡◌, ◌++◌, IfOk};
ghost use Rattle.sv_rules.specs.Coupling.{made_in, couplings, reopened_among, recoupled, made_by_ending};
ghost use Rattle.sv_rules.specs.Journal.{journal_of};
ghost use Rattle.sv_offer_laws.specs.LegalLaws.{made_at};

use crate::offers::standing_offers;
use apl_arrays::WantOfMemory;
use std::alloc::Global;
use sv_events::{Ending, Entry, Pair};
use sv_rules::{Made, Standing, end_together, is_coupled, keep_couplings, rejoined};

fn push_made(made: &mut Vec<Made>, at: u64, pairs: &[Pair]) -> Result<(), WantOfMemory>
    ensures { IfOk result (λ _. made.new.items ≡ made.old.items ++ made_at at pairs.now) }
{
    for pair in pairs {
        made.push(Made { pair: *pair, at })?;
    }
    Ok(())
}

fn pairs_made(alloc: Global, entries: &[Entry]) -> Result<Vec<Made>, WantOfMemory>
    ensures { IfOk result (λ made. made.items ≡ made_in (journal_of entries.now)) }
{
    let mut made = Vec::new(alloc);
    for (i, entry) in entries.iter().enumerate() {
        push_made(&mut made, i as u64 + 1, entry.made.as_slice())?;
    }
    Ok(made)
}

/// The couplings of some entries, in the order in which they were made. It takes memory for the standing offers and for
/// the pairs that the entries made.
pub fn couplings_of(alloc: Global, entries: &[Entry]) -> Result<Vec<Made>, WantOfMemory>
    ensures { IfOk result (λ coupled. coupled.items ≡ couplings (journal_of entries.now)) }
{
    let offers = standing_offers(alloc, entries)?;
    let mut made = pairs_made(alloc, entries)?;
    keep_couplings(&mut made, &offers);
    Ok(made)
}

fn reopened_among(
    alloc: Global,
    offers: &[Standing],
    before: &[Made],
    now: &[Made],
) -> Result<Vec<Standing>, WantOfMemory>
    ensures { IfOk result (λ reopened. reopened.items ≡ reopened_among offers.now before.now now.now) }
{
    let mut reopened = Vec::from_slice(alloc, offers)?;
    reopened.retain(|offer| is_coupled(before, offer.place) && !is_coupled(now, offer.place));
    Ok(reopened)
}

fn recoupled(
    alloc: Global,
    at: u64,
    offers: &[Standing],
    mut coupled: Vec<Made>,
    reopened: &[Standing],
) -> Result<Vec<Made>, WantOfMemory>
    ensures { IfOk result (λ made. made.items ≡ recoupled at offers.now coupled.items reopened.now) }
{
    let mut made = Vec::new(alloc);
    for offer in reopened {
        if let Some(new) = rejoined(at, offers, &coupled, offer) {
            coupled.push(new)?;
            made.push(new)?;
        }
    }
    Ok(made)
}

/// The pairs that an ending of a party's offers makes at a place. It takes memory for copies of the offers and of the
/// couplings, and for the pairs.
pub fn made_by_ending(
    alloc: Global,
    at: u64,
    offers: &[Standing],
    coupled: &[Made],
    party: u32,
    ending: Ending,
) -> Result<Vec<Made>, WantOfMemory>
    ensures { IfOk result (λ made. made.items ≡ made_by_ending at offers.now coupled.now party ending) }
{
    let mut left = Vec::from_slice(alloc, offers)?;
    end_together(&mut left, party, ending);
    let mut kept = Vec::from_slice(alloc, coupled)?;
    keep_couplings(&mut kept, &left);
    let reopened = reopened_among(alloc, &left, coupled, &kept)?;
    recoupled(alloc, at, &left, kept, &reopened)
}
