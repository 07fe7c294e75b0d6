ghost use Rattle.std.specs.Prelude.{◌≡◌, ◌&&◌, not, ◌+◌, ◌∷◌, [], ◌++◌, ℕ, IfOk, OnOk, length};
ghost use Rattle.sv_events.specs.Entry.{plain_entry};
ghost use Rattle.sv_rules.specs.Entries.{Entries};
ghost use Rattle.sv_rules.specs.Story.{coupling_ends};
ghost use Rattle.run_reasons.specs.Walk.{Follows, pairs_that_stand, pairs_with, some_stands};

use apl_arrays::WantOfMemory;
use std::alloc::Global;
use sv_events::Entry;
use sv_plain::stand_after;
use sv_rules::{Made, Standing, both_stand};

/// Entries that are gone through for one offer: what stands, and the pairs that have the offer.
#[derive(Debug, Drop)]
pub(crate) struct Walk {
    pub standing: Vec<Standing>,
    pub pairs: Vec<Made>,
}

// Whether a pair of which both offers stand is among these.
fn some_stands(pairs: &[Made], offers: &[Standing]) -> bool
    ensures { result ≡ some_stands pairs.now offers.now }
{
    pairs.iter().any(|made| both_stand(offers, &made.pair))
}

// The pairs of which both offers stand. It takes memory for them.
fn pairs_that_stand(
    alloc: Global,
    pairs: &[Made],
    offers: &[Standing],
) -> Result<Vec<Made>, WantOfMemory>
    ensures { IfOk result (λ list. list.items ≡ pairs_that_stand pairs.now offers.now) }
{
    let mut list = Vec::from_slice(alloc, pairs)?;
    list.retain(|made| both_stand(offers, &made.pair));
    Ok(list)
}

// Adds the pairs of an entry that have the offer at a place.
fn add_pairs(pairs: &mut Vec<Made>, place: u64, at: u64, entry: &Entry) -> Result<(), WantOfMemory>
    ensures { OnOk result (pairs.new.items ≡ pairs.old.items ++ pairs_with place at (plain_entry entry.now)) }
{
    for pair in entry.made.as_slice() {
        if pair.a == place || pair.b == place {
            pairs.push(Made { pair: *pair, at })?;
        }
    }
    Ok(())
}

// Whether what was is no more.
fn has_ended(was: bool, is: bool) -> bool
    ensures { result ≡ (was && not is) }
{
    was && !is
}

impl Walk {
    /// No entry yet.
    pub(crate) fn new(alloc: Global) -> Walk
        ensures { (place : ℕ) → Follows place [] result }
    {
        Walk {
            standing: Vec::new(alloc),
            pairs: Vec::new(alloc),
        }
    }

    /// Goes on over an entry at a place, for the offer at another. It says whether the coupling of that offer ends there, while
    /// the offer stands. It takes memory for what stands and for the pairs of the offer.
    pub(crate) fn goes_on(
        &mut self,
        alloc: Global,
        place: u64,
        at: u64,
        entry: &Entry,
    ) -> Result<bool, WantOfMemory>
        ensures follows { (journal : Entries) → at ≡ length journal + 1 → Follows place journal self.old → OnOk result (Follows place (plain_entry entry.now ∷ journal) self.new) }
        ensures ends { (journal : Entries) → at ≡ length journal + 1 → Follows place journal self.old → IfOk result (λ ends. ends ≡ coupling_ends (plain_entry entry.now) journal place) }
    {
        let was = some_stands(&self.pairs, &self.standing);
        let before = pairs_that_stand(alloc, &self.pairs, &self.standing)?;
        stand_after(&mut self.standing, at, entry)?;
        let is = some_stands(&before, &self.standing);
        add_pairs(&mut self.pairs, place, at, entry)?;
        let ends = has_ended(was, is);
        Ok(ends)
    }
}
