ghost use Rattle.std.specs.Prelude.{◌≡◌, ◌≢◌, ◌≤◌, ℕ, [], Option, None, Some, IsSome, OnOk, OnErr, length, option_map};
ghost use Rattle.apl_arrays.specs.Array.{PlainArray};
ghost use Rattle.sv_cell_laws.specs.Steps.{answered_alone, made_with, set_access, shared_at, use_access};
ghost use Rattle.sv_kept.specs.declared.cell.Cell.{Cell};
ghost use Rattle.sv_kept.specs.declared.cell.CellContent.TheVariants.{Alone, Shared};
ghost use Rattle.sv_kept.specs.Share.{PlainShare, shared_value};
ghost use Rattle.sv_cell_laws.specs.Ends.{IsOfferTable, MayPart, Uncouples, share_at};
ghost use Rattle.sv_kept.specs.Cells.{ChangesAt, CouplesAt, KeepsCells, PartsAt, cell_at};
ghost use Rattle.sv_core.specs.Updating.{AddsNone, AfterAccess, ClearsAll, CouplesAll, EndsAll, FitsSome, IsReady, IsToCouple, IsToEnd, Joined, Closes, MayJoin, PartsAll, degree_with, value_at};
ghost use Rattle.sv_offers.specs.Table.{after_ending, pairs_made};
ghost use Rattle.sv_rules.specs.Coupling.{coupling_at, pair_of, reopened_by_ending};

use apl_arrays::{Array, WantOfMemory};
use sv_access::Side;
use sv_events::{Ending, Pair, PairList};
use sv_kept::Cells;
use sv_offers::{Offers, is_ended};
use sv_rules::{Coupling, Standing, pair_of, side_at};

// The offers at two places part, where they still share.
fn part_shared(cells: &mut Cells, a: u64, b: u64)
    requires apart { a ≢ b }
    requires some { IsSome (cell_at cells.old b) }
    ensures none { share_at cells.old a ≡ None → KeepsCells cells.old cells.new }
    ensures parts { IsSome (share_at cells.old a) → PartsAt cells.old cells.new a b }
{
    if cells.shares(a) {
        cells.part(a, b);
    }
}

// The offers of a coupling part, where they still share.
fn part_coupled(cells: &mut Cells, coupling: Option<Coupling>)
    requires { MayPart cells.old coupling }
    ensures { Uncouples cells.old cells.new coupling }
{
    match coupling {
        None => (),
        Some(coupling) => part_shared(cells, coupling.a.place, coupling.b.place),
    }
}

// The offers that an act of a party ends, and their partners, part.
fn part_all(offers: &Offers, cells: &mut Cells, party: u32, ending: &Ending)
    requires table { IsOfferTable offers.now.offers offers.now.coupled }
    requires fit { FitsSome offers.now.offers offers.now.coupled cells.old }
    ensures parts { PartsAll offers.now.offers offers.now.coupled party ending.now offers.now.offers cells.old cells.new }
    ensures no_more { AddsNone cells.old cells.new }
{
    for offer in offers.of(party) {
        if is_ended(party, ending, offer) {
            part_coupled(cells, offers.coupling(offer.place));
        }
    }
}

// The cells of the offers that an act of a party ends go.
fn close_all(offers: &[Standing], cells: &mut Cells, party: u32, ending: &Ending)
    ensures { Closes offers.now party ending.now cells.old cells.new }
{
    for offer in offers {
        if is_ended(party, ending, offer) {
            cells.close(offer.place);
        }
    }
}

// The offers of a pair are coupled, unless they share already.
fn couple_pair(cells: &mut Cells, pair: &Pair)
    requires apart { pair.now.a ≢ pair.now.b }
    requires a { IsSome (cell_at cells.old pair.now.a) }
    requires b { IsSome (cell_at cells.old pair.now.b) }
    ensures shared { IsSome (share_at cells.old pair.now.a) → KeepsCells cells.old cells.new }
    ensures apart { share_at cells.old pair.now.a ≡ None → CouplesAt cells.old cells.new pair.now.a pair.now.b }
{
    if !cells.shares(pair.a) {
        cells.couple(pair.a, pair.b);
    }
}

// The offers of the pairs that the newest entry makes are coupled.
fn couple_all(cells: &mut Cells, made: &[Pair])
    requires { IsToCouple cells.old made.now }
    ensures couples { CouplesAll made.now cells.old cells.new made.now }
    ensures no_more { AddsNone cells.old cells.new }
{
    for pair in made {
        couple_pair(cells, pair);
    }
}

/// Offers of a party end together by its act at a place, in the table and in the cells; the pairs that this makes go last
/// in `made`.
pub fn end_together(
    offers: &mut Offers,
    cells: &mut Cells,
    at: u64,
    party: u32,
    ending: Ending,
    made: &mut PairList,
)
    requires ready { IsToEnd offers.old cells.old at party ending }
    requires none { made.old.items ≡ [] }
    requires room { length (reopened_by_ending offers.old.offers offers.old.coupled party ending) ≤ made.old.room }
    ensures table { offers.new ≡ after_ending at offers.old party ending }
    ensures made { made.new.items ≡ pairs_made at offers.old party ending }
    ensures cells { EndsAll offers.old at party ending cells.old cells.new }
    ensures others { ClearsAll offers.old at party ending cells.old cells.new }
{
    part_all(offers, cells, party, &ending);
    close_all(offers.of(party), cells, party, &ending);
    offers.end(at, party, ending, made);
    couple_all(cells, made.as_slice());
}

/// The cells after a set that is granted, by the offer's coupling.
pub fn note_set(cells: &mut Cells, offer: &Standing, coupling: &Option<Coupling>, value: Array)
    requires { IsReady cells.old offer.now coupling.now }
    ensures { AfterAccess cells.old cells.new offer.now (set_access value) coupling.now }
{
    match coupling {
        None => cells.learn(offer.place, value),
        Some(coupling) => {
            let side = side_at(coupling, offer.place);
            cells.set(coupling.a.place, side, value);
        }
    }
    cells.answered(offer.place, false);
}

/// The cells after a use that is not refused, by the offer's coupling. It takes memory for what the side comes to know;
/// after `WantOfMemory` they are as before.
pub fn note_use(
    cells: &mut Cells,
    offer: &Standing,
    coupling: &Option<Coupling>,
) -> Result<(), WantOfMemory>
    requires { IsReady cells.old offer.now coupling.now }
    ensures ok { OnOk result (AfterAccess cells.old cells.new offer.now (use_access (value_at cells.old offer.now coupling.now)) coupling.now) }
    ensures err { OnErr result (KeepsCells cells.old cells.new) }
{
    match coupling {
        None => {
            use_alone(cells, offer.place);
            Ok(())
        }
        Some(coupling) => {
            let side = side_at(coupling, offer.place);
            use_shared(cells, coupling.a.place, offer.place, side)
        }
    }
}

// The party of an open offer uses what it knows.
fn use_alone(cells: &mut Cells, place: u64)
    requires { IsSome (cell_at cells.old place) }
    ensures { (cell : Cell) (value : Option PlainArray) → cell_at cells.old place ≡ Some cell → cell.held ≡ Alone value →
        ChangesAt cells.old cells.new place (answered_alone (use_access value)) }
{
    let got = cells.knows(place);
    cells.answered(place, got);
}

// A side of a coupling, with its offer at a place, uses what is shared at home. It takes memory for what the side comes to
// know; after `WantOfMemory` the cells are as before.
fn use_shared(cells: &mut Cells, home: u64, place: u64, side: Side) -> Result<(), WantOfMemory>
    requires home { IsSome (share_at cells.old home) }
    requires own { IsSome (cell_at cells.old place) }
    ensures ok { (cell : Cell) (share : PlainShare) → cell_at cells.old home ≡ Some cell → cell.held ≡ Shared share →
        OnOk result ((at : ℕ) → cell_at cells.new at ≡ option_map (shared_at home place side (use_access (shared_value share)) at) (cell_at cells.old at)) }
    ensures err { OnErr result (KeepsCells cells.old cells.new) }
{
    let got = cells.use_value(home, side)?;
    cells.answered(place, got);
    Ok(())
}

/// The cells of a new offer and of its match share what they know, if it has one; the pair goes last in `made`, and the
/// degree of the new offer is answered.
pub fn join(cells: &mut Cells, new: &Standing, other: &Option<Standing>, made: &mut PairList) -> u8
    requires ready { MayJoin cells.old new.now other.now }
    requires none { made.old.items ≡ [] }
    requires room { 1 ≤ made.old.room }
    ensures cells { Joined cells.old cells.new new.now other.now }
    ensures made { made.new.items ≡ made_with new.now other.now }
    ensures degree { result ≡ degree_with other.now }
{
    match other {
        None => 1,
        Some(other) => {
            cells.couple(other.place, new.place);
            made.push_reserved(pair_of(other, new));
            2
        }
    }
}
