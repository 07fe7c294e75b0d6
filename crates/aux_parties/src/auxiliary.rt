ghost use Rattle.std.specs.Prelude.{◌≡◌, ◌⊎◌, ◌↔◌, ℕ, IsTrue};
ghost use Rattle.aux_parties.specs.Auxiliaries.{auxiliaries, auxiliary_at, has_row, is_auxiliary, most_counters, row_among};

use apl_arrays::OFFER_LIMIT;

/// What an auxiliary party is.
#[derive(Clone, Copy, Debug, PartialEq, Eq)]
pub enum AuxiliaryKind {
    /// It answers with readings of the clock.
    Clock,
    /// It reads and writes text files.
    TextFiles,
}

/// A row of the table of auxiliary parties: what the party is, its number, and how many of its counter-offers may stand.
#[derive(Clone, Copy, Debug, PartialEq, Eq)]
pub struct AuxiliaryRow {
    pub kind: AuxiliaryKind,
    pub party: u32,
    pub counters: usize,
}

/// The number of the clock.
pub const CLOCK_PARTY: u32 = 10;

/// The number of the text files.
pub const TEXT_PARTY: u32 = 20;

/// The table: the auxiliary parties, in the order in which they have their turns.
pub const AUXILIARIES: [AuxiliaryRow; 2] = [
    AuxiliaryRow {
        kind: AuxiliaryKind::Clock,
        party: CLOCK_PARTY,
        counters: OFFER_LIMIT,
    },
    AuxiliaryRow {
        kind: AuxiliaryKind::TextFiles,
        party: TEXT_PARTY,
        counters: 1,
    },
];

// Whether one of these rows is the party's.
fn has_row(rows: &[AuxiliaryRow], party: u32) -> bool
    ensures { result ≡ has_row rows.now party }
{
    rows.iter().any(|row| row.party == party)
}

// The row of a party among some rows, if it has one.
fn row_among(rows: &[AuxiliaryRow], party: u32) -> Option<AuxiliaryRow>
    ensures { result ≡ row_among rows.now party }
{
    rows.iter().find(|row| row.party == party).copied()
}

/// The row of a party, if it is an auxiliary.
pub fn auxiliary_at(party: u32) -> Option<AuxiliaryRow>
    ensures { result ≡ auxiliary_at party }
{
    row_among(&AUXILIARIES, party)
}

/// Whether the party is an auxiliary: the table has a row for it.
pub fn is_auxiliary(party: u32) -> bool
    ensures { result ≡ is_auxiliary party }
{
    has_row(&AUXILIARIES, party)
}

/// How many of its counter-offers may stand, where the party is an auxiliary, and none of another.
pub fn most_counters(party: u32) -> usize
    ensures { result ≡ most_counters party }
{
    match auxiliary_at(party) {
        None => 0,
        Some(row) => row.counters,
    }
}

/// The auxiliary parties are 10, of which as many counter-offers may stand as a party may have offers, and 20, of which one
/// may; and the table of the code is that of the definitions. The call does nothing.
pub fn auxiliaries_are_ten_and_twenty()
    ensures table { AUXILIARIES ≡ auxiliaries }
    ensures parties { (party : ℕ) → IsTrue (is_auxiliary party) ↔ ((party ≡ 10) ⊎ (party ≡ 20)) }
    ensures clock { most_counters 10 ≡ 64 }
    ensures text_files { most_counters 20 ≡ 1 }
{}
