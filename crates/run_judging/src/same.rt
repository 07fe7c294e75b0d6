ghost use Rattle.std.specs.Prelude.{◌≡◌, ◌↔◌, ◌≤◌, ◌∷◌, IsTrue, length};
ghost use Rattle.sv_events.specs.Answer.{plain_answer};
ghost use Rattle.sv_events.specs.Entry.{PlainEntry, plain_entry};
ghost use Rattle.sv_rules.specs.Entries.{Entries};
ghost use Rattle.sv_rules.specs.Journal.{journal_of};

use sv_events::{Act, Answer, Entry, PairList};

/// Whether two acts are the same.
pub(crate) fn same_act(one: &Act, other: &Act) -> bool
    ensures { IsTrue result ↔ (one.now ≡ other.now) }
{
    one == other
}

fn same_answer(one: &Answer, other: &Answer) -> bool
    ensures { IsTrue result ↔ (plain_answer one.now ≡ plain_answer other.now) }
{
    one == other
}

fn same_pairs(one: &PairList, other: &PairList) -> bool
    ensures { IsTrue result ↔ (one.now.items ≡ other.now.items) }
{
    one == other
}

// Whether two entries are the same, whatever room is left in them.
fn same_entry(one: &Entry, other: &Entry) -> bool
    ensures { IsTrue result ↔ ((one.now.party ≡ other.now.party) × (one.now.act ≡ other.now.act) × (plain_answer one.now.answer ≡ plain_answer other.now.answer) × (one.now.made.items ≡ other.now.made.items)) }
{
    one.party == other.party
        && same_act(&one.act, &other.act)
        && same_answer(&one.answer, &other.answer)
        && same_pairs(&one.made, &other.made)
}

/// Whether the newest of some entries, oldest first, is this one.
pub(crate) fn is_newest(entries: &[Entry], entry: &Entry) -> bool
    requires { 1 ≤ length entries.now }
    ensures { (e : PlainEntry) (journal : Entries) → journal_of entries.now ≡ e ∷ journal → IsTrue result ↔ (e ≡ plain_entry entry.now) }
{
    let last = entries.len() - 1;
    same_entry(&entries[last], entry)
}
