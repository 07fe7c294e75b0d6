ghost use Rattle.std.specs.Prelude.{◌≡◌, ◌↔◌, IsTrue, Some};
ghost use Rattle.apl_arrays.specs.List.{first_of};
ghost use Rattle.sv_events.specs.Answer.{plain_answer};
ghost use Rattle.sv_events.specs.Entry.{plain_entry};
ghost use Rattle.sv_rules.specs.Legal.{IsLegal};

use apl_arrays::Line;
use sv_core::Core;
use sv_events::{Act, Answer, Entry, PairList};

fn same_act(one: &Act, other: &Act) -> bool
    ensures { IsTrue result ↔ (one.now ≡ other.now) }
{
    one == other
}

fn same_answer(one: &Answer, other: &Answer) -> bool
    ensures { IsTrue result ↔ (plain_answer one.now ≡ plain_answer other.now) }
{
    one == other
}

fn same_pairs(one: &PairList, other: &PairList) -> bool
    ensures { IsTrue result ↔ (one.now.items ≡ other.now.items) }
{
    one == other
}

// Whether two entries are the same, whatever room is left in them.
fn same_entry(one: &Entry, other: &Entry) -> bool
    ensures { IsTrue result ↔ ((one.now.party ≡ other.now.party) × (one.now.act ≡ other.now.act) × (plain_answer one.now.answer ≡ plain_answer other.now.answer) × (one.now.made.items ≡ other.now.made.items)) }
{
    one.party == other.party
        && same_act(&one.act, &other.act)
        && same_answer(&one.answer, &other.answer)
        && same_pairs(&one.made, &other.made)
}

/// Whether two lines have the same glyphs.
pub(crate) fn same_line(one: &Line, other: &Line) -> bool
    ensures { IsTrue result ↔ (one.now.items ≡ other.now.items) }
{
    one == other
}

/// Whether the newest entry of a processor is this one.
pub(crate) fn is_newest(core: &Core, entry: &Entry) -> bool
    ensures newest { IsTrue result ↔ (first_of core.now.journal ≡ Some (plain_entry entry.now)) }
    ensures legal { IsLegal core.now.users core.now.journal }
{
    match core.journal().last() {
        None => false,
        Some(newest) => same_entry(newest, entry),
    }
}
