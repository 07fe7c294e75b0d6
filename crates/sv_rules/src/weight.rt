ghost use Rattle.std.specs.Prelude.{◌≡◌, min};
ghost use Rattle.sv_events.specs.Entry.{plain_entry};
ghost use Rattle.sv_rules.specs.Entries.{entry_weight};

use crate::limits::HELD_LIMIT;
use sv_events::Entry;

/// How many elements an entry weighs, up to the limit.
pub fn capped_weight(entry: &Entry) -> u64
    ensures { result ≡ min (entry_weight (plain_entry entry.now)) HELD_LIMIT }
{
    entry
        .act
        .weight()
        .saturating_add(entry.answer.weight())
        .min(HELD_LIMIT)
}
