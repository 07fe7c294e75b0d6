ghost use Rattle.std.specs.Prelude.{◌≡◌, false};
ghost use Rattle.std.specs.Option.{option_map_or};
ghost use Rattle.sv_events.specs.Entry.{plain_entry};
ghost use Rattle.apl_arrays.specs.Name.{same_name};
ghost use Rattle.sv_rules.specs.Work.{tries};

use crate::Standing;
use apl_arrays::Name;
use sv_events::{Accessing, Entry};

// Whether the access is on a local name.
fn is_on(local: &Name, access: Option<Accessing>) -> bool
    ensures { result ≡ option_map_or (λ access. same_name access.local local.now) access false }
{
    match access {
        None => false,
        Some(access) => access.local == *local,
    }
}

/// Whether the entry is a set or a use by the offer's party on its local name, whatever its answer.
pub fn tries(offer: &Standing, entry: &Entry) -> bool
    ensures { result ≡ tries offer.now (plain_entry entry.now) }
{
    entry.party == offer.party && is_on(&offer.local, entry.act.row().accesses)
}
