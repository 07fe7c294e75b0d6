ghost use Rattle.std.specs.Prelude.{◌≡◌, IfOk};
ghost use Rattle.ws_commands.specs.Mention.{mentions_of};

use apl_arrays::{Name, WantOfMemory};
use std::alloc::Global;
use std::collections::BTreeSet;

/// A name that a command mentions, and whether it mentioned it before.
#[derive(Clone, Copy, Debug)]
pub(crate) struct Mention {
    pub name: Name,
    pub repeated: bool,
}

/// Each of the names, and whether it is one of those before it. It takes memory for them.
pub(crate) fn mentions_of(alloc: Global, names: &[Name]) -> Result<Vec<Mention>, WantOfMemory>
    ensures { IfOk result (λ mentions. mentions.items ≡ mentions_of names.now) }
{
    let mut mentioned = BTreeSet::new(alloc);
    let mut mentions = Vec::new(alloc);
    for name in names {
        let new = mentioned.insert(*name)?;
        mentions.push(Mention {
            name: *name,
            repeated: !new,
        })?;
    }
    Ok(mentions)
}
