ghost use Rattle.std.specs.Prelude.{◌≡◌, IfOk, option_copied, option_map};
ghost use Rattle.apl_io.specs.Content.{MayRead};
ghost use Rattle.apl_io.specs.Replies.{plain_bytes};

use crate::{Bytes, WantOfMemory};
use std::alloc::Global;

/// The bytes of an entry again: `None` where there is none, or where they are told no more. It takes memory for them.
pub(crate) fn copy_kept(
    alloc: Global,
    kept: Option<&Option<Bytes>>,
) -> Result<Option<Bytes>, WantOfMemory>
    ensures { IfOk result (λ copy. MayRead (option_map plain_bytes (option_copied kept.entry)) (plain_bytes copy)) }
{
    match kept {
        Some(Some(bytes)) => Ok(Some(bytes.copy(alloc)?)),
        _ => Ok(None),
    }
}

/// The same bytes. It takes memory for them.
pub(crate) fn copy_bytes(alloc: Global, bytes: &[u8]) -> Result<Bytes, WantOfMemory>
    ensures { IfOk result (λ copy. copy.items ≡ bytes.now) }
{
    Ok(Bytes::from(Vec::from_slice(alloc, bytes)?))
}
