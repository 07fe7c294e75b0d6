ghost use Rattle.std.specs.Prelude.{◌≡◌, IfOk};
ghost use Rattle.apl_session.specs.declared.session.SessionStage.TheVariants.{Ready};

use crate::calls::failing::failing_at;
use anyhow::{Result, bail};
use apl_arrays::{LineList, glyphs_of};
use apl_io::MemoryShelf;
use apl_session::Session;
use bundle_text::{Bundle, BundleRefused, read};
use std::alloc::Global;

/// The session of a user with these lines, which is lent an empty shelf whose second call fails.
pub fn session_of(alloc: Global, user: u32, texts: &[&str]) -> Result<Session<MemoryShelf>>
    ensures { IfOk result (λ session. session.stage ≡ Ready) }
{
    let mut lines = LineList::new(alloc);
    for text in texts {
        lines.push(glyphs_of(alloc, text.as_bytes())?)?;
    }
    let shelf = MemoryShelf::new(alloc, failing_at(alloc, 2)?);
    Ok(Session::new(alloc, user, lines, shelf))
}

/// The bundle that a text is of, or none where it is refused as malformed. An `Err` says that memory was refused.
pub fn bundle_of(alloc: Global, text: &str) -> Result<Option<Bundle>> {
    match read(alloc, text.as_bytes()) {
        Ok(bundle) => Ok(Some(bundle)),
        Err(BundleRefused::Malformed { .. }) => Ok(None),
        Err(BundleRefused::WantOfMemory) => bail!("out of memory"),
    }
}
