ghost use Rattle.std.specs.Prelude.{◌≡◌, ◌==◌, ◌||◌};
ghost use Rattle.ws_codec.specs.Reading.{Gives};
ghost use Rattle.ws_codec.specs.Saved.{ReadsSaved, offers_of_version, flaw_place, plain_saved, read_saved, read_version};

use crate::cursor::Cursor;
use crate::objects::read_objects;
use crate::offers::read_offers;
use crate::saved::{CodecRefused, Saved, SavedRule};
use crate::unread::{Flaw, Unread, keeps};
use apl_arrays::List;
use apl_workspace::{RemakeList, Workspace};
use std::alloc::Global;

/// The workspace that bytes of version 1 or 2 hold, and the offers that are to be made again, in their order. `BadBytes`
/// tells the first field that breaks a rule, unless memory ran out, which `WantOfMemory` says, whatever the bytes hold. It
/// takes memory for the workspace and the offers, and none for what the bytes do not hold.
pub fn read(alloc: Global, bytes: &[u8]) -> Result<Saved, CodecRefused>
    ensures { ReadsSaved result bytes.now }
{
    match read_saved(alloc, bytes) {
        Ok(saved) => Ok(saved),
        Err(Unread::Flawed(flaw)) => Err(bad_bytes(bytes.len(), flaw)),
        Err(Unread::WantOfMemory) => Err(CodecRefused::WantOfMemory),
    }
}

/// Why bytes of this length are refused where a rule is broken.
fn bad_bytes(count: usize, flaw: Flaw) -> CodecRefused
    ensures { result ≡ CodecRefused.BadBytes (flaw_place count flaw).0 (flaw_place count flaw).1 }
{
    CodecRefused::BadBytes {
        offset: count.saturating_sub(flaw.left) as u64,
        rule: flaw.rule,
    }
}

/// Reads objects and offers to the end of the bytes.
#[tactic(auto, unfolding(crate::specs::Saved::read_saved))]
fn read_saved(alloc: Global, bytes: &[u8]) -> Result<Saved, Unread>
    ensures { Gives plain_saved result (read_saved bytes.now) }
{
    let mut cursor = Cursor::new(bytes);
    let version = read_version(&mut cursor)?;
    let workspace = read_objects(alloc, &mut cursor)?;
    let remakes = read_offers_of(alloc, version, &workspace, &mut cursor)?;
    let left = cursor.left();
    keeps(left == 0, SavedRule::Rest, left)?;
    Ok(Saved { workspace, remakes })
}

/// Reads the bytes in front, and the version.
#[tactic(auto, unfolding(crate::specs::Saved::read_version))]
fn read_version(cursor: &mut Cursor<'_>) -> Result<u8, Unread>
    ensures { Gives (λ version. (version, cursor.new)) result (read_version cursor.old) }
{
    let front = cursor.left();
    let right = cursor.begins_with(b"APLS")?;
    keeps(right, SavedRule::Magic, front)?;
    let left = cursor.left();
    let version = cursor.byte()?;
    keeps(is_version(version), SavedRule::Version, left)?;
    Ok(version)
}

/// Whether there is such a version.
fn is_version(version: u8) -> bool
    ensures { result ≡ (version == 1 || version == 2) }
{
    version == 1 || version == 2
}

/// Reads the offers of a version: the first has none.
#[tactic(auto, unfolding(crate::specs::Saved::offers_of_version))]
fn read_offers_of(
    alloc: Global,
    version: u8,
    workspace: &Workspace,
    cursor: &mut Cursor<'_>,
) -> Result<RemakeList, Unread>
    ensures { Gives (λ offers. (offers.items, cursor.new)) result (offers_of_version version workspace.now.globals cursor.old) }
{
    if version == 1 {
        Ok(List::new(alloc))
    } else {
        read_offers(alloc, workspace, cursor)
    }
}
