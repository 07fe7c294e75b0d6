ghost use Rattle.std.specs.Prelude.{◌≡◌, ◌++◌, [], IfOk, OnOk};
ghost use Rattle.std.specs.List.{flat_map};
ghost use Rattle.ws_codec.specs.SavedText.{offer_bytes, offers_bytes, saved};

use crate::numbers::{add_bytes, add_name, add_number32};
use crate::written_objects::add_objects;
use apl_arrays::{Bytes, List, WantOfMemory};
use apl_workspace::{Remake, Workspace};
use std::alloc::Global;

/// The bytes of a workspace and its offers, version 2. The own copies of shared variables become plain variables; a share
/// without a value is left out. It takes memory for the bytes, for the names of the workspace and for its offers.
pub fn bytes_of(alloc: Global, ws: &Workspace) -> Result<Bytes, WantOfMemory>
    requires { ws.now.frames ≡ [] }
    ensures { IfOk result (λ bytes. bytes.items ≡ saved ws.now) }
{
    let mut bytes = Vec::new(alloc);
    add_bytes(&mut bytes, b"APLS")?;
    bytes.push(2)?;
    add_objects(&mut bytes, ws)?;
    add_offers(&mut bytes, ws)?;
    Ok(List::from(bytes))
}

/// Adds the offers of a workspace, behind how many they are.
fn add_offers(bytes: &mut Vec<u8>, ws: &Workspace) -> Result<(), WantOfMemory>
    ensures { OnOk result (bytes.new.items ≡ bytes.old.items ++ offers_bytes ws.now.offers) }
{
    let offers = ws.remakes()?;
    let offers = offers.as_slice();
    bytes.push(offers.len() as u8)?;
    add_each(bytes, offers)
}

/// Adds these offers.
fn add_each(bytes: &mut Vec<u8>, offers: &[Remake]) -> Result<(), WantOfMemory>
    ensures { OnOk result (bytes.new.items ≡ bytes.old.items ++ flat_map offer_bytes offers.now) }
{
    for offer in offers {
        add_offer(bytes, offer)?;
    }
    Ok(())
}

/// Adds an offer: its name here, its name for others, and for whom it is.
fn add_offer(bytes: &mut Vec<u8>, offer: &Remake) -> Result<(), WantOfMemory>
    ensures { OnOk result (bytes.new.items ≡ bytes.old.items ++ offer_bytes offer.now) }
{
    add_name(bytes, &offer.local)?;
    add_name(bytes, &offer.surrogate)?;
    add_number32(bytes, offer.to)
}
