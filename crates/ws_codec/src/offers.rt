ghost use Rattle.std.specs.Prelude.{◌≡◌, [], OnOk};
ghost use Rattle.ws_codec.specs.Offers.{is_free, is_function_in, is_offered, read_next_offer, read_offers};
ghost use Rattle.ws_codec.specs.Reading.{Gives, repeated};

use crate::cursor::Cursor;
use crate::saved::SavedRule;
use crate::unread::{Unread, keeps};
use apl_arrays::{List, Name, OFFER_LIMIT};
use apl_workspace::{Remake, RemakeList, Seen, Workspace, is_addressee};
use std::alloc::Global;

/// Reads how many offers there are, and the offers. It takes memory for them.
#[tactic(auto, unfolding(crate::specs::Offers::read_offers))]
pub fn read_offers(
    alloc: Global,
    ws: &Workspace,
    cursor: &mut Cursor<'_>,
) -> Result<RemakeList, Unread>
    ensures { Gives (λ offers. (offers.items, cursor.new)) result (read_offers ws.now.globals cursor.old) }
{
    let left = cursor.left();
    let count = cursor.byte()?;
    keeps(count as usize <= OFFER_LIMIT, SavedRule::Limit, left)?;
    let offers = read_counted(alloc, ws, count, cursor)?;
    Ok(offers)
}

/// Reads so many offers.
fn read_counted(
    alloc: Global,
    ws: &Workspace,
    count: u8,
    cursor: &mut Cursor<'_>,
) -> Result<RemakeList, Unread>
    ensures { Gives (λ offers. (offers.items, cursor.new)) result (repeated (read_next_offer ws.now.globals) count [] cursor.old) }
{
    let mut offers = List::new(alloc);
    for _ in 0..count {
        add_offer(alloc, ws, &mut offers, cursor)?;
    }
    Ok(offers)
}

/// Reads an offer behind others.
#[tactic(auto, unfolding(crate::specs::Offers::offer_behind))]
fn add_offer(
    alloc: Global,
    ws: &Workspace,
    offers: &mut RemakeList,
    cursor: &mut Cursor<'_>,
) -> Result<(), Unread>
    ensures { Gives (λ _. (offers.new.items, cursor.new)) result (read_next_offer ws.now.globals offers.old.items cursor.old) }
{
    let left = cursor.left();
    let local = cursor.name(alloc)?;
    keeps(is_free(ws, offers, &local), SavedRule::Offer, left)?;
    let surrogate = cursor.name(alloc)?;
    let left = cursor.left();
    let to = cursor.number32()?;
    keeps(is_addressee(to), SavedRule::Offer, left)?;
    let offer = Remake {
        local,
        surrogate,
        to,
    };
    offers.push(offer)?;
    Ok(())
}

/// Whether an offer of the name may come behind others.
fn is_free(ws: &Workspace, offers: &RemakeList, name: &Name) -> bool
    ensures { result ≡ is_free ws.now.globals offers.now.items name.now }
{
    !is_offered(offers.as_slice(), name) && !is_function(ws, name)
}

/// Whether one of the offers is of this name.
fn is_offered(offers: &[Remake], name: &Name) -> bool
    ensures { result ≡ is_offered offers.now name.now }
{
    offers.iter().any(|offer| offer.local == *name)
}

/// Whether the name is a function of the workspace.
fn is_function(ws: &Workspace, name: &Name) -> bool
    ensures { result ≡ is_function_in ws.now.globals name.now }
{
    matches!(ws.global(name), Seen::Function(_))
}
