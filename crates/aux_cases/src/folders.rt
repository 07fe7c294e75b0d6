use crate::room::{make_room, room_step};
use crate::sessions::BETWEEN;
use crate::shelf::shelf_step;
use crate::store::store_step;
use anyhow::{Result, bail};
use aplsv_devices::{DirShelf, DirText};
use case_tables::Trial;
use std::alloc::Global;

/// The mark of what the cases write.
const MARK: u32 = 7;

/// Scripts of a shelf in a folder: the folder, which is made anew, and the steps; what they give.
#[derive(Clone, Copy)]
pub struct FolderShelves {
    pub rt: HostRuntime,
}

/// Scripts of a text store in a folder: the folder, which is made anew, and the steps; what they give.
#[derive(Clone, Copy)]
pub struct FolderStores {
    pub rt: HostRuntime,
}

// What a step gives, in the folder or of the shelf.
fn shelf_or_room(
    rt: &HostRuntime,
    shelf: &mut DirShelf<HostRuntime>,
    room: &str,
    text: &str,
) -> Result<String> {
    match room_step(rt, room, text)? {
        Some(told) => Ok(told),
        None => shelf_step(rt.alloc(), shelf, text),
    }
}

// What a step gives, in the folder or of the store.
fn store_or_room(
    rt: &HostRuntime,
    store: &mut DirText<HostRuntime>,
    room: &str,
    text: &str,
) -> Result<String> {
    match room_step(rt, room, text)? {
        Some(told) => Ok(told),
        None => store_step(rt.alloc(), store, text),
    }
}

// What steps of a shelf give, one after another.
fn shelf_steps(
    rt: &HostRuntime,
    shelf: &mut DirShelf<HostRuntime>,
    room: &str,
    steps: &str,
) -> Result<String> {
    let mut text = String::new(rt.alloc());
    for (at, part) in steps.split(BETWEEN).enumerate() {
        if at > 0 {
            text.push_str(BETWEEN)?;
        }
        text.push_str(shelf_or_room(rt, shelf, room, part)?.as_str())?;
    }
    Ok(text)
}

// What steps of a store give, one after another.
fn store_steps(
    rt: &HostRuntime,
    store: &mut DirText<HostRuntime>,
    room: &str,
    steps: &str,
) -> Result<String> {
    let mut text = String::new(rt.alloc());
    for (at, part) in steps.split(BETWEEN).enumerate() {
        if at > 0 {
            text.push_str(BETWEEN)?;
        }
        text.push_str(store_or_room(rt, store, room, part)?.as_str())?;
    }
    Ok(text)
}

impl Trial for FolderShelves {
    fn given(&self) -> usize {
        2
    }

    fn found(&self, _alloc: Global, fields: &[&str]) -> Result<String> {
        let [room, steps, ..] = fields else {
            bail!("a folder and steps are wanted");
        };
        make_room(&self.rt, *room)?;
        let mut shelf = DirShelf::new(self.rt, MARK);
        let told = shelf_steps(&self.rt, &mut shelf, *room, *steps);
        drop(shelf);
        told
    }
}

impl Trial for FolderStores {
    fn given(&self) -> usize {
        2
    }

    fn found(&self, _alloc: Global, fields: &[&str]) -> Result<String> {
        let [room, steps, ..] = fields else {
            bail!("a folder and steps are wanted");
        };
        make_room(&self.rt, *room)?;
        let mut store = DirText::new(self.rt, MARK);
        let told = store_steps(&self.rt, &mut store, *room, *steps);
        drop(store);
        told
    }
}
