use crate::bytes::bytes_of;
use crate::calls::look_at;
use anyhow::Result;
use apl_arrays::Bytes;
use apl_workspace::{What, Workspace};
use case_tables::{Calls, Looks};
use case_workspaces::{offers_text, workspace_of};
use std::alloc::Global;
use std::fmt;
use ws_codec::{CodecRefused, Saved, SavedRule, read};

// Steps that make a workspace, and the bytes that it is saved as.
const STEPS: &str = "assign X N()3 · define F B⋄B · mark Y C(2)'AB' S 10 · mark Z - Z 0 · count 7";

const BYTES: &str =
    "41504C53 02 00000003 03 0146 0003 462042 0001 0001 42 01 0158 00 0000000000000003 02 0159 01 00000002 4142 02 0159 0153 0000000A 015A 015A 00000000";

// Bytes that break a rule, and where.
const WRONG: [(&str, u64, SavedRule); 5] = [
    ("42504C53", 0, SavedRule::Magic),
    ("41504C53 03", 4, SavedRule::Version),
    ("41504C53 01 0000", 7, SavedRule::Short),
    ("41504C53 01 00000000 00", 9, SavedRule::Rest),
    (
        "41504C53 02 00000000 01 0158 0159 00000001",
        14,
        SavedRule::Offer,
    ),
];

/// A workspace that is saved and read, bytes that break rules, and the texts of refusals.
#[derive(Clone, Copy, Debug)]
pub struct Codec;

impl Calls for Codec {
    fn make(&self, alloc: Global, looks: &mut Looks) -> Result<()> {
        let wanted = bytes_of(alloc, BYTES)?;
        look_at_bytes(alloc, &wanted, looks)?;
        look_at_read(alloc, &wanted, looks)?;
        drop(wanted);
        look_at_wrong(alloc, looks)?;
        name_refusals(alloc, looks)
    }
}

// The bytes of a workspace, at the second time where memory was refused at the first, or nothing where it has none.
fn saved_at_last(alloc: Global, ws: &Workspace) -> Option<Bytes> {
    if ws.depth() > 0 {
        return None;
    }
    match ws_codec::bytes_of(alloc, ws) {
        Ok(bytes) => Some(bytes),
        Err(_) => ws_codec::bytes_of(alloc, ws).ok(),
    }
}

// What bytes hold, at the second time where memory was refused at the first, or why they hold nothing.
fn read_at_last(alloc: Global, bytes: &[u8]) -> Result<Saved, CodecRefused> {
    match read(alloc, bytes) {
        Err(CodecRefused::WantOfMemory) => read(alloc, bytes),
        outcome => outcome,
    }
}

// The bytes that a workspace is saved as.
fn look_at_bytes(alloc: Global, wanted: &[u8], looks: &mut Looks) -> Result<()> {
    let ws = workspace_of(alloc, STEPS)?;
    let bytes = saved_at_last(alloc, &ws);
    drop(ws);
    looks.holds(bytes.is_some_and(|bytes| bytes.as_slice() == wanted));
    Ok(())
}

// What bytes hold.
fn look_at_read(alloc: Global, bytes: &[u8], looks: &mut Looks) -> Result<()> {
    match read_at_last(alloc, bytes) {
        Ok(saved) => {
            let looked = look_at_saved(alloc, &saved, looks);
            drop(saved);
            looked
        }
        Err(_) => {
            looks.holds(false);
            Ok(())
        }
    }
}

// A workspace without shares, of which nothing is printed, and its offers.
fn look_at_saved(alloc: Global, saved: &Saved, looks: &mut Looks) -> Result<()> {
    let ws = &saved.workspace;
    let names = ws.all_names()?.as_slice().len();
    let shares = ws.names(What::Shares)?.as_slice().len();
    let listed = ws.remakes()?.as_slice().len();
    let offers = offers_text(alloc, saved.remakes.as_slice())?;
    let is_plain = ws.weight() == 11 && ws.depth() == 0 && ws.printed() == 0;
    let is_told = offers.as_str() == "Y S 10, Z Z 0";
    look_at(
        looks,
        &[is_plain, names == 3, shares == 0, listed == 0, is_told],
    );
    Ok(())
}

// Whether bytes break this rule there.
fn breaks(alloc: Global, bytes: &[u8], at: u64, broken: SavedRule) -> bool {
    match read_at_last(alloc, bytes) {
        Ok(saved) => {
            drop(saved);
            false
        }
        Err(refused) => {
            refused
                == CodecRefused::BadBytes {
                    offset: at,
                    rule: broken,
                }
        }
    }
}

fn look_at_wrong(alloc: Global, looks: &mut Looks) -> Result<()> {
    for (pieces, at, broken) in WRONG {
        let bytes = bytes_of(alloc, pieces)?;
        looks.holds(breaks(alloc, &bytes, at, broken));
    }
    Ok(())
}

// Counts a case, which differs where a refusal has another text.
fn look_at_text<T: fmt::Display>(
    alloc: Global,
    refusal: &T,
    text: &str,
    looks: &mut Looks,
) -> Result<()> {
    looks.holds(refusal.to_string(alloc)?.as_str() == text);
    Ok(())
}

fn name_refusals(alloc: Global, looks: &mut Looks) -> Result<()> {
    let size = CodecRefused::BadBytes {
        offset: 12,
        rule: SavedRule::Size,
    };
    look_at_text(alloc, &size, "size at byte 12", looks)?;
    look_at_text(alloc, &CodecRefused::WantOfMemory, "out of memory", looks)?;
    look_at_text(alloc, &SavedRule::Glyph, "glyph", looks)
}
