use crate::bytes::bytes_of;
use anyhow::{Result, bail, ensure};
use apl_arrays::{Bytes, Name};
use apl_workspace::Workspace;
use case_fields::glyphs_text;
use case_workspaces::{STEP_END, offers_text, seen_text, workspace_of};
use std::alloc::Global;
use ws_codec::{CodecRefused, Saved, read};

// Of more names than these it is only said how many there are.
const NAMES_SHOWN: usize = 20;

// What stands between the fields of what is wanted.
const FIELD_END: &str = " ¦ ";

// A name of a workspace, and what it stands for.
fn name_text(alloc: Global, ws: &Workspace, name: &Name) -> Result<String> {
    let mut text = glyphs_text(alloc, name.glyphs())?;
    text.push(' ')?;
    text.push_str(seen_text(alloc, ws.global(name))?.as_str())?;
    Ok(text)
}

// Names of a workspace, and what each stands for.
fn each_text(alloc: Global, ws: &Workspace, names: &[Name]) -> Result<String> {
    let mut texts = Vec::new(alloc);
    for name in names {
        texts.push(name_text(alloc, ws, name)?)?;
    }
    Ok(texts.join(alloc, STEP_END)?)
}

// The names of a workspace and what each stands for, or how many there are and what they weigh.
fn names_text(alloc: Global, ws: &Workspace) -> Result<String> {
    let names = ws.all_names()?;
    let names = names.as_slice();
    let (count, weight) = (names.len(), ws.weight());
    if count > NAMES_SHOWN {
        Ok(format!(in alloc; "{count} names, weight {weight}")?)
    } else {
        each_text(alloc, ws, names)
    }
}

// Adds a field, which is `-` where the text is empty.
fn push_field(text: &mut String, field: &str) -> Result<()> {
    text.push_str(FIELD_END)?;
    text.push_str(if field.is_empty() { "-" } else { field })?;
    Ok(())
}

// The names and the offers of what bytes hold.
fn held_text(alloc: Global, saved: &Saved) -> Result<String> {
    let mut text = String::from_str(alloc, "ok")?;
    push_field(&mut text, names_text(alloc, &saved.workspace)?.as_str())?;
    push_field(
        &mut text,
        offers_text(alloc, saved.remakes.as_slice())?.as_str(),
    )?;
    Ok(text)
}

// Where bytes break a rule, and which.
fn refused_text(alloc: Global, refused: CodecRefused) -> Result<String> {
    match refused {
        CodecRefused::BadBytes { offset, rule } => Ok(format!(in alloc; "bad {offset} {rule}")?),
        CodecRefused::WantOfMemory => bail!("out of memory"),
    }
}

/// What bytes hold, or where they break a rule, and which.
pub fn read_text(alloc: Global, bytes: &str) -> Result<String> {
    let bytes = bytes_of(alloc, bytes)?;
    let outcome = read(alloc, &bytes);
    drop(bytes);
    match outcome {
        Ok(saved) => {
            let text = held_text(alloc, &saved);
            drop(saved);
            text
        }
        Err(refused) => refused_text(alloc, refused),
    }
}

// The bytes of a workspace.
fn bytes_of_workspace(alloc: Global, ws: &Workspace) -> Result<Bytes> {
    ensure!(ws.depth() == 0, "a function is under way");
    Ok(ws_codec::bytes_of(alloc, ws)?)
}

/// `saved` where the workspace that steps make is saved as these bytes, else the bytes that it is saved as.
pub fn saved_text(alloc: Global, steps: &str, wanted: &str) -> Result<String> {
    let ws = workspace_of(alloc, steps)?;
    let bytes = bytes_of_workspace(alloc, &ws);
    drop(ws);
    let bytes = bytes?;
    let wanted = bytes_of(alloc, wanted)?;
    if bytes.as_slice() == wanted.as_slice() {
        Ok(String::from_str(alloc, "saved")?)
    } else {
        Ok(hex::encode_upper(alloc, bytes.as_slice())?)
    }
}
