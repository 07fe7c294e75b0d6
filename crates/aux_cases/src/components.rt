use crate::devices::file_text;
use crate::sessions::{BETWEEN, answers};
use anyhow::{Result, bail};
use apl_io::MemoryText;
use aux_components::Components;
use case_devices::store_of;
use case_tables::Trial;
use std::alloc::Global;

/// Sessions with component files: a file that their store has, the calls of the store that are to fail, and the values given;
/// the answers, and where there is a fifth field a file that the store has afterwards.
#[derive(Clone, Copy, Debug)]
pub struct ComponentSessions;

// The answers of a session, and the file of this name that the store has afterwards.
fn answers_and_file(
    alloc: Global,
    mut files: Components<MemoryText>,
    values: &str,
    file: &str,
) -> Result<String> {
    let told = answers(alloc, &mut files, values);
    let mut store = files.into_store();
    let kept = file_text(alloc, &mut store, file);
    drop(store);
    let (told, kept) = (told?, kept?);
    Ok(format!(in alloc; "{told} ¦ {kept}")?)
}

// The answers of a session.
fn answers_alone(alloc: Global, mut files: Components<MemoryText>, values: &str) -> Result<String> {
    let told = answers(alloc, &mut files, values);
    drop(files);
    told
}

impl Trial for ComponentSessions {
    fn given(&self) -> usize {
        3
    }

    fn found(&self, alloc: Global, fields: &[&str]) -> Result<String> {
        let [file, fails, values, wanted @ ..] = fields else {
            bail!("a file, calls and values are wanted");
        };
        let files = Components::new(alloc, store_of(alloc, *file, *fails)?);
        match wanted {
            [_, after] => answers_and_file(alloc, files, *values, *after),
            _ => answers_alone(alloc, files, *values),
        }
    }
}

/// Values given to component files in each state of their protocol: the calls of the store that are to fail, and a value; what
/// the value is answered between requests, while an array is held and while a file waits for an array, and then NEXT, and
/// COUNT of that file, and NEXT again.
#[derive(Clone, Copy, Debug)]
pub struct ComponentRequests;

// What leads to each state.
const BEFORE: [&str; 3] = ["'NEXT'", "'GET A 1'", "'APPEND A'"];

// What a value, and what shows the state behind it, is answered behind what leads to a state.
fn answers_behind(alloc: Global, before: &str, fails: &str, value: &str) -> Result<String> {
    let store = store_of(alloc, "A:N(3)1 2 3\\nC(2)'XY'\\n", fails)?;
    let mut files = Components::new(alloc, store);
    let told = answers_then(alloc, &mut files, before, value);
    drop(files);
    told
}

// The same of component files.
fn answers_then(
    alloc: Global,
    files: &mut Components<MemoryText>,
    before: &str,
    value: &str,
) -> Result<String> {
    drop(answers(alloc, files, before)?);
    let values = format!(in alloc; "{value}{BETWEEN}'NEXT'{BETWEEN}'COUNT A'{BETWEEN}'NEXT'")?;
    answers(alloc, files, values.as_str())
}

impl Trial for ComponentRequests {
    fn given(&self) -> usize {
        2
    }

    fn found(&self, alloc: Global, fields: &[&str]) -> Result<String> {
        let [fails, value, ..] = fields else {
            bail!("calls and a value are wanted");
        };
        let mut text = String::new(alloc);
        for (at, before) in BEFORE.iter().enumerate() {
            if at > 0 {
                text.push_str(" ¦ ")?;
            }
            let told = answers_behind(alloc, *before, *fails, *value)?;
            text.push_str(told.as_str())?;
        }
        Ok(text)
    }
}
