use crate::devices::file_text;
use crate::sessions::{BETWEEN, answers};
use anyhow::{Result, bail};
use apl_io::MemoryText;
use auxiliaries::TextAux;
use case_devices::store_of;
use case_tables::Trial;
use std::alloc::Global;

/// Sessions with the text auxiliary: a file that its store has, the calls of the store that are to fail, and the values
/// given to the auxiliary; its answers, and where there is a fifth field a file that the store has afterwards.
#[derive(Clone, Copy, Debug)]
pub struct TextSessions;

// The answers of a session, and the file of this name that the store has afterwards.
fn answers_and_file(
    alloc: Global,
    mut aux: TextAux<MemoryText>,
    values: &str,
    file: &str,
) -> Result<String> {
    let told = answers(alloc, &mut aux, values);
    let mut store = aux.into_store();
    let kept = file_text(alloc, &mut store, file);
    drop(store);
    let (told, kept) = (told?, kept?);
    Ok(format!(in alloc; "{told} ¦ {kept}")?)
}

// The answers of a session.
fn answers_alone(alloc: Global, mut aux: TextAux<MemoryText>, values: &str) -> Result<String> {
    let told = answers(alloc, &mut aux, values);
    drop(aux);
    told
}

impl Trial for TextSessions {
    fn given(&self) -> usize {
        3
    }

    fn found(&self, alloc: Global, fields: &[&str]) -> Result<String> {
        let [file, fails, values, wanted @ ..] = fields else {
            bail!("a file, calls and values are wanted");
        };
        let aux = TextAux::new(alloc, store_of(alloc, *file, *fails)?);
        match wanted {
            [_, after] => answers_and_file(alloc, aux, *values, *after),
            _ => answers_alone(alloc, aux, *values),
        }
    }
}

/// Requests of the text auxiliary in each state of its protocol: the calls of its store that are to fail, and a value;
/// what the value, NEXT and DONE are answered between files, while a file is read, and while one is written.
#[derive(Clone, Copy, Debug)]
pub struct TextRequests;

// What leads to each state.
const BEFORE: [&str; 3] = ["'NEXT'", "'READ NOTES'", "'WRITE OUT' / 'PUT A'"];

// What a value, NEXT and DONE are answered behind what leads to a state.
fn answers_behind(alloc: Global, before: &str, fails: &str, value: &str) -> Result<String> {
    let store = store_of(alloc, "NOTES:ONE\\nTWO\\n", fails)?;
    let mut aux = TextAux::new(alloc, store);
    let told = answers_then(alloc, &mut aux, before, value);
    drop(aux);
    told
}

// The same of an auxiliary.
fn answers_then(
    alloc: Global,
    aux: &mut TextAux<MemoryText>,
    before: &str,
    value: &str,
) -> Result<String> {
    drop(answers(alloc, aux, before)?);
    let values = format!(in alloc; "{value}{BETWEEN}'NEXT'{BETWEEN}'DONE'")?;
    answers(alloc, aux, values.as_str())
}

impl Trial for TextRequests {
    fn given(&self) -> usize {
        2
    }

    fn found(&self, alloc: Global, fields: &[&str]) -> Result<String> {
        let [fails, value, ..] = fields else {
            bail!("calls and a value are wanted");
        };
        let mut text = String::new(alloc);
        for (at, before) in BEFORE.iter().enumerate() {
            if at > 0 {
                text.push_str(" ¦ ")?;
            }
            let told = answers_behind(alloc, *before, *fails, *value)?;
            text.push_str(told.as_str())?;
        }
        Ok(text)
    }
}
