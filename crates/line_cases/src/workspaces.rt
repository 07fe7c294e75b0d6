mod definitions;
mod executing;
mod headers;

use self::definitions::definition_text;
use self::executing::{executed_text, merging};
use self::headers::header_text;
use anyhow::{Result, bail};
use case_tables::{Tally, Trial, run_tables};
use case_workspaces::script_text;
use std::alloc::Global;

// What a table tries: the top of the table says what its fields are.
#[derive(Clone, Copy, Debug)]
enum Topic {
    Headers,
    Scripts,
    Definitions,
    Texts,
    Merges,
}

impl Trial for Topic {
    fn given(&self) -> usize {
        match self {
            Topic::Headers | Topic::Scripts | Topic::Texts => 1,
            Topic::Definitions => 2,
            Topic::Merges => 3,
        }
    }

    fn found(&self, alloc: Global, fields: &[&str]) -> Result<String> {
        match (self, fields) {
            (Topic::Headers, [line, ..]) => header_text(alloc, line),
            (Topic::Scripts, [steps, asked, ..]) => script_text(alloc, steps, asked),
            (Topic::Definitions, [steps, lines, _, asked, ..]) => definition_text(
                alloc, steps, lines, asked,
            ),
            (Topic::Texts, [value, ..]) => executed_text(alloc, value),
            (Topic::Merges, [into, from, names, _, asked, ..]) => merging(
                alloc, into, from, names, asked,
            ),
            _ => bail!("a field is wanting"),
        }
    }
}

/// Runs the tables of workspaces, of the editor and of executed texts.
pub fn workspace_tables(rt: &HostRuntime) -> Result<Tally> {
    let tables = [
        ("headers.txt", Topic::Headers),
        ("workspaces.txt", Topic::Scripts),
        ("editor.txt", Topic::Definitions),
        ("texts.txt", Topic::Texts),
        ("merges.txt", Topic::Merges),
    ];
    run_tables(rt, &tables)
}
