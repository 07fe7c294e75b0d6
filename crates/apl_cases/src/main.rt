// Runs the tables of the folder that it is started in against the crates of arrays, of what is shown of them and of functions,
// makes calls of these one after another, and prints how each came out.
#![tactic(auto)]

mod arrays;
mod calls;
mod functions;
mod glyphs;
mod names;
mod reports;

use anyhow::{Result, bail};
use arrays::{equality_text, format_text, item_text, lines_text, scalar_text, shape_text};
use calls::all_calls;
use case_tables::{Trial, conclude, run_tables};
use functions::function_tables;
use glyphs::{code_text, refusal_place};
use names::{file_name_order, file_name_text, name_order, name_text, word_text};
use reports::{refusal_text, report_text};
use std::alloc::Global;
use std::process::ExitCode;

// What a table tries: the top of the table says what its fields are.
#[derive(Clone, Copy, Debug)]
enum Topic {
    Glyphs,
    BadGlyphs,
    Names,
    FileNames,
    Words,
    NameOrder,
    FileNameOrder,
    Shapes,
    Equality,
    Scalars,
    Items,
    Reports,
    Refusals,
    Lines,
    Formats,
}

impl Trial for Topic {
    fn given(&self) -> usize {
        match self {
            Topic::NameOrder | Topic::FileNameOrder => 2,
            Topic::Shapes | Topic::Equality | Topic::Items => 2,
            _ => 1,
        }
    }

    fn found(&self, alloc: Global, fields: &[&str]) -> Result<String> {
        let [first, second, ..] = fields else {
            bail!("two fields are wanted");
        };
        match self {
            Topic::Glyphs => code_text(alloc, first),
            Topic::BadGlyphs => refusal_place(alloc, first),
            Topic::Names => name_text(alloc, first),
            Topic::FileNames => file_name_text(alloc, first),
            Topic::Words => word_text(alloc, first),
            Topic::NameOrder => name_order(alloc, first, second),
            Topic::FileNameOrder => file_name_order(alloc, first, second),
            Topic::Shapes => shape_text(alloc, first, second),
            Topic::Equality => equality_text(alloc, first, second),
            Topic::Scalars => scalar_text(alloc, first),
            Topic::Items => item_text(alloc, first, second),
            Topic::Reports => report_text(alloc, first),
            Topic::Refusals => refusal_text(alloc, first),
            Topic::Lines => lines_text(alloc, first),
            Topic::Formats => format_text(alloc, first),
        }
    }
}

fn main(rt: HostRuntime) -> Result<ExitCode> {
    let tables = [
        ("glyphs.txt", Topic::Glyphs),
        ("bad_glyphs.txt", Topic::BadGlyphs),
        ("names.txt", Topic::Names),
        ("file_names.txt", Topic::FileNames),
        ("words.txt", Topic::Words),
        ("name_order.txt", Topic::NameOrder),
        ("file_name_order.txt", Topic::FileNameOrder),
        ("shapes.txt", Topic::Shapes),
        ("equality.txt", Topic::Equality),
        ("scalars.txt", Topic::Scalars),
        ("items.txt", Topic::Items),
        ("reports.txt", Topic::Reports),
        ("refusals.txt", Topic::Refusals),
        ("lines.txt", Topic::Lines),
        ("formats.txt", Topic::Formats),
    ];
    let mut tally = run_tables(&rt, &tables)?;
    tally.add(function_tables(&rt)?);
    tally.add(all_calls(&rt)?);
    conclude(&rt, tally)
}
