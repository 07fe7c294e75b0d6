use anyhow::{Context, Result, bail, ensure};
use apl_arrays::{ArrayRefused, Fail, GlyphRefused, Report, WantOfMemory};
use std::alloc::Global;

fn report_of(name: &str) -> Result<Report> {
    Ok(match name {
        "Character" => Report::Character,
        "Syntax" => Report::Syntax,
        "Value" => Report::Value,
        "Domain" => Report::Domain,
        "Rank" => Report::Rank,
        "Length" => Report::Length,
        "Index" => Report::Index,
        "Defn" => Report::Defn,
        "WsFull" => Report::WsFull,
        "Interrupt" => Report::Interrupt,
        "SvInterrupt" => Report::SvInterrupt,
        "SvFull" => Report::SvFull,
        "SvLimit" => Report::SvLimit,
        _ => bail!("no report: {name}"),
    })
}

/// The text of a report, which a failure tells too.
pub fn report_text(alloc: Global, name: &str) -> Result<String> {
    let report = report_of(name)?;
    let told = Fail::from(report).to_string(alloc)?;
    ensure!(
        told.as_str() == report.text(),
        "a failure tells another text"
    );
    Ok(told)
}

/// The text of a refusal. A place stands behind the name of one that tells it.
pub fn refusal_text(alloc: Global, name: &str) -> Result<String> {
    Ok(match name {
        "ArrayRefused::TooLarge" => ArrayRefused::TooLarge.to_string(alloc)?,
        "ArrayRefused::BadShape" => ArrayRefused::BadShape.to_string(alloc)?,
        "GlyphRefused::WantOfMemory" => GlyphRefused::from(WantOfMemory).to_string(alloc)?,
        "Fail::WantOfMemory" => Fail::from(WantOfMemory).to_string(alloc)?,
        "WantOfMemory" => WantOfMemory.to_string(alloc)?,
        _ => {
            let place = name.strip_prefix("GlyphRefused::BadGlyph ");
            let place = place.context("no refusal")?.parse()?;
            GlyphRefused::BadGlyph(place).to_string(alloc)?
        }
    })
}
