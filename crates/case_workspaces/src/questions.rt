use crate::functions::function_text;
use anyhow::{Context, Result, bail};
use apl_workspace::{Remake, Seen, What, Workspace};
use case_fields::{array_text, name_of, names_text};
use std::alloc::Global;

/// What a name stands for: nothing, or a word and what it is.
pub fn seen_text(alloc: Global, seen: Seen<'_>) -> Result<String> {
    let (word, text) = match seen {
        Seen::Nothing => return Ok(String::from_str(alloc, "nothing")?),
        Seen::Value(value) => ("value", array_text(alloc, value)?),
        Seen::Function(function) => ("function", function_text(alloc, function)?),
        Seen::Label(line) => ("label", line.to_string(alloc)?),
        Seen::Shared(None) => ("shared", String::from_str(alloc, "-")?),
        Seen::Shared(Some(value)) => ("shared", array_text(alloc, value)?),
    };
    Ok(format!(in alloc; "{word} {text}")?)
}

/// The text of offers, each with its two names and for whom it is.
pub fn offers_text(alloc: Global, offers: &[Remake]) -> Result<String> {
    let mut texts = Vec::new(alloc);
    for offer in offers {
        let names = names_text(alloc, &[offer.local, offer.surrogate])?;
        texts.push(format!(in alloc; "{names} {}", offer.to)?)?;
    }
    Ok(texts.join(alloc, ", ")?)
}

// What the workspace answers to a question about a name.
fn answer_of_name(alloc: Global, ws: &Workspace, question: &str) -> Result<String> {
    let (word, name) = question.split_once(" ").context("no question")?;
    let name = name_of(alloc, name)?;
    match word {
        "look" => seen_text(alloc, ws.look(&name)),
        "global" => seen_text(alloc, ws.global(&name)),
        "local" => Ok(ws.is_local(&name).to_string(alloc)?),
        "is_shared" => Ok(ws.is_shared(&name).to_string(alloc)?),
        _ => bail!("no question: {word}"),
    }
}

// What the workspace answers to a question.
fn answer(alloc: Global, ws: &Workspace, question: &str) -> Result<String> {
    match question {
        "functions" => names_text(alloc, ws.names(What::Functions)?.as_slice()),
        "variables" => names_text(alloc, ws.names(What::Variables)?.as_slice()),
        "shares" => names_text(alloc, ws.names(What::Shares)?.as_slice()),
        "names" => names_text(alloc, ws.all_names()?.as_slice()),
        "offers" => offers_text(alloc, ws.remakes()?.as_slice()),
        "weight" => Ok(ws.weight().to_string(alloc)?),
        "depth" => Ok(ws.depth().to_string(alloc)?),
        "printed" => Ok(ws.printed().to_string(alloc)?),
        _ => answer_of_name(alloc, ws, question),
    }
}

// The answer to a question, which is known or told by the workspace.
fn answer_with(
    alloc: Global,
    ws: &Workspace,
    known: (&str, &str),
    question: &str,
) -> Result<String> {
    if question == known.0 {
        Ok(String::from_str(alloc, known.1)?)
    } else {
        answer(alloc, ws, question)
    }
}

/// The answers to the questions that are asked, each behind its question, with a separator between, or `-` where none is.
/// What is asked has its answers too, which are not looked at. A question to which this is the answer, as it is handed in, is
/// none to the workspace.
pub fn answers(
    alloc: Global,
    ws: &Workspace,
    known: (&str, &str),
    asked: &str,
    separator: &str,
) -> Result<String> {
    if asked == "-" {
        return Ok(String::from_str(alloc, "-")?);
    }
    let mut told = Vec::new(alloc);
    for line in asked.split(separator) {
        let question = line.split_once(" = ").map_or(line, |parts| parts.0);
        let answer = answer_with(alloc, ws, known, question)?;
        told.push(format!(in alloc; "{question} = {answer}")?)?;
    }
    Ok(told.join(alloc, separator)?)
}
