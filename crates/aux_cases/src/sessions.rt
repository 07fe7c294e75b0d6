use anyhow::{Context, Result};
use apl_arrays::{Array, WantOfMemory};
use auxiliaries::Replier;
use case_fields::{value_of, value_text};
use std::alloc::Global;

/// What stands between the steps of a session, and between their answers.
pub const BETWEEN: &str = " / ";

/// The user whose values the auxiliaries are given.
const USER: u32 = 1001;

// How often a part says that a value is given, and the value: `85 times 'A'`.
fn times_of(part: &str) -> Result<(usize, &str)> {
    match part.split_once(" times ") {
        Some((times, value)) => Ok((times.parse()?, value)),
        None => Ok((1, part)),
    }
}

// The last answer to a value that a party gives so many times.
fn last_answer<R: Replier>(
    replier: &mut R,
    party: u32,
    times: usize,
    value: &Array,
) -> Result<Array, WantOfMemory> {
    for _ in 1..times {
        drop(replier.reply(party, value)?);
    }
    replier.reply(party, value)
}

// The text of an answer.
fn answer_text(alloc: Global, answer: Array) -> Result<String> {
    let text = value_text(alloc, &answer);
    drop(answer);
    text
}

// The answer to a party's value. Of a value that is given more than once the last answer counts.
fn answer<R: Replier>(alloc: Global, replier: &mut R, party: u32, part: &str) -> Result<String> {
    let (times, value) = times_of(part)?;
    let value = value_of(alloc, value)?;
    let answer = last_answer(replier, party, times, &value);
    drop(value);
    answer_text(alloc, answer?)
}

/// The answers to the values that a field says, in the same form.
pub fn answers<R: Replier>(alloc: Global, replier: &mut R, values: &str) -> Result<String> {
    let mut text = String::new(alloc);
    for (at, part) in values.split(BETWEEN).enumerate() {
        if at > 0 {
            text.push_str(BETWEEN)?;
        }
        text.push_str(answer(alloc, replier, USER, part)?.as_str())?;
    }
    Ok(text)
}

/// The answers to the values that a field says, each behind the party that gives it.
pub fn answers_to_parties<R: Replier>(
    alloc: Global,
    replier: &mut R,
    steps: &str,
) -> Result<String> {
    let mut text = String::new(alloc);
    for (at, step) in steps.split(BETWEEN).enumerate() {
        if at > 0 {
            text.push_str(BETWEEN)?;
        }
        let (party, part) = step.split_once(" ").context("a party is wanted")?;
        text.push_str(answer(alloc, replier, party.parse()?, part)?.as_str())?;
    }
    Ok(text)
}
