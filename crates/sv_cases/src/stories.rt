use crate::equal::is_equal;
use anyhow::{Context, Result, bail};
use apl_arrays::Array;
use case_fields::{stated, value_text};
use case_tables::Trial;
use std::alloc::Global;
use sv_access::{AccessState, Side};
use sv_kept::Share;

/// Stories of a coupling: what its two sides know, and what they do since. Found are whose set is unseen, the value set
/// last, and what each side knows, or where going over the story says another state than the share, both.
#[derive(Clone, Copy, Debug)]
pub struct Stories;

// An access: a set of a number, or a use.
#[derive(Clone, Copy)]
struct Told {
    side: Side,
    set: Option<i64>,
}

// A number, or none for a dash.
fn number_of(word: &str) -> Result<Option<i64>> {
    stated(word)
        .map(|number| number.parse().context("no number"))
        .transpose()
}

fn side_of(word: &str) -> Result<Side> {
    match word {
        "A" => Ok(Side::A),
        "B" => Ok(Side::B),
        _ => bail!("no side: {word}"),
    }
}

fn told_of(text: &str) -> Result<Told> {
    let (side, access) = text.split_once(' ').context("no access")?;
    let side = side_of(side)?;
    let set = match access.strip_prefix("set ") {
        Some(number) => number_of(number)?,
        None => None,
    };
    if set.is_none() && access != "use" {
        bail!("no access: {access}");
    }
    Ok(Told { side, set })
}

fn array_of(number: Option<i64>) -> Option<Array> {
    match number {
        None => None,
        Some(number) => Some(Array::of_number(number)),
    }
}

// The accesses of a story, with what is known at the coupling as a set before them.
fn story_of(alloc: Global, a: Option<i64>, b: Option<i64>, field: &str) -> Result<Vec<Told>> {
    let mut story = Vec::new(alloc);
    if a.is_some() {
        story.push(Told {
            side: Side::A,
            set: a,
        })?;
    } else if b.is_some() {
        story.push(Told {
            side: Side::B,
            set: b,
        })?;
    }
    for text in field.split(" / ") {
        if text != "-" {
            story.push(told_of(text)?)?;
        }
    }
    Ok(story)
}

// Whose set is unseen: the last set's side, where no use by the other side follows it.
fn scanned(story: &[Told]) -> AccessState {
    let mut seen = [false; 2];
    for told in story.iter().rev() {
        match (told.side, told.set) {
            (Side::A, None) => seen[0] = true,
            (Side::B, None) => seen[1] = true,
            (Side::A, Some(_)) => return if seen[1] {
                AccessState::Quiet
            } else {
                AccessState::UnseenA
            },
            (Side::B, Some(_)) => return if seen[0] {
                AccessState::Quiet
            } else {
                AccessState::UnseenB
            },
        }
    }
    AccessState::Quiet
}

fn state_text(state: AccessState) -> &'static str {
    match state {
        AccessState::Quiet => "-",
        AccessState::UnseenA => "A",
        AccessState::UnseenB => "B",
    }
}

// A value that is known, or a dash.
fn push_known(alloc: Global, text: &mut String, known: Option<&Array>) -> Result<()> {
    text.push(' ')?;
    match known {
        None => text.push('-')?,
        Some(array) => text.push_str(value_text(alloc, array)?.as_str())?,
    }
    Ok(())
}

// The number set last in a story, if one was.
fn last_set(story: &[Told]) -> Option<i64> {
    for told in story.iter().rev() {
        if told.set.is_some() {
            return told.set;
        }
    }
    None
}

// Whether a value is the scalar of a number, or neither is there. The value is let go.
fn is_number(value: Option<Array>, number: Option<i64>) -> bool {
    let wanted = array_of(number);
    let is_so = is_equal(value, &wanted);
    drop(wanted);
    is_so
}

// A use has to give the number set last, or none, and then changes nothing.
fn used(share: &mut Share, side: Side, wanted: Option<i64>) -> Result<()> {
    if !is_number(share.get(side)?, wanted) {
        bail!("a use gives another value than the one set last");
    }
    Ok(())
}

// An access that is granted, after a story.
fn tell(share: &mut Share, story: &[Told], told: &Told) -> Result<()> {
    match told.set {
        None => used(share, told.side, last_set(story)),
        Some(number) => Ok(share.set(told.side, Array::of_number(number))?),
    }
}

// What the share says, and what going over the story says where that is another state.
fn shared_text(alloc: Global, share: &Share, story: &[Told]) -> Result<String> {
    let mut text = String::from_str(alloc, state_text(share.state()))?;
    push_known(alloc, &mut text, share.last())?;
    push_known(alloc, &mut text, share.known(Side::A))?;
    push_known(alloc, &mut text, share.known(Side::B))?;
    let plain = scanned(story);
    if plain != share.state() {
        text.push_str(", but going over it ")?;
        text.push_str(state_text(plain))?;
    }
    Ok(text)
}

// The accesses of a story are made from this one on: what the share says then.
fn text_after(alloc: Global, share: &mut Share, story: &[Told], first: usize) -> Result<String> {
    for at in first..story.len() {
        tell(share, &story[..at], &story[at])?;
    }
    shared_text(alloc, share, story)
}

impl Trial for Stories {
    fn given(&self) -> usize {
        2
    }

    fn found(&self, alloc: Global, fields: &[&str]) -> Result<String> {
        let [known, accesses, ..] = fields else {
            bail!("what is known and a story are wanted");
        };
        let (a, b) = known.split_once(' ').context("two values are wanted")?;
        let (a, b) = (number_of(a)?, number_of(b)?);
        let story = story_of(alloc, a, b, *accesses)?;
        let mut share = Share::new(alloc, array_of(a), array_of(b));
        let first = usize::from(a.is_some() || b.is_some());
        let found = text_after(alloc, &mut share, &story, first);
        drop(share);
        found
    }
}
