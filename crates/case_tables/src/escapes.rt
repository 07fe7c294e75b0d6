use std::alloc::{AllocError, AllocFailed, Global};
use std::error::Error;
use std::fmt;

/// Why a text with escapes gives no bytes.
#[derive(Clone, Copy, Debug, PartialEq, Eq)]
pub enum EscapeRefused {
    /// Behind a `\` stands none of the escapes.
    NoEscape,
    /// Memory ran out.
    WantOfMemory,
}

impl From<AllocError> for EscapeRefused {
    fn from(_: AllocError) -> Self {
        EscapeRefused::WantOfMemory
    }
}

impl<T: Drop> From<AllocFailed<T>> for EscapeRefused {
    fn from(_: AllocFailed<T>) -> Self {
        EscapeRefused::WantOfMemory
    }
}

impl fmt::Display for EscapeRefused {
    fn fmt<W: fmt::Write>(&self, f: &mut fmt::Formatter<W>) -> fmt::Result {
        f.write_str(match self {
            EscapeRefused::NoEscape => "no escape",
            EscapeRefused::WantOfMemory => "out of memory",
        })
    }
}

impl Error for EscapeRefused {}

/// The bytes of a text: `\n` is a line feed, `\xHH` the byte of two hexadecimal digits, `\{N:TEXT}` the bytes of TEXT, N
/// times over, and `\{A..B}` the numbers from A to B, up or down, with a blank between. All else is its UTF-8. Memory for
/// the bytes.
pub fn bytes_of(alloc: Global, text: &str) -> Result<Vec<u8>, EscapeRefused> {
    let mut bytes = Vec::new(alloc);
    match text.split_once("\\{") {
        None => push_text(&mut bytes, text)?,
        Some((front, rest)) => {
            push_text(&mut bytes, front)?;
            for part in rest.split("\\{") {
                push_braced(alloc, &mut bytes, part)?;
            }
        }
    }
    Ok(bytes)
}

// What stands behind `\{`: what the brace closes, and more text.
fn push_braced(alloc: Global, bytes: &mut Vec<u8>, part: &str) -> Result<(), EscapeRefused> {
    let (inside, after) = part.split_once("}").ok_or(EscapeRefused::NoEscape)?;
    match inside.split_once(":") {
        Some((times, text)) => push_repeated(alloc, bytes, times, text)?,
        None => bytes.extend_from_slice(run_of(alloc, inside)?.as_bytes())?,
    }
    push_text(bytes, after)
}

// A text, so many times over.
fn push_repeated(
    alloc: Global,
    bytes: &mut Vec<u8>,
    times: &str,
    text: &str,
) -> Result<(), EscapeRefused> {
    let times: usize = times.parse().map_err(|_| EscapeRefused::NoEscape)?;
    let mut repeated = Vec::new(alloc);
    push_text(&mut repeated, text)?;
    for _ in 0..times {
        bytes.extend_from_slice(&repeated)?;
    }
    Ok(())
}

// The numbers of `A..B`, with a blank between.
fn run_of(alloc: Global, ends: &str) -> Result<String, EscapeRefused> {
    let (first, last) = ends.split_once("..").ok_or(EscapeRefused::NoEscape)?;
    let first: u32 = first.parse().map_err(|_| EscapeRefused::NoEscape)?;
    let last: u32 = last.parse().map_err(|_| EscapeRefused::NoEscape)?;
    let mut run = String::new(alloc);
    for step in 0..=first.abs_diff(last) {
        if step > 0 {
            run.push(' ')?;
        }
        let number = if first < last {
            first.saturating_add(step)
        } else {
            first.saturating_sub(step)
        };
        write!(run, "{number}")?;
    }
    Ok(run)
}

// A text in which nothing is repeated.
fn push_text(bytes: &mut Vec<u8>, text: &str) -> Result<(), EscapeRefused> {
    match text.split_once("\\") {
        None => bytes.extend_from_slice(text.as_bytes())?,
        Some((front, rest)) => {
            bytes.extend_from_slice(front.as_bytes())?;
            for piece in rest.split("\\") {
                push_escaped(bytes, piece)?;
            }
        }
    }
    Ok(())
}

// What stands behind a `\`: the escape, and more text.
fn push_escaped(bytes: &mut Vec<u8>, piece: &str) -> Result<(), EscapeRefused> {
    let (byte, after) = match piece.strip_prefix("n") {
        Some(after) => (b'\n', after),
        None => hexadecimal(piece).ok_or(EscapeRefused::NoEscape)?,
    };
    bytes.push(byte)?;
    bytes.extend_from_slice(after.as_bytes())?;
    Ok(())
}

// The byte of `xHH`, and the text behind it.
fn hexadecimal(piece: &str) -> Option<(u8, &str)> {
    let (digits, after) = piece.strip_prefix("x")?.split_at_checked(2)?;
    Some((u8::from_str_radix(digits, 16).ok()?, after))
}
