use anyhow::{Context, Result};
use case_workspaces::natural_of;
use std::alloc::Global;

// Adds the bytes of hexadecimal digits, so many times over.
fn push_repeated(alloc: Global, bytes: &mut Vec<u8>, times: u32, digits: &str) -> Result<()> {
    let once = hex::decode(alloc, digits)?;
    for _ in 0..times {
        bytes.extend_from_slice(&once)?;
    }
    Ok(())
}

// Adds an object: a vector of so many blanks, whose name is W and three digits of a number.
fn push_object(alloc: Global, bytes: &mut Vec<u8>, number: u32, count: u32) -> Result<()> {
    let name = format!(in alloc; "W{number:03}")?;
    bytes.extend_from_slice(&[2, 4])?;
    bytes.extend_from_slice(name.as_bytes())?;
    bytes.push(1)?;
    bytes.extend_from_slice(&count.to_be_bytes())?;
    let end = bytes.len().saturating_add(count as usize);
    bytes.resize(end, b' ')?;
    Ok(())
}

// Adds an object for each number from A to B of `A..B`.
fn push_objects(alloc: Global, bytes: &mut Vec<u8>, ends: &str, count: u32) -> Result<()> {
    let (first, last) = ends.split_once("..").context("no numbers")?;
    let (first, last) = (natural_of(first)?, natural_of(last)?);
    for number in first..=last {
        push_object(alloc, bytes, number, count)?;
    }
    Ok(())
}

// Adds the bytes of a piece.
fn push_piece(alloc: Global, bytes: &mut Vec<u8>, piece: &str) -> Result<()> {
    match piece.split_once("×") {
        None => push_repeated(alloc, bytes, 1, piece),
        Some((front, behind)) => match front.strip_prefix("W") {
            None => push_repeated(alloc, bytes, natural_of(front)?, behind),
            Some(ends) => push_objects(alloc, bytes, ends, natural_of(behind)?),
        },
    }
}

/// The bytes that pieces say, with blanks between: hexadecimal digits; `N×HEX`, which is HEX, N times over; or `WA..B×N`,
/// an object for each number from A to B, which is a vector of N blanks, under the name W and three digits.
pub fn bytes_of(alloc: Global, text: &str) -> Result<Vec<u8>> {
    let mut bytes = Vec::new(alloc);
    for piece in text.split_whitespace() {
        push_piece(alloc, &mut bytes, piece)?;
    }
    Ok(bytes)
}
