ghost use Rattle.std.specs.Prelude.{◌≡◌, ◌≤◌, IfOk, length};

use crate::finding::Finding;
use crate::heading::cut_word;
use apl_arrays::{USER_LIMIT, WantOfMemory};
use aux_parties::is_auxiliary;
use line_text::first_line;
use std::alloc::Global;
use std::str;

const STRANGER: &str =
    "a turn is that of the clock, 10, of the text files, 20, or of a user of the bundle";

// How many bytes stand in front of the numbers of an order.
const BEGIN: usize = 6;

// The number that digits are.
fn number_of(digits: &[u8]) -> Option<u32> {
    str::from_utf8(digits).ok()?.parse().ok()
}

// The number of a user whose heading a line is.
fn user_of(line: &[u8]) -> Option<u32> {
    number_of(line.strip_prefix(b"user ")?)
}

// The numbers of the users that these lines have, no more than a bundle may have.
fn users_of(alloc: Global, lines: &[u8]) -> Result<Vec<u32>, WantOfMemory> {
    let mut users = Vec::new(alloc);
    let mut rest = lines;
    while let Some((line, after)) = first_line(rest) {
        add_user(&mut users, line)?;
        rest = after;
    }
    Ok(users)
}

// Adds the number of a user, if a line has one.
fn add_user(users: &mut Vec<u32>, line: &[u8]) -> Result<(), WantOfMemory> {
    match user_of(line) {
        Some(number) if users.len() < USER_LIMIT => {
            users.push(number)?;
            Ok(())
        }
        _ => Ok(()),
    }
}

// Whether digits are the number of a party.
fn is_party(users: &[u32], digits: &[u8]) -> bool {
    match number_of(digits) {
        None => false,
        Some(number) => is_auxiliary(number) || users.contains(&number),
    }
}

// The place of the first number of an order that is that of no party.
fn stranger_at(users: &[u32], line: &[u8]) -> usize
    ensures { result ≤ length line.now }
{
    if line.len() <= BEGIN {
        return 0;
    }
    let mut rest = &line[BEGIN..];
    while let Some((digits, after)) = cut_word(rest) {
        if !is_party(users, digits) {
            return line.len() - rest.len();
        }
        rest = after;
    }
    line.len() - rest.len()
}

/// What is wrong in an order that stands behind these lines and names a party that there is not. It takes memory for the
/// numbers of 32 users at most.
pub fn party_finding(alloc: Global, lines: &[u8], line: &[u8]) -> Result<Finding, WantOfMemory>
    ensures { IfOk result (λ finding. finding.at ≤ length line.now) }
{
    let users = users_of(alloc, lines)?;
    Ok(Finding::new(stranger_at(&users, line), STRANGER))
}
