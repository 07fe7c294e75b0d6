ghost use Rattle.std.specs.Prelude.{◌≡◌, ◌≤◌, false, IfOk, length};
ghost use Rattle.apl_arrays.specs.Name.{longest_name};
ghost use Rattle.line_scanner.specs.Number.{constant, found_after};
ghost use Rattle.line_scanner.specs.Front.{plain_front, FitsIn};
ghost use Rattle.line_scanner.specs.Scanning.{front_of, name_front, constant_front, chars_front, chars_from, system_name};

use crate::TokenKind;
use crate::constant::numbers_from;
use crate::number::number;
use crate::quoted::chars_until_quote;
use crate::role::{Role, role_of};
use apl_arrays::{Glyph, Name, SystemName, WantOfMemory};
use std::alloc::Global;

/// What stands at the front of some glyphs.
#[derive(Debug, Drop)]
pub enum Front {
    /// The end, or a comment.
    Nothing,
    Blank,
    /// A token, and how many glyphs it takes.
    Token(TokenKind, usize),
    /// A glyph without a role.
    Unused,
    /// The beginning of a token that is none.
    Malformed,
}

/// The name at the front, as long as it goes on.
fn name_front(glyphs: &[Glyph]) -> Front
    ensures { plain_front result ≡ name_front (longest_name glyphs.now) }
{
    match Name::longest(glyphs) {
        Some((name, length)) => Front::Token(TokenKind::Name(name), length),
        None => Front::Malformed,
    }
}

/// The constant of numbers at the front.
fn constant_front(alloc: Global, glyphs: &[Glyph]) -> Result<Front, WantOfMemory>
    ensures { IfOk result (λ found. plain_front found ≡ constant_front (constant glyphs.now)) }
{
    match number(glyphs) {
        None => Ok(Front::Malformed),
        Some((first, taken)) => {
            let (numbers, length) = numbers_from(alloc, first, taken, glyphs)?;
            Ok(Front::Token(TokenKind::Numbers(numbers), length))
        }
    }
}

/// The constant of characters whose opening quote stands before these glyphs.
fn chars_front(alloc: Global, glyphs: &[Glyph]) -> Result<Front, WantOfMemory>
    ensures { IfOk result (λ found. plain_front found ≡ chars_front (found_after 1 (chars_from false glyphs.now))) }
{
    match chars_until_quote(alloc, glyphs)? {
        None => Ok(Front::Malformed),
        Some((chars, length)) => Ok(Front::Token(TokenKind::Chars(chars), 1 + length)),
    }
}

/// The system name at the front.
pub fn system_name(glyphs: &[Glyph]) -> Option<SystemName>
    ensures { result ≡ system_name glyphs.now }
{
    SystemName::ALL
        .iter()
        .find(|name| glyphs.starts_with(&name.glyphs()))
        .copied()
}

/// What stands at the front.
#[tactic(auto, using(crate::proofs::Steps::fits_front), unfolding(crate::specs::Scanning::front_of))]
pub fn front_of(alloc: Global, glyphs: &[Glyph]) -> Result<Front, WantOfMemory>
    ensures value { IfOk result (λ found. plain_front found ≡ front_of glyphs.now) }
    ensures fits { IfOk result (λ found. FitsIn (length glyphs.now) (plain_front found)) }
{
    let Some((first, rest)) = glyphs.split_first() else {
        return Ok(Front::Nothing);
    };
    match role_of(*first) {
        Role::Blank => Ok(Front::Blank),
        Role::Letter => Ok(name_front(glyphs)),
        Role::Digit | Role::Overbar => constant_front(alloc, glyphs),
        Role::Quote => chars_front(alloc, rest),
        Role::Quad => Ok(match system_name(glyphs) {
            None => Front::Malformed,
            Some(name) => Front::Token(TokenKind::System(name), 4),
        }),
        Role::Lamp => Ok(Front::Nothing),
        Role::Sign => Ok(Front::Token(TokenKind::Sign(*first), 1)),
        Role::Unused => Ok(Front::Unused),
    }
}
