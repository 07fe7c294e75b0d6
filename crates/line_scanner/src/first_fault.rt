ghost use Rattle.std.specs.Prelude.{◌≡◌, false, length};
ghost use Rattle.apl_arrays.specs.Name.{longest_name};
ghost use Rattle.line_scanner.specs.Front.{IsPassedIn, passing_of};
ghost use Rattle.line_scanner.specs.Number.{constant, found_after};
ghost use Rattle.line_scanner.specs.Scanning.{chars_from, chars_front, constant_front, front_of, name_front, reading_of, refusal_in};

use crate::ScanRefused;
use crate::constant::numbers_end;
use crate::front::system_name;
use crate::number::number;
use crate::quoted::chars_end;
use crate::role::{Role, role_of};
use apl_arrays::{Glyph, Name};

/// What a scan does at the front, where the token there is not kept.
#[derive(Clone, Copy, Debug)]
pub enum Passing {
    /// The line ends, or a comment begins.
    Ends,
    /// A blank or a token of so many glyphs is passed over.
    Over(usize),
    /// A glyph without a role.
    Unused,
    /// The beginning of a token that is none.
    Malformed,
}

// A name at the front.
fn past_name(glyphs: &[Glyph]) -> Passing
    ensures { result ≡ passing_of (name_front (longest_name glyphs.now)) }
{
    match Name::longest(glyphs) {
        Some((_, length)) => Passing::Over(length),
        None => Passing::Malformed,
    }
}

// A constant of numbers at the front.
fn past_numbers(glyphs: &[Glyph]) -> Passing
    ensures { result ≡ passing_of (constant_front (constant glyphs.now)) }
{
    match number(glyphs) {
        None => Passing::Malformed,
        Some((_, taken)) => Passing::Over(numbers_end(taken, glyphs)),
    }
}

// A constant of characters whose opening quote stands before these glyphs.
fn past_chars(glyphs: &[Glyph]) -> Passing
    ensures { result ≡ passing_of (chars_front (found_after 1 (chars_from false glyphs.now))) }
{
    match chars_end(glyphs) {
        None => Passing::Malformed,
        Some(length) => Passing::Over(1 + length),
    }
}

// What a scan does at the front.
#[tactic(auto, using(crate::proofs::Passed::passed_in), unfolding(crate::specs::Scanning::front_of))]
fn past_front(glyphs: &[Glyph]) -> Passing
    ensures value { result ≡ passing_of (front_of glyphs.now) }
    ensures fits { IsPassedIn (length glyphs.now) result }
{
    let Some((first, rest)) = glyphs.split_first() else {
        return Passing::Ends;
    };
    match role_of(*first) {
        Role::Blank => Passing::Over(1),
        Role::Letter => past_name(glyphs),
        Role::Digit | Role::Overbar => past_numbers(glyphs),
        Role::Quote => past_chars(rest),
        Role::Quad => match system_name(glyphs) {
            None => Passing::Malformed,
            Some(_) => Passing::Over(4),
        },
        Role::Lamp => Passing::Ends,
        Role::Sign => Passing::Over(1),
        Role::Unused => Passing::Unused,
    }
}

/// The first error of a line, where it has one. It takes no memory.
#[tactic(auto, using(crate::proofs::Passed::passes))]
pub fn first_fault(glyphs: &[Glyph]) -> Option<ScanRefused>
    ensures { result ≡ refusal_in (reading_of glyphs.now) }
{
    let mut at = 0;
    loop {
        match past_front(&glyphs[at..]) {
            Passing::Ends => return None,
            Passing::Over(length) => at += length,
            Passing::Unused => return Some(ScanRefused::CharacterError(at as u64)),
            Passing::Malformed => return Some(ScanRefused::SyntaxError(at as u64)),
        }
    }
}
