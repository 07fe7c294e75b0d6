ghost use Rattle.std.specs.Prelude.{◌≡◌, ◌≤◌, All, IfErr, IfOk, OnErr, length};
ghost use Rattle.apl_arrays.specs.Glyph.{IsGlyph};
ghost use Rattle.apl_arrays.specs.List.{first_of, others_of};
ghost use Rattle.text_reader.specs.Reading.{Gives, IsLeft, read_file_name, read_literal, read_name, shared_length};
ghost use Rattle.text_reader.specs.NumberReading.{read_number};
ghost use Rattle.text_reader.specs.Numeral.{read_count};

use crate::literal::{behind, shared_length};
use crate::number::number_in;
use crate::numeral::{codes_of, numeral_in};
use crate::unread::Unread;
use apl_arrays::{FileName, Glyph, NAME_LIMIT, Name};
use std::alloc::Global;
use std::marker::Model;

/// A line that is read from the left, seen as the glyphs that are left of it. Where a call reads nothing, it stays where it
/// was.
#[derive(Debug, Drop)]
pub struct Cursor<'a> {
    rest: &'a [Glyph],
}

impl<'a> Model for Cursor<'a> {
    ghost use Rattle.std.specs.Prelude.{ℕ, List};

    ghost Value = { List ℕ };

    ghost view = { λ cursor. cursor.rest.now };
}

// What the type of a line's items says of each of them. It looks at them, and does nothing else.
fn look_over(line: &[Glyph])
    ensures { All IsGlyph line.now }
{
    for glyph in line {
        let _code = glyph.code();
    }
}

impl<'a> Cursor<'a> {
    /// A line of which nothing is read yet.
    pub fn new(line: &'a [Glyph]) -> Cursor<'a>
        ensures value { result ≡ line.now }
        ensures glyphs { All IsGlyph line.now }
    {
        look_over(line);
        Cursor { rest: line }
    }

    /// A cursor that stands where this one does.
    pub fn ahead(&self) -> Cursor<'a>
        ensures { result ≡ self.now }
    {
        Cursor { rest: self.rest }
    }

    /// How many glyphs are left.
    pub fn left(&self) -> usize
        ensures { result ≡ length self.now }
    {
        self.rest.len()
    }

    /// That no text goes on as the line does here. It takes no memory.
    pub fn stops(&self) -> Unread
        ensures { result ≡ Unread.Left (length self.now) }
    {
        Unread::Left(self.rest.len())
    }

    /// The next glyph, if there is one.
    pub fn first(&self) -> Option<Glyph>
        ensures { result ≡ first_of self.now }
    {
        match self.rest {
            [] => None,
            [first, ..] => Some(*first),
        }
    }

    /// The glyph behind the next one, if there is one.
    pub fn second(&self) -> Option<Glyph>
        ensures { result ≡ first_of (others_of self.now) }
    {
        match self.rest {
            [] | [_] => None,
            [_, second, ..] => Some(*second),
        }
    }

    /// How many glyphs of a fixed text of ASCII stand here, from its first on.
    pub fn shared(&self, text: &[u8]) -> usize
        ensures value { result ≡ shared_length text.now self.now }
        ensures within { result ≤ length self.now }
    {
        shared_length(text, self.rest)
    }

    /// Goes on behind the next glyph, if there is one.
    pub fn skip(&mut self)
        ensures { self.new ≡ others_of self.old }
    {
        if let [_, rest @ ..] = self.rest {
            self.rest = rest;
        }
    }

    /// Reads a fixed text of ASCII. It takes no memory.
    pub fn text(&mut self, text: &[u8]) -> Result<(), Unread>
        ensures value { Gives (λ _. self.new) result (read_literal text.now self.old) }
        ensures stays { OnErr result (self.new ≡ self.old) }
        ensures free { IfErr result IsLeft }
    {
        self.rest = behind(text, self.rest)?;
        Ok(())
    }

    /// Reads a number in decimal digits without a leading zero, from `low` to `high`. It goes on as long as some number
    /// in this range begins with its digits. It takes no memory.
    pub fn number(&mut self, low: u64, high: u64) -> Result<u64, Unread>
        requires { low ≤ high }
        ensures value { Gives (λ number. (number, self.new)) result (read_number low high self.old) }
        ensures stays { OnErr result (self.new ≡ self.old) }
        ensures free { IfErr result IsLeft }
        ensures least { IfOk result (λ number. low ≤ number) }
        ensures most { IfOk result (λ number. number ≤ high) }
    {
        let (number, rest) = number_in(low, high, self.rest)?;
        self.rest = rest;
        Ok(number)
    }

    /// Reads a number of any length in decimal digits without a leading zero: all digits that stand there are its own. A
    /// number past the greatest `u64` is that one. It takes no memory.
    pub fn count(&mut self) -> Result<u64, Unread>
        ensures value { Gives (λ number. (number, self.new)) result (read_count self.old) }
        ensures stays { OnErr result (self.new ≡ self.old) }
        ensures free { IfErr result IsLeft }
    {
        let (number, rest) = numeral_in(self.rest)?;
        self.rest = rest;
        Ok(number)
    }

    /// Reads the name of a file, which all that is left has to be. It takes memory for the codes of what is left, and
    /// gives it back.
    pub fn file_name(&mut self, alloc: Global) -> Result<FileName, Unread>
        ensures value { Gives (λ name. (name, self.new)) result (read_file_name self.old) }
        ensures stays { OnErr result (self.new ≡ self.old) }
    {
        let codes = codes_of(alloc, self.rest)?;
        match FileName::of_bytes(&codes) {
            None => Err(self.stops()),
            Some(name) => {
                self.rest = &[];
                Ok(name)
            }
        }
    }

    /// Reads a name, as long as it may be. It takes no memory.
    pub fn name(&mut self) -> Result<Name, Unread>
        ensures value { Gives (λ name. (name, self.new)) result (read_name self.old) }
        ensures stays { OnErr result (self.new ≡ self.old) }
        ensures free { IfErr result IsLeft }
    {
        let length = Name::run_length(self.rest).min(NAME_LIMIT);
        let (front, rest) = self.rest.split_at(length);
        match Name::of(front) {
            None => Err(self.stops()),
            Some(name) => {
                self.rest = rest;
                Ok(name)
            }
        }
    }
}
