ghost use Rattle.std.specs.Prelude.{◌≡◌, ◌<◌, ◌^◌, IfOk, length};
ghost use Rattle.ws_codec.specs.Fields.{read_byte, read_glyphs, read_integer, read_name, read_number, read_same};
ghost use Rattle.ws_codec.specs.Reading.{Gives};

use crate::codes::{are_codes, code_count, line_of, name_of_codes};
use crate::fields::{bytes_at, cut};
use crate::saved::SavedRule;
use crate::unread::{Unread, keeps, known};
use apl_arrays::{Line, Name};
use byteorder::{BigEndian, ByteOrder};
use std::alloc::Global;
use std::marker::Model;

/// Bytes that are read from the left, seen as those that are left of them.
#[derive(Debug, Drop)]
pub struct Cursor<'a> {
    rest: &'a [u8],
}

impl<'a> Model for Cursor<'a> {
    ghost use Rattle.std.specs.Prelude.{ℕ, List};

    ghost Value = { List ℕ };

    ghost view = { λ cursor. cursor.rest.now };
}

impl<'a> Cursor<'a> {
    /// Bytes of which nothing is read yet.
    pub fn new(bytes: &'a [u8]) -> Cursor<'a>
        ensures { result ≡ bytes.now }
    {
        Cursor { rest: bytes }
    }

    /// How many bytes are left.
    pub fn left(&self) -> usize
        ensures value { result ≡ length self.now }
        ensures within { result < 2 ^ 63 }
    {
        self.rest.len()
    }

    /// Reads a byte. It takes no memory.
    #[tactic(auto, unfolding(crate::specs::Fields::read_byte))]
    pub fn byte(&mut self) -> Result<u8, Unread>
        ensures { Gives (λ byte. (byte, self.new)) result (read_byte self.old) }
    {
        match self.rest {
            [] => Err(cut()),
            [byte, rest @ ..] => {
                let byte = *byte;
                self.rest = rest;
                Ok(byte)
            }
        }
    }

    /// Reads as many bytes as these are, and tells whether they are the same. It takes no memory.
    #[tactic(auto, unfolding(crate::specs::Fields::read_same))]
    pub fn begins_with(&mut self, front: &[u8]) -> Result<bool, Unread>
        ensures { Gives (λ same. (same, self.new)) result (read_same front.now self.old) }
    {
        let (field, rest) = bytes_at(front.len(), self.rest)?;
        self.rest = rest;
        Ok(field == front)
    }

    /// Reads a number of two bytes, the highest first. It takes no memory.
    #[tactic(auto, unfolding(crate::specs::Fields::read_number))]
    pub fn number16(&mut self) -> Result<u16, Unread>
        ensures { Gives (λ number. (number, self.new)) result (read_number 2 self.old) }
    {
        let (field, rest) = bytes_at(2, self.rest)?;
        self.rest = rest;
        Ok(BigEndian::read_u16(field))
    }

    /// Reads a number of four bytes, the highest first. It takes no memory.
    #[tactic(auto, unfolding(crate::specs::Fields::read_number))]
    pub fn number32(&mut self) -> Result<u32, Unread>
        ensures { Gives (λ number. (number, self.new)) result (read_number 4 self.old) }
    {
        let (field, rest) = bytes_at(4, self.rest)?;
        self.rest = rest;
        Ok(BigEndian::read_u32(field))
    }

    /// Reads a number of eight bytes with a sign, the highest first. It takes no memory.
    #[tactic(auto, unfolding(crate::specs::Fields::read_integer))]
    pub fn integer(&mut self) -> Result<i64, Unread>
        ensures { Gives (λ number. (number, self.new)) result (read_integer self.old) }
    {
        let (field, rest) = bytes_at(8, self.rest)?;
        self.rest = rest;
        Ok(BigEndian::read_i64(field))
    }

    /// Reads so many codes of glyphs. It takes memory for them.
    #[tactic(auto, unfolding(crate::specs::Fields::read_glyphs))]
    pub fn glyphs(&mut self, alloc: Global, count: usize) -> Result<Line, Unread>
        ensures value { Gives (λ line. (line.items, self.new)) result (read_glyphs count self.old) }
        ensures count { IfOk result (λ line. length line.items ≡ count) }
    {
        let left = self.left();
        let (field, rest) = bytes_at(count, self.rest)?;
        let bad = left.saturating_sub(code_count(field));
        keeps(are_codes(field), SavedRule::Glyph, bad)?;
        let line = line_of(alloc, field)?;
        self.rest = rest;
        Ok(line)
    }

    /// Reads a length of one byte, and the codes of a name. It takes memory for a line of them.
    #[tactic(auto, unfolding(crate::specs::Fields::read_name))]
    pub fn name(&mut self, alloc: Global) -> Result<Name, Unread>
        ensures { Gives (λ name. (name, self.new)) result (read_name self.old) }
    {
        let left = self.left();
        let count = self.byte()?;
        let (field, rest) = bytes_at(count as usize, self.rest)?;
        let found = name_of_codes(alloc, field)?;
        self.rest = rest;
        let name = known(found, SavedRule::Name, left)?;
        Ok(name)
    }
}
