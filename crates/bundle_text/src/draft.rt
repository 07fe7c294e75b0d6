ghost use Rattle.std.specs.Prelude.{◌≡◌, ◌+◌, ◌<◌, ◌≤◌, ◌^◌, ◌&&◌, ◌∷◌, [], ◌++◌, All, IsTrue, IsFalse, IfOk, OnOk, ℕ, ℤ, pos, List, length, map, nat_lt, nat_le, MatchResult};
ghost use Rattle.apl_arrays.specs.Ascending.{AscendBy};
ghost use Rattle.apl_arrays.specs.FileList.{IsAscending};
ghost use Rattle.apl_arrays.specs.Glyph.{Spells, bar};
ghost use Rattle.apl_arrays.specs.Limits.{most_line_glyphs, most_user_lines};
ghost use Rattle.line_text.specs.Lines.{line_feed};
ghost use Rattle.bundle_text.specs.Rules.{IsBundle};
ghost use Rattle.bundle_text.specs.BundleLine.{PlainLine, IsBundleLine, user, order, file, clock, end};
ghost use Rattle.bundle_text.specs.Draft.{nothing_read, users_so_far, files_of, section_begun, bundle_of, is_at_end};
ghost use Rattle.bundle_text.specs.Heading.{IsHeadingOf, kept_numbers};
ghost use Rattle.bundle_text.specs.Limits.{greatest_reading};
ghost use Rattle.bundle_text.specs.Refused.{IsRefusal};
ghost use Rattle.bundle_text.specs.Section.{plain_section};
ghost use Rattle.bundle_text.specs.Step.{Adds, AddsText, IsGlyphOr, BreaksLimit};
ghost use Rattle.bundle_text.specs.User.{plain_user};

use crate::bundle::{Bundle, BundleParts};
use crate::glyphs::{glyph_count_at, glyphs_at};
use crate::heading::Heading;
use crate::limits::{FILE_LIMIT, LINE_LIMIT, READING_LIMIT, TURN_LIMIT};
use crate::parties::are_parties;
use crate::refused::{BundleRefused, BundleRule};
use crate::section::{OpenFile, Section};
use crate::user::{BundleUser, UserList};
use apl_arrays::{
    Bytes, File, FileList, FileName, LINE_GLYPH_LIMIT, Line, PartyList, Readings, USER_LIMIT,
    WantOfMemory,
};
use std::alloc::Global;
use std::marker::Model;
use std::mem;

/// A bundle that is read line by line: what is whole, and what the last heading began. It is seen as plain data.
#[derive(Debug, Drop)]
pub struct Draft {
    users: UserList,
    order: PartyList,
    files: FileList,
    clock: Readings,
    section: Section,
}

impl Model for Draft {
    ghost use Rattle.bundle_text.specs.Draft.{PlainDraft};
    ghost use Rattle.bundle_text.specs.Section.{plain_section};

    ghost Value = { PlainDraft };

    ghost view = { λ d. record { users = d.users.items; order = d.order.items; files = d.files.items; clock = d.clock.items; section = plain_section d.section } };
}

// Adds a line of input, which stands at the offset.
fn add_input(user: &mut BundleUser, line: Line, offset: u64) -> Result<(), BundleRefused>
    ensures { MatchResult result
        (λ _. IsTrue (nat_lt (length user.old.lines.items) most_user_lines && nat_le (length line.items) most_line_glyphs)
        × (plain_user user.new ≡ record { number = user.old.number; lines = user.old.lines.items ++ line.items ∷ [] }))
        (λ why. IsRefusal why (BreaksLimit offset (nat_lt (length user.old.lines.items) most_user_lines && nat_le (length line.items) most_line_glyphs))) }
{
    if user.lines.as_slice().len() >= LINE_LIMIT || line.as_slice().len() > LINE_GLYPH_LIMIT {
        return Err(BundleRefused::malformed(offset, BundleRule::Limit));
    }
    user.lines.push(line)?;
    Ok(())
}

// Adds a line, and its line feed.
fn add_bytes(file: &mut OpenFile, text: &[u8]) -> Result<(), WantOfMemory>
    ensures bytes { OnOk result (file.new.bytes.items ≡ file.old.bytes.items ++ (text.now ++ line_feed ∷ [])) }
    ensures name { file.new.name ≡ file.old.name }
{
    file.bytes.extend_from_slice(text)?;
    file.bytes.push(b'\n')?;
    Ok(())
}

// Adds a line of so many glyphs, which stands at the offset.
fn add_text(
    file: &mut OpenFile,
    text: &[u8],
    count: usize,
    offset: u64,
) -> Result<(), BundleRefused>
    ensures bytes { MatchResult result
        (λ _. IsTrue (nat_le count most_line_glyphs) × (file.new.bytes.items ≡ file.old.bytes.items ++ (text.now ++ line_feed ∷ [])))
        (λ why. IsRefusal why (BreaksLimit offset (nat_le count most_line_glyphs))) }
    ensures name { file.new.name ≡ file.old.name }
{
    if count > LINE_GLYPH_LIMIT {
        return Err(BundleRefused::malformed(offset, BundleRule::Limit));
    }
    add_bytes(file, text)?;
    Ok(())
}

// Why a content line is refused where none may stand: a byte that is no glyph, else its place.
fn misplaced(text: &[u8], offset: u64) -> BundleRefused
    requires { offset + length text.now + 1 < 2 ^ 64 }
    ensures { IsRefusal result (IsGlyphOr text.now (offset + 1) offset BundleRule.Place) }
{
    match glyph_count_at(text, offset + 1) {
        Ok(_) => BundleRefused::malformed(offset, BundleRule::Place),
        Err(why) => why,
    }
}

// Adds numbers as parties.
fn add_parties(order: &mut PartyList, numbers: &[u64]) -> Result<(), WantOfMemory>
    requires { All (λ number. number < 2 ^ 32) numbers.now }
    ensures { OnOk result (order.new.items ≡ order.old.items ++ numbers.now) }
{
    order.reserve(numbers.len())?;
    for number in numbers {
        order.push(*number as u32)?;
    }
    Ok(())
}

// Adds numbers as readings.
fn add_readings(clock: &mut Readings, numbers: &[u64]) -> Result<(), WantOfMemory>
    requires { All (λ number. number ≤ greatest_reading) numbers.now }
    ensures { OnOk result (clock.new.items ≡ clock.old.items ++ map pos numbers.now) }
{
    clock.reserve(numbers.len())?;
    for number in numbers {
        clock.push(*number as i64)?;
    }
    Ok(())
}

impl Draft {
    /// Nothing is read yet.
    pub fn new(alloc: Global) -> Draft
        ensures { result ≡ nothing_read }
    {
        Draft {
            users: UserList::new(alloc),
            order: PartyList::new(alloc),
            files: FileList::new(alloc),
            clock: Readings::new(alloc),
            section: Section::Start,
        }
    }

    /// Whether the end was read.
    pub fn is_ended(&self) -> bool
        ensures { result ≡ is_at_end self.now.section }
    {
        self.section.is_ended()
    }

    /// Adds a content line, of which the text behind its bar is given, and which stands at the offset. `Malformed` with
    /// the rule that it breaks there; the draft is then spent. It takes memory for the line.
    pub fn add_content(
        &mut self,
        alloc: Global,
        text: &[u8],
        offset: u64,
    ) -> Result<(), BundleRefused>
        requires { offset + length text.now + 1 < 2 ^ 64 }
        ensures { AddsText self.old (bar ∷ text.now) self.new offset result }
    {
        match &mut self.section {
            Section::User(user) => add_input(user, glyphs_at(alloc, text, offset + 1)?, offset),
            Section::File(file) => add_text(file, text, glyph_count_at(text, offset + 1)?, offset),
            _ => Err(misplaced(text, offset)),
        }
    }

    // Begins a section. What the one before it began is whole.
    fn begin(&mut self, section: Section) -> Result<(), WantOfMemory>
        requires users { AscendBy (λ user. user.number) (users_so_far self.old) }
        requires files { IsAscending (files_of self.old) }
        ensures { OnOk result (self.new ≡ section_begun self.old (plain_section section)) }
    {
        match mem::replace(&mut self.section, section) {
            Section::User(user) => self.users.push(user),
            Section::File(file) => self.files.push(File {
                name: file.name,
                bytes: Bytes::from(file.bytes),
            }),
            Section::Start | Section::Order | Section::Clock | Section::End => Ok(()),
        }
    }

    // Adds the heading of a user, which stands at the offset.
    fn add_user(&mut self, alloc: Global, number: u32, offset: u64) -> Result<(), BundleRefused>
        requires bundle { IsBundle (bundle_of self.old) }
        requires form { IsBundleLine (user number) }
        ensures { Adds self.old (user number) self.new offset result }
    {
        if !self.section.takes_user(number) {
            return Err(BundleRefused::malformed(offset, BundleRule::Place));
        }
        self.begin(Section::user(alloc, number))?;
        if self.users.as_slice().len() >= USER_LIMIT {
            return Err(BundleRefused::malformed(offset, BundleRule::Limit));
        }
        Ok(())
    }

    // Adds turns, which stand at the offset.
    fn add_turns(&mut self, numbers: &[u64], offset: u64) -> Result<(), BundleRefused>
        requires { IsBundle (bundle_of self.old) }
        ensures { (digits : List (List ℕ)) → numbers.now ≡ kept_numbers digits → IsBundleLine (order digits)
            → Adds self.old (order digits) self.new offset result }
    {
        if !self.section.takes_turns() {
            return Err(BundleRefused::malformed(offset, BundleRule::Place));
        }
        self.begin(Section::Order)?;
        if !are_parties(self.users.as_slice(), numbers) {
            return Err(BundleRefused::malformed(offset, BundleRule::Party));
        }
        if numbers.len() > TURN_LIMIT - self.order.as_slice().len() {
            return Err(BundleRefused::malformed(offset, BundleRule::Limit));
        }
        add_parties(&mut self.order, numbers)?;
        Ok(())
    }

    // Adds the heading of a file, which stands at the offset.
    fn add_file(&mut self, alloc: Global, name: FileName, offset: u64) -> Result<(), BundleRefused>
        requires bundle { IsBundle (bundle_of self.old) }
        requires form { IsBundleLine (file name) }
        ensures { Adds self.old (file name) self.new offset result }
    {
        if !self.section.takes_file(&name) {
            return Err(BundleRefused::malformed(offset, BundleRule::Place));
        }
        self.begin(Section::file(alloc, name))?;
        if self.files.as_slice().len() >= FILE_LIMIT {
            return Err(BundleRefused::malformed(offset, BundleRule::Limit));
        }
        Ok(())
    }

    // Adds readings, which stand at the offset.
    fn add_clock(&mut self, numbers: &[u64], offset: u64) -> Result<(), BundleRefused>
        requires bundle { IsBundle (bundle_of self.old) }
        requires readings { All (λ number. number ≤ greatest_reading) numbers.now }
        ensures { (digits : List (List ℕ)) → numbers.now ≡ kept_numbers digits → IsBundleLine (clock digits)
            → Adds self.old (clock digits) self.new offset result }
    {
        if self.section.is_ended() {
            return Err(BundleRefused::malformed(offset, BundleRule::Place));
        }
        self.begin(Section::Clock)?;
        if numbers.len() > READING_LIMIT - self.clock.as_slice().len() {
            return Err(BundleRefused::malformed(offset, BundleRule::Limit));
        }
        add_readings(&mut self.clock, numbers)?;
        Ok(())
    }

    // Adds the end, which stands at the offset.
    fn add_end(&mut self, offset: u64) -> Result<(), BundleRefused>
        requires { IsBundle (bundle_of self.old) }
        ensures { Adds self.old end self.new offset result }
    {
        if self.section.is_ended() {
            return Err(BundleRefused::malformed(offset, BundleRule::Place));
        }
        self.begin(Section::End)?;
        Ok(())
    }

    /// Adds a heading, which stands at the offset. `Malformed` with the rule that it breaks there; the draft is then
    /// spent. It takes memory for what it adds.
    pub fn add_heading(
        &mut self,
        alloc: Global,
        heading: Heading,
        offset: u64,
    ) -> Result<(), BundleRefused>
        requires bundle { IsBundle (bundle_of self.old) }
        requires form { (line : PlainLine) × IsHeadingOf heading line × IsBundleLine line }
        ensures { (line : PlainLine) → IsHeadingOf heading line → IsBundleLine line → Adds self.old line self.new offset result }
    {
        match heading {
            Heading::User(number) => self.add_user(alloc, number, offset),
            Heading::Order(numbers) => self.add_turns(numbers.as_slice(), offset),
            Heading::File(name) => self.add_file(alloc, name, offset),
            Heading::Clock(numbers) => self.add_clock(numbers.as_slice(), offset),
            Heading::End => self.add_end(offset),
        }
    }

    /// The bundle, where the end was read.
    pub fn finish(self) -> Bundle
        requires bundle { IsBundle (bundle_of self) }
        requires ended { IsTrue (is_at_end self.section) }
        ensures { result ≡ bundle_of self }
    {
        let Draft {
            users,
            order,
            files,
            clock,
            section: _section,
        } = self;
        Bundle::of_parts(BundleParts {
            users,
            order,
            files,
            clock,
        })
    }
}
