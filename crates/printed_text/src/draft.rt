ghost use Rattle.std.specs.Prelude.{◌≡◌, ◌≢◌, ◌∷◌, [], ◌++◌, true, false, ℕ, List as ListOf, IsTrue, MatchOption, MatchResult, OnOk, Option as OptionOf, option_copied, length, ◌+◌};
ghost use Rattle.apl_arrays.specs.Glyph.{Spells, bar};
ghost use Rattle.sv_events.specs.Entry.{plain_entry};
ghost use Rattle.sv_journal.specs.IsEntry.{IsEntry};
ghost use Rattle.printed_text.specs.Draft.{are_all, entries_in, is_above, is_at_end, is_next, nothing_read, of_entries, of_user, section_begun, takes_entries, takes_headings, takes_shown, transcripts_so_far, user_so_far};
ghost use Rattle.printed_text.specs.Line.{IsUserNumber, PlainLine, end, entry, journal, user};
ghost use Rattle.printed_text.specs.Refused.{IsRefusal};
ghost use Rattle.printed_text.specs.Section.{plain_section};
ghost use Rattle.printed_text.specs.Step.{Adds, AddsText, IsNoContent, NoneSpelled};

use crate::heading::{is_end, is_journal, user_of};
use crate::printed::{Printed, PrintedParts, PrintedTranscript};
use crate::refused::PrintedRefused;
use apl_arrays::{GlyphRefused, Line, LineList, List, WantOfMemory, glyphs_of};
use std::alloc::Global;
use std::marker::Model;
use std::mem;
use sv_events::{Entry, Journal};
use sv_journal::{EntryRefused, read};

/// What the last heading began.
#[derive(Debug, Drop)]
pub(crate) enum Section {
    /// No heading was read.
    Start,
    /// What a user saw.
    User(PrintedTranscript),
    /// The entries.
    Entries(Journal),
    /// The end, behind the entries.
    End(Journal),
}

/// An output that is read line by line: the transcripts that are whole, and what the last heading began. It is seen as plain
/// data.
#[derive(Debug, Drop)]
pub(crate) struct Draft {
    transcripts: List<PrintedTranscript>,
    section: Section,
}

impl Model for Draft {
    ghost use Rattle.std.specs.Prelude.{map};
    ghost use Rattle.printed_text.specs.Draft.{PlainDraft};
    ghost use Rattle.printed_text.specs.Printed.{plain_printed};
    ghost use Rattle.printed_text.specs.Section.{plain_section};

    ghost Value = { PlainDraft };

    ghost view = { λ d. record { transcripts = map plain_printed d.transcripts.items; section = plain_section d.section } };
}

// Whether a number is above that of the user before it, if there is one.
fn is_above(last: Option<u32>, number: u32) -> bool
    ensures { result ≡ is_above last number }
{
    match last {
        None => true,
        Some(last) => last < number,
    }
}

// Whether this user comes behind so many.
fn is_next(users: Option<&[u32]>, count: usize, last: Option<u32>, number: u32) -> bool
    ensures { result ≡ is_next (option_copied users.entry) count last number }
{
    match users {
        None => is_above(last, number),
        Some(users) => match users.get(count) {
            None => false,
            Some(user) => *user == number,
        },
    }
}

// Whether so many users are all.
fn are_all(users: Option<&[u32]>, count: usize) -> bool
    ensures { result ≡ are_all (option_copied users.entry) count }
{
    match users {
        None => true,
        Some(users) => users.len() == count,
    }
}

// The glyphs that a line spells, which stands at the offset.
fn glyphs_at(alloc: Global, line: &[u8], offset: u64) -> Result<Line, PrintedRefused>
    ensures { MatchResult result (λ glyphs. Spells line.now glyphs.items) (λ why. IsRefusal why (λ at. (at ≡ offset) × NoneSpelled line.now)) }
{
    match glyphs_of(alloc, line) {
        Ok(glyphs) => Ok(glyphs),
        Err(GlyphRefused::BadGlyph(_)) => Err(PrintedRefused::Departs(offset)),
        Err(GlyphRefused::WantOfMemory) => Err(PrintedRefused::WantOfMemory),
    }
}

impl Section {
    // Whether the journal was not begun.
    fn takes_headings(&self) -> bool
        ensures { result ≡ takes_headings (plain_section self.now) }
    {
        matches!(self, Section::Start | Section::User(_))
    }

    // The user whose lines come, if one's do.
    fn user(&self) -> Option<u32>
        ensures { result ≡ user_so_far (plain_section self.now) }
    {
        match self {
            Section::User(one) => Some(one.user),
            _ => None,
        }
    }
}

// Adds an entry behind others, where this is its place. The line at the offset has it.
fn add_entry(
    entries: &mut Journal,
    place: u64,
    told: Entry,
    offset: u64,
) -> Result<(), PrintedRefused>
    ensures { MatchResult result (λ _. (place ≡ length entries.old.items + 1) × (entries.new.items ≡ entries.old.items ++ plain_entry told ∷ []))
        (λ why. IsRefusal why (λ at. (at ≡ offset) × (place ≢ length entries.old.items + 1))) }
{
    if place != entries.as_slice().len() as u64 + 1 {
        drop(told);
        return Err(PrintedRefused::Departs(offset));
    }
    entries.push(told)?;
    Ok(())
}

impl Draft {
    /// Nothing is read yet.
    pub(crate) fn new(alloc: Global) -> Draft
        ensures { result ≡ nothing_read }
    {
        Draft {
            transcripts: List::new(alloc),
            section: Section::Start,
        }
    }

    /// Whether the end was read.
    pub(crate) fn is_ended(&self) -> bool
        ensures { result ≡ is_at_end self.now.section }
    {
        matches!(self.section, Section::End(_))
    }

    // How many transcripts there are, the one whose lines come among them.
    fn count(&self) -> usize
        ensures { result ≡ length (transcripts_so_far self.now) }
    {
        let whole = self.transcripts.as_slice().len();
        match self.section {
            Section::User(_) => whole + 1,
            _ => whole,
        }
    }

    /// Adds a line that a user saw, of which the text behind its bar is given, and which stands at the offset. `Departs` where
    /// none may stand there; the draft is then spent. It takes memory for the line.
    pub(crate) fn add_shown(
        &mut self,
        alloc: Global,
        text: &[u8],
        offset: u64,
    ) -> Result<(), PrintedRefused>
        ensures { (users : OptionOf (ListOf ℕ)) → AddsText users self.old (bar ∷ text.now) self.new offset result }
    {
        match &mut self.section {
            Section::User(one) => {
                one.lines.push(glyphs_at(alloc, text, offset)?)?;
                Ok(())
            }
            _ => Err(PrintedRefused::Departs(offset)),
        }
    }

    /// Adds a line that no bar begins, and which stands at the offset. `Departs` where none may stand there; the draft is then
    /// spent. It takes memory for what it adds.
    pub(crate) fn add_other(
        &mut self,
        alloc: Global,
        users: Option<&[u32]>,
        line: &[u8],
        offset: u64,
    ) -> Result<(), PrintedRefused>
        requires { IsNoContent line.now }
        ensures { AddsText (option_copied users.entry) self.old line.now self.new offset result }
    {
        if self.section.takes_headings() {
            self.add_heading(alloc, users, line, offset)
        } else {
            self.add_entry_line(alloc, line, offset)
        }
    }

    // Begins a section. What the one before it began is whole.
    fn begin(&mut self, section: Section) -> Result<(), WantOfMemory>
        ensures { OnOk result (self.new ≡ section_begun self.old (plain_section section)) }
    {
        match mem::replace(&mut self.section, section) {
            Section::User(one) => self.transcripts.push(one),
            Section::Start => Ok(()),
            Section::Entries(journal) | Section::End(journal) => {
                drop(journal);
                Ok(())
            }
        }
    }

    // Adds a heading, which stands at the offset.
    fn add_heading(
        &mut self,
        alloc: Global,
        users: Option<&[u32]>,
        line: &[u8],
        offset: u64,
    ) -> Result<(), PrintedRefused>
        requires plain { IsNoContent line.now }
        requires takes { IsTrue (takes_headings self.old.section) }
        ensures { AddsText (option_copied users.entry) self.old line.now self.new offset result }
    {
        if is_journal(line) {
            return self.begin_journal(alloc, users, offset);
        }
        let glyphs = glyphs_at(alloc, line, offset)?;
        match user_of(glyphs.as_slice()) {
            None => Err(PrintedRefused::Departs(offset)),
            Some(number) => self.begin_user(alloc, users, number, offset),
        }
    }

    // Begins the journal, whose heading stands at the offset.
    fn begin_journal(
        &mut self,
        alloc: Global,
        users: Option<&[u32]>,
        offset: u64,
    ) -> Result<(), PrintedRefused>
        requires { IsTrue (takes_headings self.old.section) }
        ensures { Adds (option_copied users.entry) self.old journal self.new offset result }
    {
        if !are_all(users, self.count()) {
            return Err(PrintedRefused::Departs(offset));
        }
        self.begin(Section::Entries(Journal::new(alloc)))?;
        Ok(())
    }

    // Begins what a user saw, whose heading stands at the offset.
    fn begin_user(
        &mut self,
        alloc: Global,
        users: Option<&[u32]>,
        number: u32,
        offset: u64,
    ) -> Result<(), PrintedRefused>
        requires { IsTrue (takes_headings self.old.section) }
        ensures { Adds (option_copied users.entry) self.old (user number) self.new offset result }
    {
        if !is_next(users, self.count(), self.section.user(), number) {
            return Err(PrintedRefused::Departs(offset));
        }
        self.begin(Section::User(PrintedTranscript {
            user: number,
            lines: LineList::new(alloc),
        }))?;
        Ok(())
    }

    // Adds an entry or the end, which stands at the offset.
    fn add_entry_line(
        &mut self,
        alloc: Global,
        line: &[u8],
        offset: u64,
    ) -> Result<(), PrintedRefused>
        requires plain { IsNoContent line.now }
        requires takes { takes_headings self.old.section ≢ true }
        ensures { (users : OptionOf (ListOf ℕ)) → AddsText users self.old line.now self.new offset result }
    {
        if is_end(line) {
            return self.end(offset);
        }
        let glyphs = glyphs_at(alloc, line, offset)?;
        match read(alloc, &glyphs) {
            Ok((place, entry)) => self.add_entry(place, entry, offset),
            Err(EntryRefused::BadEntry(_)) => Err(PrintedRefused::Departs(offset)),
            Err(EntryRefused::WantOfMemory) => Err(PrintedRefused::WantOfMemory),
        }
    }

    // Adds an entry, where this is its place, which stands at the offset.
    fn add_entry(&mut self, place: u64, told: Entry, offset: u64) -> Result<(), PrintedRefused>
        ensures { (users : OptionOf (ListOf ℕ)) → Adds users self.old (entry place (plain_entry told)) self.new offset result }
    {
        match &mut self.section {
            Section::Entries(entries) => add_entry(entries, place, told, offset),
            _ => {
                drop(told);
                Err(PrintedRefused::Departs(offset))
            }
        }
    }

    // Adds the end, which stands at the offset.
    fn end(&mut self, offset: u64) -> Result<(), PrintedRefused>
        ensures { (users : OptionOf (ListOf ℕ)) → Adds users self.old end self.new offset result }
    {
        match mem::replace(&mut self.section, Section::Start) {
            Section::Entries(entries) => {
                self.section = Section::End(entries);
                Ok(())
            }
            other => {
                drop(other);
                Err(PrintedRefused::Departs(offset))
            }
        }
    }

    /// What the output tells, where the end was read.
    pub(crate) fn finish(self) -> Option<Printed>
        ensures { MatchOption result (is_at_end self.section ≡ false)
            (λ printed. (is_at_end self.section ≡ true) × (printed ≡ record { transcripts = self.transcripts; journal = entries_in self.section })) }
    {
        let Draft {
            transcripts,
            section,
        } = self;
        match section {
            Section::End(journal) => Some(Printed::of_parts(PrintedParts {
                transcripts,
                journal,
            })),
            other => {
                drop(other);
                None
            }
        }
    }
}
