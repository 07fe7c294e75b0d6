ghost use Rattle.std.specs.Prelude.{◌≡◌, []};
ghost use Rattle.bundle_text.specs.Draft.{of_user, of_file, takes_user, turns_may_stand, takes_file, is_at_end};
ghost use Rattle.bundle_text.specs.Section.{plain_section};

use crate::user::BundleUser;
use apl_arrays::{FileName, LineList};
use std::alloc::Global;

/// A file whose lines are read: its name, and its bytes so far.
#[derive(Debug, Drop)]
pub struct OpenFile {
    pub name: FileName,
    pub bytes: Vec<u8>,
}

/// What the last heading began.
#[derive(Debug, Drop)]
pub enum Section {
    /// No heading was read.
    Start,
    /// The lines of a user.
    User(BundleUser),
    /// Turns.
    Order,
    /// The lines of a file.
    File(OpenFile),
    /// Readings.
    Clock,
    /// The end.
    End,
}

impl Section {
    /// The section of a user, without lines.
    pub fn user(alloc: Global, number: u32) -> Section
        ensures { plain_section result ≡ of_user (record { number = number; lines = [] }) }
    {
        Section::User(BundleUser {
            number,
            lines: LineList::new(alloc),
        })
    }

    /// The section of a file, without lines.
    pub fn file(alloc: Global, name: FileName) -> Section
        ensures { plain_section result ≡ of_file (record { name = name; bytes = [] }) }
    {
        Section::File(OpenFile {
            name,
            bytes: Vec::new(alloc),
        })
    }

    /// Whether a user of this number may follow: behind no heading, or behind a user of a lower number.
    pub fn takes_user(&self, number: u32) -> bool
        ensures { result ≡ takes_user (plain_section self.now) number }
    {
        match self {
            Section::Start => true,
            Section::User(last) => last.number < number,
            _ => false,
        }
    }

    /// Whether turns may follow: behind no heading, a user, or turns.
    pub fn takes_turns(&self) -> bool
        ensures { result ≡ turns_may_stand (plain_section self.now) }
    {
        matches!(self, Section::Start | Section::User(_) | Section::Order)
    }

    /// Whether a file of this name may follow: behind no heading, a user, turns, or a file whose name is before it.
    pub fn takes_file(&self, name: &FileName) -> bool
        ensures { result ≡ takes_file (plain_section self.now) name.now }
    {
        match self {
            Section::Start | Section::User(_) | Section::Order => true,
            Section::File(last) => last.name < *name,
            Section::Clock | Section::End => false,
        }
    }

    /// Whether the end was read.
    pub fn is_ended(&self) -> bool
        ensures { result ≡ is_at_end (plain_section self.now) }
    {
        matches!(self, Section::End)
    }
}
