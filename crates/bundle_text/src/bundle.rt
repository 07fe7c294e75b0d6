ghost use Rattle.std.specs.Prelude.{◌≡◌, map};
ghost use Rattle.apl_arrays.specs.FileList.{plain_file};
ghost use Rattle.bundle_text.specs.User.{plain_user};
ghost use Rattle.bundle_text.specs.Rules.{IsBundle};
ghost use Rattle.bundle_text.specs.Offset.{offset_of};

use crate::offset::offset_of;
use crate::user::{BundleUser, UserList};
use apl_arrays::{File, FileList, PartyList, Readings};
use std::marker::Model;

/// What a bundle has: users and the lines of their input, the parties of turns, files, and the readings of a clock.
#[derive(Debug, Drop)]
pub struct BundleParts {
    pub users: UserList,
    pub order: PartyList,
    pub files: FileList,
    pub clock: Readings,
}

/// A bundle: users and the lines of their input, the parties of turns, files, and the readings of a clock. It keeps the
/// rules of bundles, and is seen as plain data.
#[derive(Debug, Drop)]
pub struct Bundle {
    parts: BundleParts,
}

impl Model for Bundle {
    ghost use Rattle.bundle_text.specs.Rules.{PlainBundle, IsBundle};
    ghost use Rattle.bundle_text.specs.Parts.{bundle_of_parts};

    ghost Value = { PlainBundle };

    ghost view = { λ b. bundle_of_parts b.parts };

    ghost invariant = { λ b. IsBundle (bundle_of_parts b.parts) };
}

impl Bundle {
    ghost use Rattle.bundle_text.specs.Parts.{bundle_of_parts};

    // The bundle of parts that keep the rules.
    pub(crate) fn of_parts(parts: BundleParts) -> Bundle
        requires { IsBundle (bundle_of_parts parts) }
        ensures { result ≡ bundle_of_parts parts }
    {
        Bundle { parts }
    }

    /// The users, their numbers ascending.
    pub fn users(&self) -> &[BundleUser]
        ensures value { map plain_user result.now ≡ self.now.users }
        ensures bundle { IsBundle self.now }
    {
        self.parts.users.as_slice()
    }

    /// The parties that take the first turns, one after another.
    pub fn order(&self) -> &[u32]
        ensures value { result.now ≡ self.now.order }
        ensures bundle { IsBundle self.now }
    {
        self.parts.order.as_slice()
    }

    /// The files, their names ascending.
    pub fn files(&self) -> &[File]
        ensures value { map plain_file result.now ≡ self.now.files }
        ensures bundle { IsBundle self.now }
    {
        self.parts.files.as_slice()
    }

    /// The readings of the clock, the first one first.
    pub fn clock(&self) -> &[i64]
        ensures value { result.now ≡ self.now.clock }
        ensures bundle { IsBundle self.now }
    {
        self.parts.clock.as_slice()
    }

    /// The users as a list.
    pub fn into_users(self) -> UserList
        ensures value { result.items ≡ self.users }
        ensures bundle { IsBundle self }
    {
        let BundleParts {
            users,
            order: _order,
            files: _files,
            clock: _clock,
        } = self.parts;
        users
    }

    /// All that it has.
    pub fn into_parts(self) -> BundleParts
        ensures value { bundle_of_parts result ≡ self }
        ensures bundle { IsBundle self }
    {
        self.parts
    }

    /// Where a line of a user begins in the bundle's text, both counted from 0: how many bytes stand in front of its bar.
    /// A line past the user's last stands where its lines end, and a user past the last where the lines of users end.
    pub fn offset_of(&self, user: usize, line: usize) -> u64
        ensures { result ≡ offset_of self.now.users user line }
    {
        offset_of(self.parts.users.as_slice(), user, line)
    }
}
