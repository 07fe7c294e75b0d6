ghost use Rattle.std.specs.Prelude.{◌≡◌, ◌+◌, ◌<◌, ◌≤◌, ◌∷◌, [], ◌++◌, IsOk, OnOk, OnErr, map};
ghost use Rattle.apl_arrays.specs.Ascending.{AscendBy};
ghost use Rattle.bundle_text.specs.User.{plain_user};

use apl_arrays::{LineList, List, WantOfMemory};
use std::alloc::Global;
use std::marker::Model;

/// A user of a bundle: its number, and the lines of its input.
#[derive(Debug, Drop)]
pub struct BundleUser {
    pub number: u32,
    pub lines: LineList,
}

/// Users, their numbers ascending. It is seen as numbers and lines, and the room that is left.
#[derive(Debug, Drop)]
pub struct UserList {
    users: List<BundleUser>,
}

impl Model for UserList {
    ghost use Rattle.std.specs.Prelude.{map};
    ghost use Rattle.apl_arrays.specs.List.{Listed};
    ghost use Rattle.apl_arrays.specs.Ascending.{AscendBy};
    ghost use Rattle.bundle_text.specs.User.{PlainUser, plain_user};

    ghost Value = { Listed PlainUser };

    ghost view = { λ l. record { items = map plain_user l.users.items; room = l.users.room } };

    ghost invariant = { λ l. AscendBy (λ user. user.number) (map plain_user l.users.items) };
}

impl UserList {
    /// No users.
    pub fn new(alloc: Global) -> Self
        ensures { result.items ≡ [] }
    {
        UserList {
            users: List::new(alloc),
        }
    }

    /// The users, their numbers ascending.
    pub fn as_slice(&self) -> &[BundleUser]
        ensures value { map plain_user result.now ≡ self.now.items }
        ensures ascending { AscendBy (λ user. user.number) self.now.items }
    {
        self.users.as_slice()
    }

    /// The users as a `Vec`.
    pub fn into_vec(self) -> Vec<BundleUser>
        ensures value { map plain_user result.items ≡ self.items }
        ensures ascending { AscendBy (λ user. user.number) self.items }
    {
        self.users.into_vec()
    }

    /// Makes room for at least so many pushes, and takes memory for it. `WantOfMemory` leaves the list as it was.
    pub fn reserve(&mut self, room: usize) -> Result<(), WantOfMemory>
        ensures items { self.new.items ≡ self.old.items }
        ensures room { OnOk result (room ≤ self.new.room) }
        ensures kept { self.old.room ≤ self.new.room }
        ensures err { OnErr result (self.new ≡ self.old) }
        ensures granted { room ≤ self.old.room → IsOk result }
    {
        self.users.reserve(room)
    }

    /// Adds a user at the end, whose number has to be above the others. Where there is room it is granted and takes no
    /// memory, else it takes memory for more. `WantOfMemory` leaves the list as it was.
    pub fn push(&mut self, user: BundleUser) -> Result<(), WantOfMemory>
        requires { AscendBy (λ user. user.number) (self.old.items ++ plain_user user ∷ []) }
        ensures ok { OnOk result (self.new.items ≡ self.old.items ++ plain_user user ∷ []) }
        ensures err { OnErr result (self.new ≡ self.old) }
        ensures granted { 0 < self.old.room → IsOk result }
        ensures room { 0 < self.old.room → self.new.room + 1 ≡ self.old.room }
    {
        self.users.push(user)
    }
}
