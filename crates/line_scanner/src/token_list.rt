ghost use Rattle.std.specs.Prelude.{◌≡◌, ◌+◌, ◌<◌, ◌≤◌, ◌∷◌, [], ◌++◌, IsOk, OnOk, OnErr, map};
ghost use Rattle.line_scanner.specs.Token.{plain_token};

use crate::Token;
use apl_arrays::{List, WantOfMemory};
use std::alloc::Global;
use std::marker::Model;

/// Tokens, seen as plain data and as the room that is left.
#[derive(Debug, Drop)]
pub struct TokenList {
    tokens: List<Token>,
}

impl Model for TokenList {
    ghost use Rattle.std.specs.Prelude.{map};
    ghost use Rattle.apl_arrays.specs.List.{Listed};
    ghost use Rattle.line_scanner.specs.Token.{PlainToken, plain_token};

    ghost Value = { Listed PlainToken };

    ghost view = { λ l. record { items = map plain_token l.tokens.items; room = l.tokens.room } };
}

impl TokenList {
    /// No tokens.
    pub fn new(alloc: Global) -> Self
        ensures { result.items ≡ [] }
    {
        TokenList {
            tokens: List::new(alloc),
        }
    }

    /// The tokens, in order.
    pub fn as_slice(&self) -> &[Token]
        ensures { map plain_token result.now ≡ self.now.items }
    {
        self.tokens.as_slice()
    }

    /// The tokens as a `Vec`.
    pub fn into_vec(self) -> Vec<Token>
        ensures { map plain_token result.items ≡ self.items }
    {
        self.tokens.into_vec()
    }

    /// Makes room for at least so many pushes, and takes memory for it. `WantOfMemory` leaves the list as it was.
    pub fn reserve(&mut self, room: usize) -> Result<(), WantOfMemory>
        ensures items { self.new.items ≡ self.old.items }
        ensures room { OnOk result (room ≤ self.new.room) }
        ensures kept { self.old.room ≤ self.new.room }
        ensures err { OnErr result (self.new ≡ self.old) }
        ensures granted { room ≤ self.old.room → IsOk result }
    {
        self.tokens.reserve(room)
    }

    /// Adds a token at the end. Where there is room it is granted and takes no memory, else it takes memory for more.
    /// `WantOfMemory` leaves the list as it was.
    pub fn push(&mut self, token: Token) -> Result<(), WantOfMemory>
        ensures ok { OnOk result (self.new.items ≡ self.old.items ++ plain_token token ∷ []) }
        ensures err { OnErr result (self.new ≡ self.old) }
        ensures granted { 0 < self.old.room → IsOk result }
        ensures room { 0 < self.old.room → self.new.room + 1 ≡ self.old.room }
    {
        self.tokens.push(token)
    }
}
