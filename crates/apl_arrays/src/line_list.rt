ghost use Rattle.std.specs.Prelude.{◌≡◌, ◌+◌, ◌<◌, ◌≤◌, ◌∷◌, [], ◌++◌, Some, IfOk, IsOk, OnOk, OnErr, length, map, insert, remove, slice_get, slice_set};
ghost use Rattle.apl_arrays.specs.List.{glyphs_in};

use crate::{Line, List, WantOfMemory};
use std::alloc::Global;
use std::marker::Model;

/// The most glyphs of a line that is read, executed or kept in a function.
pub const LINE_GLYPH_LIMIT: usize = 1_000;

/// Lines of glyphs, seen as such and as the room that is left.
#[derive(Debug, Drop)]
pub struct LineList {
    lines: List<Line>,
}

impl Model for LineList {
    ghost use Rattle.std.specs.Prelude.{ℕ, List, map};
    ghost use Rattle.apl_arrays.specs.List.{Listed, glyphs_in};

    ghost Value = { Listed (List ℕ) };

    ghost view = { λ l. record { items = map glyphs_in l.lines.items; room = l.lines.room } };
}

impl LineList {
    /// No lines.
    pub fn new(alloc: Global) -> Self
        ensures { result.items ≡ [] }
    {
        LineList {
            lines: List::new(alloc),
        }
    }

    /// The lines, in order.
    pub fn as_slice(&self) -> &[Line]
        ensures { map glyphs_in result.now ≡ self.now.items }
    {
        self.lines.as_slice()
    }

    /// The lines as a `Vec`.
    pub fn into_vec(self) -> Vec<Line>
        ensures { map glyphs_in result.items ≡ self.items }
    {
        self.lines.into_vec()
    }

    /// Makes room for at least so many pushes, and takes memory for it. `WantOfMemory` leaves the list as it was.
    pub fn reserve(&mut self, room: usize) -> Result<(), WantOfMemory>
        ensures items { self.new.items ≡ self.old.items }
        ensures room { OnOk result (room ≤ self.new.room) }
        ensures kept { self.old.room ≤ self.new.room }
        ensures err { OnErr result (self.new ≡ self.old) }
        ensures granted { room ≤ self.old.room → IsOk result }
    {
        self.lines.reserve(room)
    }

    /// Adds a line at the end. Where there is room it is granted and takes no memory, else it takes memory for more.
    /// `WantOfMemory` leaves the list as it was.
    pub fn push(&mut self, line: Line) -> Result<(), WantOfMemory>
        ensures ok { OnOk result (self.new.items ≡ self.old.items ++ line.items ∷ []) }
        ensures err { OnErr result (self.new ≡ self.old) }
        ensures granted { 0 < self.old.room → IsOk result }
        ensures room { 0 < self.old.room → self.new.room + 1 ≡ self.old.room }
    {
        self.lines.push(line)
    }

    /// A list of the same lines. It takes memory for them.
    pub fn copy(&self, alloc: Global) -> Result<Self, WantOfMemory>
        ensures { IfOk result (λ lines. lines.items ≡ self.now.items) }
    {
        let mut lines = List::new(alloc);
        for line in self.lines.as_slice() {
            lines.push(line.copy(alloc)?)?;
        }
        Ok(LineList { lines })
    }

    /// Puts a line in at a place from 0, before those that stand from there on. Where there is room it is granted and
    /// takes no memory, else it takes memory for more. `WantOfMemory` leaves the list as it was.
    pub fn insert(&mut self, at: usize, line: Line) -> Result<(), WantOfMemory>
        requires { at ≤ length self.old.items }
        ensures ok { OnOk result (self.new.items ≡ insert self.old.items at line.items) }
        ensures err { OnErr result (self.new ≡ self.old) }
        ensures granted { 0 < self.old.room → IsOk result }
        ensures room { 0 < self.old.room → self.new.room + 1 ≡ self.old.room }
    {
        self.lines.insert(at, line)
    }

    /// Puts a line in place of another, and hands out that one.
    pub fn replace(&mut self, at: usize, line: Line) -> Line
        requires { at < length self.old.items }
        ensures items { self.new.items ≡ slice_set self.old.items at line.items }
        ensures room { self.new.room ≡ self.old.room }
        ensures replaced { slice_get self.old.items at ≡ Some result.items }
    {
        self.lines.replace(at, line)
    }

    /// Takes the line at a place out, and hands it out.
    pub fn remove(&mut self, at: usize) -> Line
        requires { at < length self.old.items }
        ensures items { self.new.items ≡ remove self.old.items at }
        ensures room { self.new.room ≡ self.old.room + 1 }
        ensures removed { slice_get self.old.items at ≡ Some result.items }
    {
        self.lines.remove(at)
    }
}

impl From<Vec<Line>> for LineList {
    ghost from_gives = { λ v l. l.items ≡ map glyphs_in v.items };

    fn from(lines: Vec<Line>) -> Self {
        LineList {
            lines: List::from(lines),
        }
    }
}
