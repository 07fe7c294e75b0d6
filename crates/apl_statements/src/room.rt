ghost use Rattle.std.specs.Prelude.{◌≡◌, ◌<◌, ◌≤◌, IfSome, OnOk, vec_len};
ghost use Rattle.std.specs.Arc.{arc_value};
ghost use Rattle.apl_values.specs.Parts.{IsReadFrom};

use crate::evaluation::Evaluation;
use crate::interpreter::Interpreter;
use apl_arrays::{Line, WantOfMemory};
use apl_values::{KnownLine, LineReading, StackValue};
use std::sync::Arc;

/// How many texts are known at a time.
const KNOWN_LIMIT: usize = 64;

impl Interpreter {
    /// A list for the values of a statement: the one that was given back last, of those that no statement has.
    pub fn take_room(&mut self) -> Vec<StackValue>
        ensures { self.new ≡ self.old }
    {
        match self.rooms.pop() {
            None => Vec::new(self.alloc),
            Some(room) => room,
        }
    }

    /// A statement is over: another one has its list of values, where there is memory for its place.
    pub fn give_room(&mut self, e: Evaluation)
        ensures { self.new ≡ self.old }
    {
        let Evaluation { values, .. } = e;
        drop(self.rooms.push(values));
    }

    /// The reading of a text, where the text is known and the workspace reads it so.
    pub fn known_reading(&self, text: &Line) -> Option<&Arc<LineReading>>
        ensures { IfSome result (λ reading. IsReadFrom self.now.workspace text.now.items (arc_value reading.now)) }
    {
        let known = self.known.get(place_of(text))?.as_ref()?;
        if known.is_read_on(&self.workspace, text) {
            Some(known.reading())
        } else {
            None
        }
    }

    /// A text is known from now on, in place of one that has its place; where there is no memory for places it stays unknown.
    pub fn know(&mut self, known: KnownLine)
        ensures { self.new ≡ self.old }
    {
        let place = place_of(known.text());
        match make_places(&mut self.known) {
            Ok(()) => self.known[place] = Some(known),
            Err(WantOfMemory) => drop(known),
        }
    }
}

// Places for all texts that are known at a time. It takes memory for them.
fn make_places(known: &mut Vec<Option<KnownLine>>) -> Result<(), WantOfMemory>
    ensures { OnOk result (64 ≤ vec_len known.new) }
{
    'places: while known.len() < KNOWN_LIMIT {
        known.push(None)?;
    }
    Ok(())
}

// The place of a text among those that are known.
fn place_of(text: &Line) -> usize
    ensures { result < 64 }
{
    let mut sum: u32 = 0;
    for glyph in text.as_slice() {
        sum = sum.wrapping_mul(31).wrapping_add(u32::from(glyph.code()));
    }
    sum as usize % KNOWN_LIMIT
}
