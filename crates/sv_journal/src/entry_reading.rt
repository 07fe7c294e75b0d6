ghost use Rattle.std.specs.Prelude.{◌≡◌, ◌-◌, ℕ, length};
ghost use Rattle.sv_events.specs.Entry.{PlainEntry, plain_entry};
ghost use Rattle.text_reader.specs.Reading.{Gives, read_step};
ghost use Rattle.sv_journal.specs.EntryReading.{read_entry, is_left, read_pair, read_pairs};
ghost use Rattle.sv_journal.specs.EntryText.{entry_text};
ghost use Rattle.sv_journal.specs.IsEntry.{IsEntry};
ghost use Rattle.sv_journal.specs.ReadsEntry.{ReadsEntry, ReadsThisEntry, refusal};

use crate::act_reading::{read_act, read_party};
use crate::act_word::ActWord;
use crate::answer_reading::read_answer;
use apl_arrays::{Line, List};
use std::alloc::Global;
use std::error::Error;
use std::fmt;
use sv_events::{Entry, Pair, PairList};
use text_reader::{Cursor, Unread};

/// Why a line is not read as an entry.
#[derive(Clone, Copy, Debug, PartialEq, Eq)]
pub enum EntryRefused {
    /// It is no entry's text. The number says how far one could read it as the front of some entry's text.
    BadEntry(u64),
    /// Memory ran out.
    WantOfMemory,
}

impl fmt::Display for EntryRefused {
    fn fmt<W: fmt::Write>(&self, f: &mut fmt::Formatter<W>) -> fmt::Result {
        match self {
            EntryRefused::BadEntry(at) => write!(f, "no entry from {at}"),
            EntryRefused::WantOfMemory => f.write_str("out of memory"),
        }
    }
}

impl Error for EntryRefused {}

/// The place and the entry whose text a line is. `BadEntry` where it is no entry's text, else `WantOfMemory`. It takes
/// memory for the values and lists of the entry.
pub fn read(alloc: Global, line: &Line) -> Result<(u64, Entry), EntryRefused>
    ensures value { ReadsEntry result line.now.items }
    ensures again { (place : ℕ) (entry : PlainEntry) → IsEntry place entry → line.now.items ≡ entry_text place entry → ReadsThisEntry result place entry }
{
    let mut cursor = Cursor::new(line.as_slice());
    match read_entry(alloc, &mut cursor) {
        Ok(found) => Ok(found),
        Err(why) => Err(refused(line, why)),
    }
}

// Why the line is refused, where the reading stops so.
fn refused(line: &Line, why: Unread) -> EntryRefused
    ensures { result ≡ refusal (length line.now.items) why }
{
    match why {
        Unread::Left(left) => EntryRefused::BadEntry(read_part(line, left)),
        Unread::WantOfMemory => EntryRefused::WantOfMemory,
    }
}

// How long the part of a line is in front of so many glyphs that are left.
fn read_part(line: &Line, left: usize) -> u64
    ensures { result ≡ length line.now.items - left }
{
    line.as_slice().len().saturating_sub(left) as u64
}

// Reads an entry to the end of the line.
#[tactic(auto, unfolding(crate::specs::EntryReading::read_entry))]
fn read_entry(alloc: Global, cursor: &mut Cursor<'_>) -> Result<(u64, Entry), Unread>
    ensures { Gives (λ found. ((found.0, plain_entry found.1), cursor.new)) result (read_entry cursor.old) }
{
    let place = cursor.number(1, u64::MAX)?;
    let party = read_party(cursor)?;
    cursor.text(b" ")?;
    let act = read_act(alloc, cursor)?;
    cursor.text(b" : ")?;
    let answer = read_answer(alloc, cursor, ActWord::of(&act).answers())?;
    let made = read_pairs(alloc, cursor)?;
    let entry = Entry {
        party,
        act,
        answer,
        made,
    };
    Ok((place, entry))
}

// Reads pairs to the end of the line.
fn read_pairs(alloc: Global, cursor: &mut Cursor<'_>) -> Result<PairList, Unread>
    ensures { Gives (λ pairs. (pairs.items, cursor.new)) result (read_pairs cursor.old) }
{
    let mut pairs = List::new(alloc);
    let most = cursor.left();
    for _ in 0..most {
        add_pair(cursor, &mut pairs)?;
    }
    Ok(pairs)
}

// Reads a pair more, where the line is not at its end.
fn add_pair(cursor: &mut Cursor<'_>, pairs: &mut PairList) -> Result<(), Unread>
    ensures { Gives (λ _. (pairs.new.items, cursor.new)) result (read_step is_left read_pair pairs.old.items cursor.old) }
{
    if cursor.first().is_some() {
        let pair = read_pair(cursor)?;
        pairs.push(pair)?;
        Ok(())
    } else {
        Ok(())
    }
}

// Reads a pair, the lower place first.
#[tactic(auto, unfolding(crate::specs::EntryReading::read_pair))]
fn read_pair(cursor: &mut Cursor<'_>) -> Result<Pair, Unread>
    ensures { Gives (λ pair. (pair, cursor.new)) result (read_pair cursor.old) }
{
    cursor.text(b" + ")?;
    let a = cursor.number(1, u64::MAX - 1)?;
    cursor.text(b" ")?;
    let b = cursor.number(a + 1, u64::MAX)?;
    Ok(Pair { a, b })
}
