ghost use Rattle.std.specs.Prelude.{◌≡◌, All, ◌<◌, ◌^◌, ◌∷◌, [], ◌++◌, ℕ, OnOk, IfOk, map, length, decimal, OnErr};
ghost use Rattle.std.specs.List.{flat_map};
ghost use Rattle.apl_arrays.specs.Front.{KeepsFront};
ghost use Rattle.apl_arrays.specs.Name.{IsName};
ghost use Rattle.line_text.specs.Spaced.{spaced};
ghost use Rattle.sv_events.specs.Entry.{PlainEntry, plain_entry};
ghost use Rattle.sv_journal.specs.EntryText.{pair_text, entry_text};
ghost use Rattle.sv_journal.specs.Printable.{IsPrintablePair, IsPrintableEntry};

use crate::act_text::add_act;
use crate::answer_text::add_answer;
use apl_arrays::{Line, List, WantOfMemory};
use line_text::{add_blank, add_count, add_text};
use std::alloc::Global;
use sv_events::{Entry, Pair};

// Adds a pair.
fn add_pair(line: &mut Line, pair: Pair) -> Result<(), WantOfMemory>
    ensures text { OnOk result (line.new.items ≡ line.old.items ++ pair_text pair) }
    ensures front { OnErr result (KeepsFront line.old.items line.new.items) }
    ensures printable { OnOk result (IsPrintablePair pair) }
{
    add_text(line, " + ")?;
    add_count(line, pair.a)?;
    add_blank(line)?;
    add_count(line, pair.b)
}

// Adds pairs.
fn add_pairs(line: &mut Line, pairs: &[Pair]) -> Result<(), WantOfMemory>
    ensures text { OnOk result (line.new.items ≡ line.old.items ++ flat_map pair_text pairs.now) }
    ensures front { OnErr result (KeepsFront line.old.items line.new.items) }
    ensures printable { OnOk result (All IsPrintablePair pairs.now) }
{
    for pair in pairs {
        add_pair(line, *pair)?;
    }
    Ok(())
}

/// Adds an entry at its place, as `text_of` has it. It takes memory for it; where that runs out, a part of the text may
/// stand behind what stood there.
pub(crate) fn add_entry(line: &mut Line, place: u64, entry: &Entry) -> Result<(), WantOfMemory>
    ensures text { OnOk result (line.new.items
        ≡ line.old.items ++ entry_text place (plain_entry entry.now)) }
    ensures front { OnErr result (KeepsFront line.old.items line.new.items) }
    ensures printable { OnOk result (IsPrintableEntry (plain_entry entry.now)) }
{
    add_count(line, place)?;
    add_blank(line)?;
    add_count(line, u64::from(entry.party))?;
    add_blank(line)?;
    add_act(line, &entry.act)?;
    add_text(line, " : ")?;
    add_answer(line, &entry.answer)?;
    add_pairs(line, entry.made.as_slice())
}

/// The text of an entry at its place, which counts from 1: party, act, answer, and the pairs that it made. No entry of a
/// journal has the answer `Full`; its text is the word `full`. It takes memory for the line.
pub fn text_of(alloc: Global, place: u64, entry: &Entry) -> Result<Line, WantOfMemory>
    ensures text { IfOk result (λ line. line.items ≡ entry_text place (plain_entry entry.now)) }
    ensures printable { OnOk result ((place < 2 ^ 64) × IsPrintableEntry (plain_entry entry.now)) }
{
    let mut line = List::new(alloc);
    add_entry(&mut line, place, entry)?;
    Ok(line)
}

/// A text tells the place, and each part of its entry, so that no other entry has it. The call does nothing.
pub fn an_entry_is_read_in_one_way()
    ensures { (place other : ℕ) (entry another : PlainEntry) → place < 2 ^ 64 → other < 2 ^ 64
        → IsPrintableEntry entry → IsPrintableEntry another
        → entry_text place entry ≡ entry_text other another → (place ≡ other) × (entry ≡ another) }
{}
