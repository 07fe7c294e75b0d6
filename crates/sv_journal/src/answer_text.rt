ghost use Rattle.std.specs.Prelude.{◌≡◌, All, ◌<◌, ◌^◌, ◌∷◌, ◌++◌, OnOk, map, codes, decimal, OnErr};
ghost use Rattle.std.specs.List.{flat_map};
ghost use Rattle.apl_arrays.specs.Front.{KeepsFront};
ghost use Rattle.apl_arrays.specs.Glyph.{blank};
ghost use Rattle.apl_arrays.specs.Name.{IsName};
ghost use Rattle.line_text.specs.Spaced.{spaced};
ghost use Rattle.sv_events.specs.Answer.{plain_answer, parties, names, kept};
ghost use Rattle.sv_journal.specs.EntryText.{answer_text};
ghost use Rattle.sv_journal.specs.Printable.{IsPrintableAnswer};

use crate::hold_text::{add_control, add_hold};
use apl_arrays::{Array, Line, Name, WantOfMemory};
use line_text::{add_blank, add_count, add_glyphs, add_text};
use sv_access::Control;
use sv_events::{Answer, Hold};
use sv_text::{add_array, add_value};

/// Adds an answer at the end of a line. It takes memory for it; where that runs out, a part of the text may stand behind what stood there.
pub(crate) fn add_answer(line: &mut Line, answer: &Answer) -> Result<(), WantOfMemory>
    ensures text { OnOk result (line.new.items
        ≡ line.old.items ++ answer_text (plain_answer answer.now)) }
    ensures front { OnErr result (KeepsFront line.old.items line.new.items) }
    ensures printable { OnOk result (IsPrintableAnswer (plain_answer answer.now)) }
{
    match answer {
        Answer::Degree(degree) => add_degree(line, *degree),
        Answer::Granted => add_text(line, "granted"),
        Answer::Value(value) => add_told(line, value),
        Answer::NoValue => add_text(line, "novalue"),
        Answer::Held(hold) => add_held(line, *hold),
        Answer::Abandoned(hold) => add_abandoned(line, *hold),
        Answer::NotShared => add_text(line, "notshared"),
        Answer::OfferLimit => add_text(line, "limit"),
        Answer::Full => add_text(line, "full"),
        Answer::Vector(control) => add_vector(line, *control),
        Answer::Parties(list) => add_parties(line, list.as_slice()),
        Answer::Names(list) => add_names(line, list.as_slice()),
        Answer::Kept { degree, value } => add_kept(line, *degree, value),
        Answer::Done => add_text(line, "done"),
    }
}

// Adds the answer that tells a degree.
fn add_degree(line: &mut Line, degree: u8) -> Result<(), WantOfMemory>
    ensures text { OnOk result (line.new.items
        ≡ line.old.items ++ answer_text (plain_answer (Answer.Degree degree))) }
    ensures front { OnErr result (KeepsFront line.old.items line.new.items) }
    ensures printable { OnOk result (IsPrintableAnswer (plain_answer (Answer.Degree degree))) }
{
    add_text(line, "degree ")?;
    add_count(line, u64::from(degree))
}

// Adds the answer that tells a value.
fn add_told(line: &mut Line, value: &Array) -> Result<(), WantOfMemory>
    ensures text { OnOk result (line.new.items
        ≡ line.old.items ++ answer_text (plain_answer (Answer.Value value.now))) }
    ensures front { OnErr result (KeepsFront line.old.items line.new.items) }
    ensures printable { OnOk result (IsPrintableAnswer (plain_answer (Answer.Value value.now))) }
{
    add_text(line, "value ")?;
    add_array(line, value)
}

// Adds the answer that an access waits.
fn add_held(line: &mut Line, hold: Hold) -> Result<(), WantOfMemory>
    ensures text { OnOk result (line.new.items
        ≡ line.old.items ++ answer_text (plain_answer (Answer.Held hold))) }
    ensures front { OnErr result (KeepsFront line.old.items line.new.items) }
    ensures printable { OnOk result (IsPrintableAnswer (plain_answer (Answer.Held hold))) }
{
    add_text(line, "held ")?;
    add_hold(line, hold)
}

// Adds the answer that an access waits no longer.
fn add_abandoned(line: &mut Line, hold: Hold) -> Result<(), WantOfMemory>
    ensures text { OnOk result (line.new.items
        ≡ line.old.items ++ answer_text (plain_answer (Answer.Abandoned hold))) }
    ensures front { OnErr result (KeepsFront line.old.items line.new.items) }
    ensures printable { OnOk result (IsPrintableAnswer (plain_answer (Answer.Abandoned hold))) }
{
    add_text(line, "abandoned ")?;
    add_hold(line, hold)
}

// Adds the answer that tells a control or a state.
fn add_vector(line: &mut Line, control: Control) -> Result<(), WantOfMemory>
    ensures text { OnOk result (line.new.items
        ≡ line.old.items ++ answer_text (plain_answer (Answer.Vector control))) }
    ensures front { OnErr result (KeepsFront line.old.items line.new.items) }
    ensures printable { OnOk result (IsPrintableAnswer (plain_answer (Answer.Vector control))) }
{
    add_text(line, "vector ")?;
    add_control(line, control)
}

// Adds the answer that lists parties.
fn add_parties(line: &mut Line, list: &[u32]) -> Result<(), WantOfMemory>
    ensures text { OnOk result (line.new.items ≡ line.old.items ++ answer_text (parties list.now)) }
    ensures front { OnErr result (KeepsFront line.old.items line.new.items) }
    ensures printable { OnOk result (IsPrintableAnswer (parties list.now)) }
{
    add_text(line, "parties")?;
    for party in list {
        add_party(line, *party)?;
    }
    Ok(())
}

// Adds the answer that lists names.
fn add_names(line: &mut Line, list: &[Name]) -> Result<(), WantOfMemory>
    ensures text { OnOk result (line.new.items ≡ line.old.items ++ answer_text (names list.now)) }
    ensures front { OnErr result (KeepsFront line.old.items line.new.items) }
    ensures printable { OnOk result (IsPrintableAnswer (names list.now)) }
{
    add_text(line, "names")?;
    for name in list {
        add_name(line, name)?;
    }
    Ok(())
}

// Adds a party behind a blank.
fn add_party(line: &mut Line, party: u32) -> Result<(), WantOfMemory>
    ensures text { OnOk result (line.new.items ≡ line.old.items ++ (blank ∷ decimal party)) }
    ensures front { OnErr result (KeepsFront line.old.items line.new.items) }
    ensures printable { party < 2 ^ 64 }
{
    add_blank(line)?;
    add_count(line, u64::from(party))
}

// Adds a name behind a blank.
fn add_name(line: &mut Line, name: &Name) -> Result<(), WantOfMemory>
    ensures text { OnOk result (line.new.items ≡ line.old.items ++ (blank ∷ name.now)) }
    ensures front { OnErr result (KeepsFront line.old.items line.new.items) }
    ensures printable { OnOk result (IsName name.now) }
{
    add_blank(line)?;
    add_glyphs(line, name.glyphs())
}

// Adds the answer to a retraction.
fn add_kept(line: &mut Line, degree: u8, value: &Option<Array>) -> Result<(), WantOfMemory>
    ensures text { OnOk result (line.new.items
        ≡ line.old.items ++ answer_text (kept degree value.now)) }
    ensures front { OnErr result (KeepsFront line.old.items line.new.items) }
    ensures printable { OnOk result (IsPrintableAnswer (kept degree value.now)) }
{
    add_text(line, "kept ")?;
    add_count(line, u64::from(degree))?;
    add_blank(line)?;
    add_value(line, value)
}
