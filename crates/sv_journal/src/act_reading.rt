ghost use Rattle.std.specs.Prelude.{◌≡◌, IfErr};
ghost use Rattle.text_reader.specs.Reading.{Gives, IsLeft};
ghost use Rattle.sv_journal.specs.ActReading.{read_act, act_behind, read_offer, read_set_control, read_set, read_local, read_party};

use crate::act_word::{ACT_WORDS, ActWord};
use crate::hold_reading::read_control;
use crate::word::read_word;
use apl_arrays::Name;
use std::alloc::Global;
use sv_events::Act;
use sv_text::{read_array, read_value};
use text_reader::{Cursor, Unread};

/// Reads an act. It takes memory for its value.
#[tactic(auto, unfolding(crate::specs::ActReading::read_act))]
pub(crate) fn read_act(alloc: Global, cursor: &mut Cursor<'_>) -> Result<Act, Unread>
    ensures { Gives (λ act. (act, cursor.new)) result (read_act cursor.old) }
{
    let word = read_word(cursor, &ACT_WORDS)?;
    read_act_behind(alloc, cursor, word)
}

// Reads what stands behind the word of an act.
fn read_act_behind(alloc: Global, cursor: &mut Cursor<'_>, word: ActWord) -> Result<Act, Unread>
    ensures { Gives (λ act. (act, cursor.new)) result (act_behind word cursor.old) }
{
    match word {
        ActWord::Offer => read_offer(alloc, cursor),
        ActWord::Retract => Ok(Act::Retract(read_local(cursor)?)),
        ActWord::SetControl => read_set_control(cursor),
        ActWord::AskControl => Ok(Act::AskControl(read_local(cursor)?)),
        ActWord::AskState => Ok(Act::AskState(read_local(cursor)?)),
        ActWord::AskDegree => Ok(Act::AskDegree(read_local(cursor)?)),
        ActWord::AskParties => Ok(Act::AskParties),
        ActWord::AskNames => Ok(Act::AskNames(read_party(cursor)?)),
        ActWord::Set => read_set(alloc, cursor),
        ActWord::Use => Ok(Act::Use(read_local(cursor)?)),
        ActWord::Leave => Ok(Act::Leave),
    }
}

// Reads to whom an offer is made, its names and the value that is handed in.
#[tactic(auto, unfolding(crate::specs::ActReading::read_offer_parts))]
fn read_offer(alloc: Global, cursor: &mut Cursor<'_>) -> Result<Act, Unread>
    ensures { Gives (λ act. (act, cursor.new)) result (read_offer cursor.old) }
{
    let to = read_party(cursor)?;
    let local = read_local(cursor)?;
    let surrogate = read_local(cursor)?;
    cursor.text(b" ")?;
    let value = read_value(alloc, cursor)?;
    Ok(Act::Offer {
        to,
        local,
        surrogate,
        value,
    })
}

// Reads the name whose control is set, and the control.
#[tactic(auto, unfolding(crate::specs::ActReading::read_set_control_parts))]
fn read_set_control(cursor: &mut Cursor<'_>) -> Result<Act, Unread>
    ensures { Gives (λ act. (act, cursor.new)) result (read_set_control cursor.old) }
{
    let local = read_local(cursor)?;
    Ok(Act::SetControl(local, read_control(cursor)?))
}

// Reads the name that is set, and the value.
#[tactic(auto, unfolding(crate::specs::ActReading::read_set_parts))]
fn read_set(alloc: Global, cursor: &mut Cursor<'_>) -> Result<Act, Unread>
    ensures { Gives (λ act. (act, cursor.new)) result (read_set cursor.old) }
{
    let local = read_local(cursor)?;
    cursor.text(b" ")?;
    let value = read_array(alloc, cursor)?;
    Ok(Act::Set(local, value))
}

/// Reads a name behind a blank. It takes no memory.
#[tactic(auto, unfolding(crate::specs::ActReading::read_local))]
pub(crate) fn read_local(cursor: &mut Cursor<'_>) -> Result<Name, Unread>
    ensures value { Gives (λ name. (name, cursor.new)) result (read_local cursor.old) }
    ensures free { IfErr result IsLeft }
{
    cursor.text(b" ")?;
    cursor.name()
}

/// Reads a party behind a blank. It takes no memory.
#[tactic(auto, unfolding(crate::specs::ActReading::read_party))]
pub(crate) fn read_party(cursor: &mut Cursor<'_>) -> Result<u32, Unread>
    ensures value { Gives (λ party. (party, cursor.new)) result (read_party cursor.old) }
    ensures free { IfErr result IsLeft }
{
    cursor.text(b" ")?;
    let party = cursor.number(0, u64::from(u32::MAX))?;
    Ok(party as u32)
}
