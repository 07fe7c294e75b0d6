ghost use Rattle.std.specs.Prelude.{◌≡◌};
ghost use Rattle.sv_events.specs.Answer.{plain_answer};
ghost use Rattle.text_reader.specs.Reading.{Gives, read_step};
ghost use Rattle.sv_journal.specs.ActReading.{read_local, read_party};
ghost use Rattle.sv_journal.specs.AnswerReading.{read_answer, answer_behind, read_degree, read_kept, read_parties, read_names, read_told, list_goes_on};

use crate::act_reading::{read_local, read_party};
use crate::hold_reading::{read_control, read_hold};
use crate::word::{EntryWord, read_word};
use apl_arrays::{Array, Glyph, List, NameList, PartyList};
use std::alloc::Global;
use sv_events::{Answer, AnswerKind};
use sv_text::{read_array, read_value};
use text_reader::{Cursor, Unread};

impl EntryWord for AnswerKind {
    ghost use Rattle.sv_journal.specs.AnswerReading.{kind_word};

    ghost text = { kind_word };

    fn text(self) -> &'static [u8] {
        match self {
            AnswerKind::Degree => b"degree",
            AnswerKind::Granted => b"granted",
            AnswerKind::Value => b"value",
            AnswerKind::NoValue => b"novalue",
            AnswerKind::Held => b"held",
            AnswerKind::Abandoned => b"abandoned",
            AnswerKind::NotShared => b"notshared",
            AnswerKind::OfferLimit => b"limit",
            AnswerKind::Full => b"full",
            AnswerKind::Vector => b"vector",
            AnswerKind::Parties => b"parties",
            AnswerKind::Names => b"names",
            AnswerKind::Kept => b"kept",
            AnswerKind::Done => b"done",
        }
    }
}

/// Reads an answer of one of these kinds. It takes memory for its value or its list.
#[tactic(auto, unfolding(crate::specs::AnswerReading::read_answer))]
pub(crate) fn read_answer(
    alloc: Global,
    cursor: &mut Cursor<'_>,
    kinds: &[AnswerKind],
) -> Result<Answer, Unread>
    ensures { Gives (λ answer. (plain_answer answer, cursor.new)) result (read_answer kinds.now cursor.old) }
{
    let kind = read_word(cursor, kinds)?;
    read_answer_behind(alloc, cursor, kind)
}

// Reads what stands behind the word of an answer.
fn read_answer_behind(
    alloc: Global,
    cursor: &mut Cursor<'_>,
    kind: AnswerKind,
) -> Result<Answer, Unread>
    ensures { Gives (λ answer. (plain_answer answer, cursor.new)) result (answer_behind kind cursor.old) }
{
    match kind {
        AnswerKind::Degree => Ok(Answer::Degree(read_degree(cursor)?)),
        AnswerKind::Granted => Ok(Answer::Granted),
        AnswerKind::Value => Ok(Answer::Value(read_told(alloc, cursor)?)),
        AnswerKind::NoValue => Ok(Answer::NoValue),
        AnswerKind::Held => Ok(Answer::Held(read_hold(cursor)?)),
        AnswerKind::Abandoned => Ok(Answer::Abandoned(read_hold(cursor)?)),
        AnswerKind::NotShared => Ok(Answer::NotShared),
        AnswerKind::OfferLimit => Ok(Answer::OfferLimit),
        AnswerKind::Full => Ok(Answer::Full),
        AnswerKind::Vector => Ok(Answer::Vector(read_control(cursor)?)),
        AnswerKind::Parties => Ok(Answer::Parties(read_parties(alloc, cursor)?)),
        AnswerKind::Names => Ok(Answer::Names(read_names(alloc, cursor)?)),
        AnswerKind::Kept => read_kept(alloc, cursor),
        AnswerKind::Done => Ok(Answer::Done),
    }
}

// Reads a degree behind a blank.
#[tactic(auto, unfolding(crate::specs::AnswerReading::read_degree))]
fn read_degree(cursor: &mut Cursor<'_>) -> Result<u8, Unread>
    ensures { Gives (λ degree. (degree, cursor.new)) result (read_degree cursor.old) }
{
    cursor.text(b" ")?;
    let degree = cursor.number(0, 2)?;
    Ok(degree as u8)
}

// Reads a value that is told, behind a blank.
#[tactic(auto, unfolding(crate::specs::AnswerReading::read_told))]
fn read_told(alloc: Global, cursor: &mut Cursor<'_>) -> Result<Array, Unread>
    ensures { Gives (λ value. (value, cursor.new)) result (read_told cursor.old) }
{
    cursor.text(b" ")?;
    read_array(alloc, cursor)
}

// Reads the degree before a retraction, and the value that is kept.
#[tactic(auto, unfolding(crate::specs::AnswerReading::read_kept_parts))]
fn read_kept(alloc: Global, cursor: &mut Cursor<'_>) -> Result<Answer, Unread>
    ensures { Gives (λ answer. (plain_answer answer, cursor.new)) result (read_kept cursor.old) }
{
    let degree = read_degree(cursor)?;
    cursor.text(b" ")?;
    let value = read_value(alloc, cursor)?;
    Ok(Answer::Kept { degree, value })
}

// Reads parties, each behind a blank, up to the pairs or the end.
fn read_parties(alloc: Global, cursor: &mut Cursor<'_>) -> Result<PartyList, Unread>
    ensures { Gives (λ list. (list.items, cursor.new)) result (read_parties cursor.old) }
{
    let mut parties = List::new(alloc);
    let most = cursor.left();
    for _ in 0..most {
        add_party(cursor, &mut parties)?;
    }
    Ok(parties)
}

// Reads a party more, where the list goes on.
fn add_party(cursor: &mut Cursor<'_>, parties: &mut PartyList) -> Result<(), Unread>
    ensures { Gives (λ _. (parties.new.items, cursor.new)) result (read_step list_goes_on read_party parties.old.items cursor.old) }
{
    if goes_on(cursor) {
        let party = read_party(cursor)?;
        parties.push(party)?;
        Ok(())
    } else {
        Ok(())
    }
}

// Reads names, each behind a blank, up to the pairs or the end.
fn read_names(alloc: Global, cursor: &mut Cursor<'_>) -> Result<NameList, Unread>
    ensures { Gives (λ list. (list.items, cursor.new)) result (read_names cursor.old) }
{
    let mut names = List::new(alloc);
    let most = cursor.left();
    for _ in 0..most {
        add_name(cursor, &mut names)?;
    }
    Ok(names)
}

// Reads a name more, where the list goes on.
fn add_name(cursor: &mut Cursor<'_>, names: &mut NameList) -> Result<(), Unread>
    ensures { Gives (λ _. (names.new.items, cursor.new)) result (read_step list_goes_on read_local names.old.items cursor.old) }
{
    if goes_on(cursor) {
        let name = read_local(cursor)?;
        names.push(name)?;
        Ok(())
    } else {
        Ok(())
    }
}

// Whether a list goes on: a blank stands there, and no pair begins with it.
fn goes_on(cursor: &Cursor<'_>) -> bool
    ensures { result ≡ list_goes_on cursor.now }
{
    cursor.first() == Some(Glyph::BLANK) && cursor.second() != Some(Glyph::PLUS)
}
