ghost use Rattle.std.specs.Prelude.{◌≡◌};
ghost use Rattle.sv_journal.specs.ActWord.{act_word, word_of_act, answers_to};

use crate::word::EntryWord;
use sv_events::{Act, AnswerKind};

/// The word with which an act begins.
#[derive(Clone, Copy, Debug, PartialEq, Eq)]
pub(crate) enum ActWord {
    Offer,
    Retract,
    SetControl,
    AskControl,
    AskState,
    AskDegree,
    AskParties,
    AskNames,
    Set,
    Use,
    Leave,
}

/// All acts' words.
pub(crate) const ACT_WORDS: [ActWord; 11] = [
    ActWord::Offer,
    ActWord::Retract,
    ActWord::SetControl,
    ActWord::AskControl,
    ActWord::AskState,
    ActWord::AskDegree,
    ActWord::AskParties,
    ActWord::AskNames,
    ActWord::Set,
    ActWord::Use,
    ActWord::Leave,
];

impl EntryWord for ActWord {
    ghost use Rattle.sv_journal.specs.ActWord.{act_word};

    ghost text = { act_word };

    fn text(self) -> &'static [u8] {
        match self {
            ActWord::Offer => b"offer",
            ActWord::Retract => b"retract",
            ActWord::SetControl => b"control",
            ActWord::AskControl => b"askcontrol",
            ActWord::AskState => b"askstate",
            ActWord::AskDegree => b"askdegree",
            ActWord::AskParties => b"askparties",
            ActWord::AskNames => b"asknames",
            ActWord::Set => b"set",
            ActWord::Use => b"use",
            ActWord::Leave => b"leave",
        }
    }
}

impl ActWord {
    /// The word of an act.
    pub(crate) fn of(act: &Act) -> ActWord
        ensures { result ≡ word_of_act act.now }
    {
        match act {
            Act::Offer { .. } => ActWord::Offer,
            Act::Retract(_) => ActWord::Retract,
            Act::SetControl(..) => ActWord::SetControl,
            Act::AskControl(_) => ActWord::AskControl,
            Act::AskState(_) => ActWord::AskState,
            Act::AskDegree(_) => ActWord::AskDegree,
            Act::AskParties => ActWord::AskParties,
            Act::AskNames(_) => ActWord::AskNames,
            Act::Set(..) => ActWord::Set,
            Act::Use(_) => ActWord::Use,
            Act::Leave => ActWord::Leave,
        }
    }

    /// The answers that an entry of such an act may have.
    pub(crate) fn answers(self) -> &'static [AnswerKind]
        ensures { result.now ≡ answers_to self }
    {
        match self {
            ActWord::Offer => &[AnswerKind::Degree, AnswerKind::OfferLimit],
            ActWord::Retract => &[AnswerKind::Kept, AnswerKind::NotShared],
            ActWord::SetControl => &[AnswerKind::Vector, AnswerKind::NotShared],
            ActWord::AskControl | ActWord::AskState => &[AnswerKind::Vector],
            ActWord::AskDegree => &[AnswerKind::Degree],
            ActWord::AskParties => &[AnswerKind::Parties],
            ActWord::AskNames => &[AnswerKind::Names],
            ActWord::Set => &[
                AnswerKind::Granted,
                AnswerKind::Held,
                AnswerKind::Abandoned,
                AnswerKind::NotShared,
            ],
            ActWord::Use => &[
                AnswerKind::Value,
                AnswerKind::NoValue,
                AnswerKind::Held,
                AnswerKind::Abandoned,
                AnswerKind::NotShared,
            ],
            ActWord::Leave => &[AnswerKind::Done],
        }
    }
}
