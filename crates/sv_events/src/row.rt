ghost use Rattle.std.specs.Prelude.{◌≡◌};
ghost use Rattle.std.specs.Option.{option_copied};
ghost use Rattle.sv_events.specs.Answer.{plain_answer};
ghost use Rattle.sv_events.specs.Fits.{answer_fits};
ghost use Rattle.sv_events.specs.Row.{act_row, answer_row, asking};

use crate::event::{Act, Answer, Hold};
use crate::fitting::fits_row;
use apl_arrays::{Array, Name};
use sv_access::{Control, Kind};

/// The offer that an act opens: to whom (0: to any), and under which local name and which surrogate.
#[derive(Clone, Copy, Debug, PartialEq, Eq)]
pub struct Opening {
    pub to: u32,
    pub local: Name,
    pub surrogate: Name,
}

/// The offers of its party that an act ends: that of one local name, or all.
#[derive(Clone, Copy, Debug, PartialEq, Eq)]
pub enum Ending {
    One(Name),
    All,
}

/// The control that an act sets on a local name.
#[derive(Clone, Copy, Debug, PartialEq, Eq)]
pub struct Controlling {
    pub local: Name,
    pub control: Control,
}

/// The access that an act makes on a local name.
#[derive(Clone, Copy, Debug, PartialEq, Eq)]
pub struct Accessing {
    pub local: Name,
    pub kind: Kind,
}

/// What an act asks without changing anything: of a local name, of all parties, or of one party.
#[derive(Clone, Copy, Debug, PartialEq, Eq)]
pub enum Question {
    Control(Name),
    State(Name),
    Degree(Name),
    Parties,
    Names(u32),
}

/// What an act does, in one row: the offer that it opens, the offers that it ends, the control that it sets, the access
/// that it makes, and what it asks. The value that it hands in is told by `hands_in`.
#[derive(Clone, Copy, Debug, PartialEq, Eq)]
pub struct ActRow {
    pub opens: Option<Opening>,
    pub ends: Option<Ending>,
    pub controls: Option<Controlling>,
    pub accesses: Option<Accessing>,
    pub asks: Option<Question>,
}

/// The kinds of answers.
#[derive(Clone, Copy, Debug, PartialEq, Eq)]
pub enum AnswerKind {
    Degree,
    Granted,
    Value,
    NoValue,
    Held,
    Abandoned,
    NotShared,
    OfferLimit,
    Full,
    Vector,
    Parties,
    Names,
    Kept,
    Done,
}

/// What an answer says, in one row: its kind, and the degree, vector or hold in it. Its value and its lists are told by
/// `value`, `parties` and `names`.
#[derive(Clone, Copy, Debug, PartialEq, Eq)]
pub struct AnswerRow {
    pub kind: AnswerKind,
    pub degree: Option<u8>,
    pub vector: Option<Control>,
    pub hold: Option<Hold>,
}

impl Act {
    /// What the act does.
    pub fn row(&self) -> ActRow
        ensures { result ≡ (act_row self.now).row }
    {
        let none = ActRow {
            opens: None,
            ends: None,
            controls: None,
            accesses: None,
            asks: None,
        };
        match self {
            Act::Offer {
                to,
                local,
                surrogate,
                ..
            } => ActRow {
                opens: Some(Opening {
                    to: *to,
                    local: *local,
                    surrogate: *surrogate,
                }),
                ..none
            },
            Act::Retract(local) => ActRow {
                ends: Some(Ending::One(*local)),
                ..none
            },
            Act::SetControl(local, control) => ActRow {
                controls: Some(Controlling {
                    local: *local,
                    control: *control,
                }),
                ..none
            },
            Act::AskControl(local) => asking(Question::Control(*local)),
            Act::AskState(local) => asking(Question::State(*local)),
            Act::AskDegree(local) => asking(Question::Degree(*local)),
            Act::AskParties => asking(Question::Parties),
            Act::AskNames(party) => asking(Question::Names(*party)),
            Act::Set(..) | Act::Use(_) => ActRow {
                accesses: self.access(),
                ..none
            },
            Act::Leave => ActRow {
                ends: Some(Ending::All),
                ..none
            },
        }
    }
}

impl Act {
    /// The access that the act makes, if it makes one, without the rest of its row.
    pub fn access(&self) -> Option<Accessing>
        ensures { result ≡ (act_row self.now).row.accesses }
    {
        match self {
            Act::Set(local, _) => Some(Accessing {
                local: *local,
                kind: Kind::Set,
            }),
            Act::Use(local) => Some(Accessing {
                local: *local,
                kind: Kind::Use,
            }),
            _ => None,
        }
    }

    /// The value that the act hands in, if it does.
    pub fn hands_in(&self) -> Option<&Array>
        ensures { option_copied result ≡ (act_row self.now).hands_in }
    {
        match self {
            Act::Offer { value, .. } => value.as_ref(),
            Act::Set(_, value) => Some(value),
            _ => None,
        }
    }
}

// A question, and nothing else.
fn asking(question: Question) -> ActRow
    ensures { result ≡ asking question }
{
    ActRow {
        opens: None,
        ends: None,
        controls: None,
        accesses: None,
        asks: Some(question),
    }
}

impl Answer {
    /// What the answer says.
    pub fn row(&self) -> AnswerRow
        ensures { result ≡ (answer_row (plain_answer self.now)).row }
    {
        let kind = self.kind();
        let bare = AnswerRow {
            kind,
            degree: None,
            vector: None,
            hold: None,
        };
        match self {
            Answer::Degree(degree) => AnswerRow {
                degree: Some(*degree),
                ..bare
            },
            Answer::Held(hold) | Answer::Abandoned(hold) => AnswerRow {
                hold: Some(*hold),
                ..bare
            },
            Answer::Vector(control) => AnswerRow {
                vector: Some(*control),
                ..bare
            },
            Answer::Kept { degree, .. } => AnswerRow {
                degree: Some(*degree),
                ..bare
            },
            _ => bare,
        }
    }

    /// The value in the answer, if it has one.
    pub fn value(&self) -> Option<&Array>
        ensures { option_copied result ≡ (answer_row (plain_answer self.now)).value }
    {
        match self {
            Answer::Value(value) => Some(value),
            Answer::Kept { value, .. } => value.as_ref(),
            _ => None,
        }
    }

    /// The parties that the answer lists, if it does.
    pub fn parties(&self) -> Option<&[u32]>
        ensures { option_copied result ≡ (answer_row (plain_answer self.now)).parties }
    {
        match self {
            Answer::Parties(parties) => Some(parties.as_slice()),
            _ => None,
        }
    }

    /// The names that the answer lists, if it does.
    pub fn names(&self) -> Option<&[Name]>
        ensures { option_copied result ≡ (answer_row (plain_answer self.now)).names }
    {
        match self {
            Answer::Names(names) => Some(names.as_slice()),
            _ => None,
        }
    }

    // Its kind.
    fn kind(&self) -> AnswerKind
        ensures { result ≡ (answer_row (plain_answer self.now)).row.kind }
    {
        match self {
            Answer::Degree(_) => AnswerKind::Degree,
            Answer::Granted => AnswerKind::Granted,
            Answer::Value(_) => AnswerKind::Value,
            Answer::NoValue => AnswerKind::NoValue,
            Answer::Held(_) => AnswerKind::Held,
            Answer::Abandoned(_) => AnswerKind::Abandoned,
            Answer::NotShared => AnswerKind::NotShared,
            Answer::OfferLimit => AnswerKind::OfferLimit,
            Answer::Full => AnswerKind::Full,
            Answer::Vector(_) => AnswerKind::Vector,
            Answer::Parties(_) => AnswerKind::Parties,
            Answer::Names(_) => AnswerKind::Names,
            Answer::Kept { .. } => AnswerKind::Kept,
            Answer::Done => AnswerKind::Done,
        }
    }
}

/// Whether the answer may be given to the act: it is of a kind that answers it, a degree is 0, 1 or 2, and an element is
/// from 1 to 4. `Full` may be given to every act but a leave.
pub fn fits(act: &Act, answer: &Answer) -> bool
    ensures { result ≡ answer_fits act.now (plain_answer answer.now) }
{
    fits_row(&act.row(), &answer.row())
}
