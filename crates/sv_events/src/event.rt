ghost use Rattle.std.specs.Prelude.{◌≡◌, IfOk};
ghost use Rattle.std.specs.Option.{option_copied};
ghost use Rattle.sv_events.specs.Answer.{plain_answer};

use apl_arrays::{Array, Name, NameList, PartyList, WantOfMemory};
use std::alloc::Global;
use sv_access::{Control, Owners};

/// What a party asks of the processor.
#[derive(Debug, Drop, PartialEq, Eq)]
pub enum Act {
    /// A local name is offered to a party, or to any where `to` is 0, with the value that it has.
    Offer {
        to: u32,
        local: Name,
        surrogate: Name,
        value: Option<Array>,
    },
    /// The offer of a local name is taken back.
    Retract(Name),
    /// The control of a shared name is set.
    SetControl(Name, Control),
    /// The control in force of a name is asked for.
    AskControl(Name),
    /// The access state of a name is asked for.
    AskState(Name),
    /// The degree of a name is asked for.
    AskDegree(Name),
    /// The parties with open offers to this one are asked for.
    AskParties,
    /// The surrogates of a party's open offers to this one are asked for.
    AskNames(u32),
    /// A value is set on a shared name.
    Set(Name, Array),
    /// The value of a shared name is asked for.
    Use(Name),
    /// The party takes back all its offers, and makes no entry after this one.
    Leave,
}

/// What refuses an access: the element, from 1 to 4 as side A numbers them, and whose 1 it is.
#[derive(Clone, Copy, Debug, PartialEq, Eq)]
pub struct Hold {
    pub element: u8,
    pub owners: Owners,
}

/// What the processor answers.
#[derive(Debug, Drop, PartialEq, Eq)]
pub enum Answer {
    /// The degree of a name: 0 without an offer, 1 while it is open, 2 while it is coupled.
    Degree(u8),
    /// The set was made.
    Granted,
    /// The value that was asked for.
    Value(Array),
    /// There is no value to give.
    NoValue,
    /// The access is refused, and its party waits.
    Held(Hold),
    /// The access is refused, and its party waits no longer, since nobody could end the wait.
    Abandoned(Hold),
    /// The name has no standing offer.
    NotShared,
    /// The party has as many standing offers as it may.
    OfferLimit,
    /// The journal takes no more entries.
    Full,
    /// A control, or an access state, as the party sees it.
    Vector(Control),
    /// Parties, ascending.
    Parties(PartyList),
    /// Names, in the order of their offers.
    Names(NameList),
    /// The offer was taken back: its degree before, and the value that its party knows.
    Kept { degree: u8, value: Option<Array> },
    /// The party has left.
    Done,
}

/// What a party that waits is answered when it tries again.
#[derive(Debug, Drop, PartialEq, Eq)]
pub enum Retry {
    /// The answer to its act.
    Now(Answer),
    /// It waits on, and no entry is made.
    StillHeld,
}

impl Act {
    /// An equal act. It takes memory for its value.
    pub fn copy(&self, alloc: Global) -> Result<Act, WantOfMemory>
        ensures { IfOk result (λ act. act ≡ self.now) }
    {
        match self {
            Act::Offer {
                to,
                local,
                surrogate,
                value,
            } => Ok(Act::Offer {
                to: *to,
                local: *local,
                surrogate: *surrogate,
                value: copy_value(alloc, value.as_ref())?,
            }),
            Act::Retract(name) => Ok(Act::Retract(*name)),
            Act::SetControl(name, control) => Ok(Act::SetControl(*name, *control)),
            Act::AskControl(name) => Ok(Act::AskControl(*name)),
            Act::AskState(name) => Ok(Act::AskState(*name)),
            Act::AskDegree(name) => Ok(Act::AskDegree(*name)),
            Act::AskParties => Ok(Act::AskParties),
            Act::AskNames(party) => Ok(Act::AskNames(*party)),
            Act::Set(name, value) => Ok(Act::Set(*name, value.copy(alloc)?)),
            Act::Use(name) => Ok(Act::Use(*name)),
            Act::Leave => Ok(Act::Leave),
        }
    }
}

impl Answer {
    /// An equal answer. It takes memory for its value or its list.
    pub fn copy(&self, alloc: Global) -> Result<Answer, WantOfMemory>
        ensures { IfOk result (λ answer. plain_answer answer ≡ plain_answer self.now) }
    {
        match self {
            Answer::Degree(degree) => Ok(Answer::Degree(*degree)),
            Answer::Granted => Ok(Answer::Granted),
            Answer::Value(value) => Ok(Answer::Value(value.copy(alloc)?)),
            Answer::NoValue => Ok(Answer::NoValue),
            Answer::Held(hold) => Ok(Answer::Held(*hold)),
            Answer::Abandoned(hold) => Ok(Answer::Abandoned(*hold)),
            Answer::NotShared => Ok(Answer::NotShared),
            Answer::OfferLimit => Ok(Answer::OfferLimit),
            Answer::Full => Ok(Answer::Full),
            Answer::Vector(control) => Ok(Answer::Vector(*control)),
            Answer::Parties(parties) => Ok(Answer::Parties(parties.copy(alloc)?)),
            Answer::Names(names) => Ok(Answer::Names(names.copy(alloc)?)),
            Answer::Kept { degree, value } => Ok(Answer::Kept {
                degree: *degree,
                value: copy_value(alloc, value.as_ref())?,
            }),
            Answer::Done => Ok(Answer::Done),
        }
    }
}

/// An equal value, or none where there is none. It takes memory for the value.
pub fn copy_value(alloc: Global, value: Option<&Array>) -> Result<Option<Array>, WantOfMemory>
    ensures { IfOk result (λ copy. copy ≡ option_copied value.entry) }
{
    match value {
        None => Ok(None),
        Some(array) => Ok(Some(array.copy(alloc)?)),
    }
}
