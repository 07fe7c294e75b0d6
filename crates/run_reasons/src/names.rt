ghost use Rattle.std.specs.Prelude.{◌≡◌, option_and_then, option_map};
ghost use Rattle.run_reasons.specs.Why.{asked_name, ended_name, name_of};

use apl_arrays::Name;
use sv_events::{Accessing, ActRow, Controlling, Ending, Opening, Question};

fn opened_name(opens: Option<Opening>) -> Option<Name>
    ensures { result ≡ option_map (λ opening. opening.local) opens }
{
    match opens {
        None => None,
        Some(opening) => Some(opening.local),
    }
}

fn one_name(ending: Ending) -> Option<Name>
    ensures { result ≡ ended_name ending }
{
    match ending {
        Ending::All => None,
        Ending::One(local) => Some(local),
    }
}

fn ended_name(ends: Option<Ending>) -> Option<Name>
    ensures { result ≡ option_and_then ended_name ends }
{
    match ends {
        None => None,
        Some(ending) => one_name(ending),
    }
}

fn controlled_name(controls: Option<Controlling>) -> Option<Name>
    ensures { result ≡ option_map (λ set. set.local) controls }
{
    match controls {
        None => None,
        Some(set) => Some(set.local),
    }
}

fn accessed_name(accesses: Option<Accessing>) -> Option<Name>
    ensures { result ≡ option_map (λ access. access.local) accesses }
{
    match accesses {
        None => None,
        Some(access) => Some(access.local),
    }
}

fn question_name(question: Question) -> Option<Name>
    ensures { result ≡ asked_name question }
{
    match question {
        Question::Control(local) => Some(local),
        Question::State(local) => Some(local),
        Question::Degree(local) => Some(local),
        Question::Parties => None,
        Question::Names(_) => None,
    }
}

fn asked_name(asks: Option<Question>) -> Option<Name>
    ensures { result ≡ option_and_then asked_name asks }
{
    match asks {
        None => None,
        Some(question) => question_name(question),
    }
}

/// The local name that an act is about, if it is about one.
pub(crate) fn name_of(row: &ActRow) -> Option<Name>
    ensures { result ≡ name_of row.now }
{
    let asked = asked_name(row.asks);
    let accessed = accessed_name(row.accesses).or(asked);
    let controlled = controlled_name(row.controls).or(accessed);
    let ended = ended_name(row.ends).or(controlled);
    opened_name(row.opens).or(ended)
}
