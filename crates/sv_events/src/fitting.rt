ghost use Rattle.std.specs.Prelude.{◌≡◌};
ghost use Rattle.sv_events.specs.Fits.{answers_opening, answers_ending, answers_control, answers_access, answers_access_of, answers_question, is_full_kind, ends_all, fits_kind, is_degree_in_range, is_hold_in_range, fits_row};

use crate::event::Hold;
use crate::row::{Accessing, ActRow, AnswerKind, AnswerRow, Ending, Question};
use sv_access::Kind;

/// Whether the answer of one row may be given to the act of the other.
pub fn fits_row(act: &ActRow, answer: &AnswerRow) -> bool
    ensures { result ≡ fits_row act.now answer.now }
{
    is_degree_in_range(answer.degree)
        && is_hold_in_range(answer.hold)
        && fits_kind(act, answer.kind)
}

// Whether an answer of this kind may be given to an act of this row.
fn fits_kind(row: &ActRow, kind: AnswerKind) -> bool
    ensures { result ≡ fits_kind row.now kind }
{
    (row.opens.is_some() && answers_opening(kind))
        || answers_ending(row.ends, kind)
        || (row.controls.is_some() && answers_control(kind))
        || answers_access(row.accesses, kind)
        || answers_question(row.asks, kind)
        || (is_full(kind) && !ends_all(row.ends))
}

fn answers_opening(kind: AnswerKind) -> bool
    ensures { result ≡ answers_opening kind }
{
    matches!(kind, AnswerKind::Degree | AnswerKind::OfferLimit)
}

fn answers_ending(ends: Option<Ending>, kind: AnswerKind) -> bool
    ensures { result ≡ answers_ending ends kind }
{
    match ends {
        None => false,
        Some(Ending::One(_)) => matches!(kind, AnswerKind::Kept | AnswerKind::NotShared),
        Some(Ending::All) => matches!(kind, AnswerKind::Done),
    }
}

fn answers_control(kind: AnswerKind) -> bool
    ensures { result ≡ answers_control kind }
{
    matches!(kind, AnswerKind::Vector | AnswerKind::NotShared)
}

fn answers_access(access: Option<Accessing>, kind: AnswerKind) -> bool
    ensures { result ≡ answers_access access kind }
{
    match access {
        None => false,
        Some(access) => answers_access_of(access.kind, kind),
    }
}

fn answers_access_of(access: Kind, kind: AnswerKind) -> bool
    ensures { result ≡ answers_access_of access kind }
{
    match access {
        Kind::Set => matches!(
            kind,
            AnswerKind::Granted | AnswerKind::Held | AnswerKind::Abandoned | AnswerKind::NotShared
        ),
        Kind::Use => matches!(
            kind,
            AnswerKind::Value
                | AnswerKind::NoValue
                | AnswerKind::Held
                | AnswerKind::Abandoned
                | AnswerKind::NotShared
        ),
    }
}

fn answers_question(asks: Option<Question>, kind: AnswerKind) -> bool
    ensures { result ≡ answers_question asks kind }
{
    match asks {
        None => false,
        Some(Question::Control(_) | Question::State(_)) => matches!(kind, AnswerKind::Vector),
        Some(Question::Degree(_)) => matches!(kind, AnswerKind::Degree),
        Some(Question::Parties) => matches!(kind, AnswerKind::Parties),
        Some(Question::Names(_)) => matches!(kind, AnswerKind::Names),
    }
}

fn is_full(kind: AnswerKind) -> bool
    ensures { result ≡ is_full_kind kind }
{
    matches!(kind, AnswerKind::Full)
}

fn ends_all(ends: Option<Ending>) -> bool
    ensures { result ≡ ends_all ends }
{
    matches!(ends, Some(Ending::All))
}

fn is_degree_in_range(degree: Option<u8>) -> bool
    ensures { result ≡ is_degree_in_range degree }
{
    match degree {
        None => true,
        Some(degree) => degree <= 2,
    }
}

fn is_hold_in_range(hold: Option<Hold>) -> bool
    ensures { result ≡ is_hold_in_range hold }
{
    match hold {
        None => true,
        Some(hold) => 1 <= hold.element && hold.element <= 4,
    }
}
