ghost use Rattle.std.specs.Prelude.{◌≡◌, ok_or};
ghost use Rattle.apl_arrays.specs.declared.report.Report.TheVariants as report;
ghost use Rattle.sv_events.specs.Answer.{plain_answer};
ghost use Rattle.sv_events.specs.Row.{answer_row};
ghost use Rattle.apl_meaning.specs.Answers.{report_of_kind};

use apl_arrays::{Array, Report};
use sv_events::{Answer, AnswerKind};

/// The value of an answer; VALUE ERROR where it has none.
pub fn value_in(answer: Answer) -> Result<Array, Report>
    ensures { result ≡ ok_or (answer_row (plain_answer answer)).value report.Value }
{
    match answer {
        Answer::Value(value) => Ok(value),
        Answer::Kept { value, .. } => value.ok_or(Report::Value),
        _ => Err(Report::Value),
    }
}

/// The report by which an answer ends the line, if it does.
pub fn report_of(kind: AnswerKind) -> Option<Report>
    ensures { result ≡ report_of_kind kind }
{
    match kind {
        AnswerKind::NoValue | AnswerKind::NotShared => Some(Report::Value),
        AnswerKind::Abandoned => Some(Report::SvInterrupt),
        AnswerKind::OfferLimit => Some(Report::SvLimit),
        AnswerKind::Full => Some(Report::SvFull),
        _ => None,
    }
}
