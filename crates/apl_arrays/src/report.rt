ghost use Rattle.std.specs.Prelude.{◌≡◌};
ghost use Rattle.apl_arrays.specs.Report.{report_text};

use crate::WantOfMemory;
use std::error::Error;
use std::fmt;

/// Why a line was refused, as the transcript names it.
#[derive(Clone, Copy, Debug, PartialEq, Eq, Hash)]
pub enum Report {
    Character,
    Syntax,
    Value,
    Domain,
    Rank,
    Length,
    Index,
    Defn,
    WsFull,
    Interrupt,
    SvInterrupt,
    SvFull,
    SvLimit,
}

impl Report {
    /// The name in a transcript.
    pub fn text(self) -> &'static str
        ensures { result.now ≡ report_text self }
    {
        match self {
            Report::Character => "CHARACTER ERROR",
            Report::Syntax => "SYNTAX ERROR",
            Report::Value => "VALUE ERROR",
            Report::Domain => "DOMAIN ERROR",
            Report::Rank => "RANK ERROR",
            Report::Length => "LENGTH ERROR",
            Report::Index => "INDEX ERROR",
            Report::Defn => "DEFN ERROR",
            Report::WsFull => "WS FULL",
            Report::Interrupt => "INTERRUPT",
            Report::SvInterrupt => "SV INTERRUPT",
            Report::SvFull => "SV FULL",
            Report::SvLimit => "SV LIMIT",
        }
    }
}

/// Why an evaluation gave no value: a report, or memory ran out.
#[derive(Clone, Copy, Debug, PartialEq, Eq, Hash)]
pub enum Fail {
    Report(Report),
    WantOfMemory,
}

impl From<WantOfMemory> for Fail {
    ghost use Rattle.std.specs.Prelude.{◌≡◌};
    ghost use Rattle.apl_arrays.specs.declared.report.Fail.TheVariants as fail;

    ghost from_gives = { λ _ f. f ≡ fail.WantOfMemory };

    fn from(_: WantOfMemory) -> Self {
        Fail::WantOfMemory
    }
}

impl From<Report> for Fail {
    ghost use Rattle.std.specs.Prelude.{◌≡◌};
    ghost use Rattle.apl_arrays.specs.declared.report.Fail.TheVariants as fail;

    ghost from_gives = { λ r f. f ≡ fail.Report r };

    fn from(report: Report) -> Self {
        Fail::Report(report)
    }
}

impl fmt::Display for Fail {
    fn fmt<W: fmt::Write>(&self, f: &mut fmt::Formatter<W>) -> fmt::Result {
        f.write_str(match self {
            Fail::Report(report) => report.text(),
            Fail::WantOfMemory => "out of memory",
        })
    }
}

impl Error for Fail {}
