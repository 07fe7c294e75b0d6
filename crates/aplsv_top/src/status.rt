ghost use Rattle.std.specs.Prelude.{◌≡◌};
ghost use Rattle.aplsv_top.specs.Words.{exit_status};

use bundle_text::BundleRule;
use check_rules::Verdict;
use std::fmt;

/// How the program ended.
#[derive(Clone, Copy, Debug, PartialEq, Eq)]
pub enum Status {
    /// The whole output was written; of a check, that the text is the output of a run.
    Done,
    /// The words have no meaning.
    Usage,
    /// The bytes that were read are no bundle: the offset at which they break a rule, and the rule.
    Malformed { offset: u64, rule: BundleRule },
    /// The source failed.
    ReadFault,
    /// The sink failed.
    WriteFault,
    /// There were more bytes than a bundle may have, or for a check than a bundle with a text behind it may.
    TooLong,
    /// Memory ran out.
    WantOfMemory,
    /// The text that was checked is not the output of a run of its bundle: what was found of it, which was written.
    NotARun(Verdict),
}

impl Status {
    /// The exit status of the process.
    pub fn code(self) -> u8
        ensures { result ≡ exit_status self }
    {
        match self {
            Status::Done => 0,
            Status::Usage => 1,
            Status::Malformed { .. } => 2,
            Status::ReadFault => 3,
            Status::WriteFault => 4,
            Status::TooLong => 5,
            Status::WantOfMemory => 6,
            Status::NotARun(_) => 7,
        }
    }
}

/// The text on standard error; none where all was done.
impl fmt::Display for Status {
    fn fmt<W: fmt::Write>(&self, f: &mut fmt::Formatter<W>) -> fmt::Result {
        match self {
            Status::Done => Ok(()),
            Status::Usage => f.write_str("aplsv: usage"),
            Status::Malformed { offset, rule } => write!(f, "aplsv: malformed at {offset}: {rule}"),
            Status::ReadFault => f.write_str("aplsv: read fault"),
            Status::WriteFault => f.write_str("aplsv: write fault"),
            Status::TooLong => f.write_str("aplsv: input too long"),
            Status::WantOfMemory => f.write_str("aplsv: out of memory"),
            Status::NotARun(_) => f.write_str("aplsv: not a run"),
        }
    }
}

/// What is left when the program has ended: how it ended, and the devices that were handed in.
#[derive(Debug, Drop)]
pub struct Finish<T, C, K> {
    pub status: Status,
    pub text: T,
    pub clock: C,
    pub shelves: Vec<K>,
}
