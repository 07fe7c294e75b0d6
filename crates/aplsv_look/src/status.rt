ghost use Rattle.std.specs.Prelude.{◌≡◌};
ghost use Rattle.aplsv_look.specs.Statuses.{look_exit_status, status_refused};

use crate::refused::LookRefused;
use std::fmt;

/// How a look ended.
#[derive(Clone, Copy, Debug, PartialEq, Eq)]
pub enum LookStatus {
    /// The whole sight was written.
    Done,
    /// The words ask for no look.
    Usage,
    /// The bytes that were read are no output: the offset of the first line that no output has there.
    NoOutput { offset: u64 },
    /// The source failed.
    ReadFault,
    /// The sink failed.
    WriteFault,
    /// There were more bytes than are read.
    TooLong,
    /// Memory ran out.
    WantOfMemory,
    /// The journal has no entry where the look is at.
    NoEntry,
}

impl LookStatus {
    /// The exit status of the process.
    pub fn code(self) -> u8
        ensures { result ≡ look_exit_status self }
    {
        match self {
            LookStatus::Done => 0,
            LookStatus::Usage => 1,
            LookStatus::NoOutput { .. } => 2,
            LookStatus::ReadFault => 3,
            LookStatus::WriteFault => 4,
            LookStatus::TooLong => 5,
            LookStatus::WantOfMemory => 6,
            LookStatus::NoEntry => 8,
        }
    }
}

/// How a look ends that shows nothing.
pub(crate) fn status_refused(why: LookRefused) -> LookStatus
    ensures { result ≡ status_refused why }
{
    match why {
        LookRefused::NoOutput(offset) => LookStatus::NoOutput { offset },
        LookRefused::NoEntry => LookStatus::NoEntry,
        LookRefused::WantOfMemory => LookStatus::WantOfMemory,
    }
}

/// The text on standard error; none where all was done.
impl fmt::Display for LookStatus {
    fn fmt<W: fmt::Write>(&self, f: &mut fmt::Formatter<W>) -> fmt::Result {
        match self {
            LookStatus::Done => Ok(()),
            LookStatus::Usage => f.write_str("aplsv: usage"),
            LookStatus::NoOutput { offset } => write!(f, "aplsv: no output at byte {offset}"),
            LookStatus::ReadFault => f.write_str("aplsv: read fault"),
            LookStatus::WriteFault => f.write_str("aplsv: write fault"),
            LookStatus::TooLong => f.write_str("aplsv: input too long"),
            LookStatus::WantOfMemory => f.write_str("aplsv: out of memory"),
            LookStatus::NoEntry => f.write_str("aplsv: no entry"),
        }
    }
}
