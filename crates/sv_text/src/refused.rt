use std::error::Error;
use std::fmt;

/// Why a line is not read as an array.
#[derive(Clone, Copy, Debug, PartialEq, Eq)]
pub enum ValueRefused {
    /// It is no array's text.
    BadValue,
    /// Memory ran out.
    WantOfMemory,
}

impl fmt::Display for ValueRefused {
    fn fmt<W: fmt::Write>(&self, f: &mut fmt::Formatter<W>) -> fmt::Result {
        f.write_str(match self {
            ValueRefused::BadValue => "no value",
            ValueRefused::WantOfMemory => "out of memory",
        })
    }
}

impl Error for ValueRefused {}
