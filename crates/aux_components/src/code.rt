ghost use Rattle.std.specs.Prelude.{◌≡◌};
ghost use Rattle.auxiliaries.specs.Protocol.{code};
ghost use Rattle.aux_components.specs.Plain.{code_number};

use apl_arrays::Array;

/// The answers that are numbers.
#[derive(Clone, Copy, Debug, PartialEq, Eq)]
pub(crate) enum Code {
    /// The request is done.
    Done,
    /// There is no such file.
    Missing,
    /// It is no request in this state.
    Refused,
    /// The store failed.
    Fault,
    /// The file is no component file, or would be too large.
    NoFile,
    /// There is no such component.
    NoComponent,
}

impl Code {
    /// Its number as an answer.
    pub(crate) fn answer(self) -> Array
        ensures { result ≡ code (code_number self) }
    {
        Array::of_number(match self {
            Code::Done => 0,
            Code::Missing => 1,
            Code::Refused => 2,
            Code::Fault => 3,
            Code::NoFile => 4,
            Code::NoComponent => 5,
        })
    }
}
