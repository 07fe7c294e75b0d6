ghost use Rattle.std.specs.Prelude.{◌≡◌, ◌<◌, ◌≤◌, ◌∷◌, [], IfOk, length};
ghost use Rattle.apl_arrays.specs.Array.{scalar};
ghost use Rattle.auxiliaries.specs.File.{most_file_line_glyphs};
ghost use Rattle.auxiliaries.specs.Plain.{code_number};
ghost use Rattle.auxiliaries.specs.Protocol.{code, line_answer, no_line};

use apl_arrays::{Array, Items, Line, List, NumberList, WantOfMemory};
use std::alloc::Global;

/// The answers of the text auxiliary that are numbers.
#[derive(Clone, Copy, Debug, PartialEq, Eq)]
pub(crate) enum Code {
    /// The request is done.
    Done,
    /// There is no such file.
    Missing,
    /// It is no request in this state.
    Refused,
    /// The store failed.
    Fault,
    /// The file is no text, or would be too large.
    NoText,
}

impl Code {
    /// Its number.
    pub(crate) fn number(self) -> i64
        ensures { result ≡ code_number self }
    {
        match self {
            Code::Done => 0,
            Code::Missing => 1,
            Code::Refused => 2,
            Code::Fault => 3,
            Code::NoText => 4,
        }
    }

    /// Its number as an answer. It takes no memory.
    pub(crate) fn answer(self, alloc: Global) -> Result<Array, WantOfMemory>
        ensures { IfOk result (λ answer. answer ≡ scalar (code_number self)) }
    {
        Array::scalar(alloc, self.number())
    }
}

/// A line as an answer. It takes memory for it.
pub(crate) fn line_answer(alloc: Global, line: &Line) -> Result<Array, WantOfMemory>
    requires { length line.now.items ≤ most_file_line_glyphs }
    ensures { IfOk result (λ answer. answer ≡ line_answer line.now.items) }
{
    let length = line.as_slice().len() as u32;
    Array::shaped(alloc, &[length], Items::Chars(line.copy(alloc)?))
}

/// The answer past the last line. It takes memory.
pub(crate) fn no_line(alloc: Global) -> Result<Array, WantOfMemory>
    ensures { IfOk result (λ answer. answer ≡ no_line) }
{
    let none = NumberList::from(List::new(alloc));
    Array::shaped(alloc, &[0], Items::Numbers(none))
}
