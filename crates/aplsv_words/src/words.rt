use std::alloc::AllocError;
use std::error::Error;
use std::fmt;

/// What the words of a command line ask for: a field for each word that there is.
#[derive(Clone, Copy, Debug)]
pub struct Words<'a> {
    /// `--replay`: the bundle is run on one thread.
    pub replay: bool,
    /// `--workers N`: the bundle is run on threads, with so many workers.
    pub workers: Option<u32>,
    /// `--library DIR`: workspaces are kept under this place.
    pub library: Option<&'a str>,
    /// `--text DIR`: text files are read and written under this place.
    pub text: Option<&'a str>,
    /// `--clock`: the readings are those of the machine's clock.
    pub clock: bool,
    /// `--load N`: a bundle of so many numbers is made and run on one thread.
    pub load: Option<u32>,
    /// `--components`: files of arrays are kept in the place of files of lines.
    pub components: bool,
    /// `--relay`: texts are carried between users in the place of readings of a clock.
    pub relay: bool,
}

/// Why words are not read.
#[derive(Clone, Copy, Debug, PartialEq, Eq)]
pub enum WordsRefused {
    /// They have no meaning.
    Usage,
    /// Memory ran out.
    WantOfMemory,
}

impl From<AllocError> for WordsRefused {
    ghost use Rattle.std.specs.Prelude.{◌≡◌};
    ghost use Rattle.aplsv_words.specs.declared.words.WordsRefused.TheVariants as refused;

    ghost from_gives = { λ _ e. e ≡ refused.WantOfMemory };

    fn from(_: AllocError) -> Self {
        WordsRefused::WantOfMemory
    }
}

impl fmt::Display for WordsRefused {
    fn fmt<W: fmt::Write>(&self, f: &mut fmt::Formatter<W>) -> fmt::Result {
        f.write_str(match self {
            WordsRefused::Usage => "usage",
            WordsRefused::WantOfMemory => "out of memory",
        })
    }
}

impl Error for WordsRefused {}
