/// What the words of a command line say: a field for each word that there is, with its value as it was written.
#[derive(Clone, Copy, Debug)]
pub struct Written<'a> {
    /// `--replay` was written.
    pub replay: bool,
    /// `--workers N`
    pub workers: Option<&'a str>,
    /// `--library DIR`
    pub library: Option<&'a str>,
    /// `--text DIR`
    pub text: Option<&'a str>,
    /// `--clock` was written.
    pub clock: bool,
    /// `--load N`
    pub load: Option<&'a str>,
    /// `--components` was written.
    pub components: bool,
    /// `--relay` was written.
    pub relay: bool,
}
