/// What words that ask for a look say: a field for each word that there is, with its value as it was written.
#[derive(Clone, Copy, Debug)]
pub struct LookWritten<'a> {
    /// `--picture` was written.
    pub picture: bool,
    /// `--from N`
    pub from: Option<&'a str>,
    /// `--to N`
    pub to: Option<&'a str>,
    /// `--why N`
    pub why: Option<&'a str>,
}
