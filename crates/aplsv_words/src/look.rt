/// What is asked of a printed output.
#[derive(Clone, Copy, Debug, PartialEq, Eq)]
pub enum Look {
    /// `--picture`, `--from N`, `--to N`: a picture of the entries from one place to another; where none is named, from the first
    /// and to the last.
    Picture { from: Option<u64>, to: Option<u64> },
    /// `--why N`: why the entry at this place is what it is.
    Why(u64),
}
