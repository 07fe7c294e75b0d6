/// What is found of a text that is said to be the output of a run of a bundle.
#[derive(Clone, Copy, Debug, PartialEq, Eq)]
pub enum Verdict {
    /// It is that output.
    Yes,
    /// It is no output of the bundle's users: at this offset begins the first line that none has there, or the text ends there,
    /// and lines are wanting.
    Text(u64),
    /// The entry of this number, from 1, is the first that does not fit behind those before it.
    Entry(u64),
    /// All entries fit, and this is the lowest user that has not left.
    Unfinished(u32),
    /// All entries fit and all users have left, and this is the lowest user of whom other lines are printed than the user saw, and
    /// the number, from 1, of the first of these lines.
    Line { user: u32, line: u64 },
}
