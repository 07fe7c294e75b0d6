use apl_arrays::Array;

/// Where the protocol of component files stands.
#[derive(Debug, Drop)]
pub(crate) enum FileState {
    /// Between requests.
    Idle,
    /// This array is handed out next.
    Holding(Array),
    /// The next array goes into the file of this name: in the place of the component of a number, else last.
    Taking(String, Option<u32>),
}
