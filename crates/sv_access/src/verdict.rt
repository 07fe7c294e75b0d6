/// What becomes of an access: granted, or held by the element (1 to 4, in A's view) that refuses
/// it.
#[derive(Clone, Copy, Debug, PartialEq, Eq)]
pub enum Verdict {
    Granted,
    Held(u8),
}

/// Whose vector has the 1 that refuses an access, as the refused side sees it.
#[derive(Clone, Copy, Debug, PartialEq, Eq)]
pub enum Owners {
    Mine,
    Partner,
    Both,
}
