use std::sync::Wait;

/// What a party passes each time before it takes its turn. It tells nothing, and may hold a party for ever.
pub trait Gate {
    /// Lets a party pass that takes its turn for this time, counted from 1; the count stands still at the greatest `u64`.
    fn pass<R: Wait>(&self, rt: &R, party: u32, turn: u64);
}
