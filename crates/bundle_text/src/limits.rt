/// The most lines of a user.
pub const LINE_LIMIT: usize = 10_000;

/// The most turns of an order.
pub const TURN_LIMIT: usize = 100_000;

/// The most files.
pub const FILE_LIMIT: usize = 100;

/// The most readings of a clock.
pub const READING_LIMIT: usize = 10_000;
