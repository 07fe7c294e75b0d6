/// The least number of a user.
pub const FIRST_USER: u32 = 1001;

/// The greatest number of a user.
pub const LAST_USER: u32 = 1999;

/// The most users.
pub const USER_LIMIT: usize = 32;

/// The most offers of a party that stand at a time.
pub const OFFER_LIMIT: usize = 64;
