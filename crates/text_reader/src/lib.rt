//! Readers of what texts are made of: fixed texts, numbers and names. They read the lines of bundles, of journals and of all
//! else that is read as text.
//!
//! A reader takes what it reads from the front of a line. Where no text of its form goes on as the line does, it says how
//! many glyphs of the line are left there, and the line is left as it was.
#![tactic(auto)]

mod cursor;
mod literal;
mod number;
mod numeral;
mod unread;

pub use cursor::Cursor;
pub use unread::Unread;
