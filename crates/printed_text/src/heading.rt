ghost use Rattle.std.specs.Prelude.{◌≡◌, ◌≢◌, ◌↔◌, ℕ, IfErr, IsTrue, MatchOption};
ghost use Rattle.line_text.specs.Lines.{end_line, heading};
ghost use Rattle.text_reader.specs.Reading.{Gives, IsLeft};
ghost use Rattle.printed_text.specs.Line.{IsUserNumber, journal_line};
ghost use Rattle.printed_text.specs.UserReading.{read_user};

use apl_arrays::{FIRST_USER, Glyph, LAST_USER};
use text_reader::{Cursor, Unread};

// Reads the heading of a user.
#[tactic(auto, unfolding(crate::specs::UserReading::read_user))]
fn read_user(cursor: &mut Cursor<'_>) -> Result<u32, Unread>
    ensures value { Gives (λ number. (number, cursor.new)) result (read_user cursor.old) }
    ensures free { IfErr result IsLeft }
{
    cursor.text(b"user ")?;
    let number = cursor.number(u64::from(FIRST_USER), u64::from(LAST_USER))?;
    Ok(number as u32)
}

/// The user whose heading a line is, or `None` where it is no user's.
pub fn user_of(line: &[Glyph]) -> Option<u32>
    ensures { MatchOption result ((number : ℕ) → IsUserNumber number → line.now ≢ heading number) (λ number. IsUserNumber number × (line.now ≡ heading number)) }
{
    let mut cursor = Cursor::new(line);
    match read_user(&mut cursor) {
        Ok(number) => {
            if cursor.left() == 0 {
                Some(number)
            } else {
                None
            }
        }
        Err(_) => None,
    }
}

/// Whether a line is the heading of the journal.
pub fn is_journal(line: &[u8]) -> bool
    ensures { IsTrue result ↔ (line.now ≡ journal_line) }
{
    line == b"journal".as_slice()
}

/// Whether a line is the last one of an output.
pub fn is_end(line: &[u8]) -> bool
    ensures { IsTrue result ↔ (line.now ≡ end_line) }
{
    line == b"end".as_slice()
}
