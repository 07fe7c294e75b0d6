ghost use Rattle.std.specs.Prelude.{◌≡◌, IfErr};
ghost use Rattle.text_reader.specs.Reading.{Gives, IsLeft};
ghost use Rattle.sv_journal.specs.HoldReading.{read_bit, read_control, read_hold};

use crate::word::{EntryWord, read_word};
use sv_access::{Control, Owners};
use sv_events::Hold;
use text_reader::{Cursor, Unread};

// Whose 1 it may be.
const OWNERS: [Owners; 3] = [Owners::Mine, Owners::Partner, Owners::Both];

impl EntryWord for Owners {
    ghost use Rattle.sv_journal.specs.EntryText.{owners_text};

    ghost text = { owners_text };

    fn text(self) -> &'static [u8] {
        match self {
            Owners::Mine => b"mine",
            Owners::Partner => b"partner",
            Owners::Both => b"both",
        }
    }
}

/// Reads the four elements of a control or of a state, each behind a blank. It takes no memory.
#[tactic(auto, unfolding(crate::specs::HoldReading::read_bits))]
pub(crate) fn read_control(cursor: &mut Cursor<'_>) -> Result<Control, Unread>
    ensures value { Gives (λ control. (control, cursor.new)) result (read_control cursor.old) }
    ensures free { IfErr result IsLeft }
{
    let first = read_bit(cursor)?;
    let second = read_bit(cursor)?;
    let third = read_bit(cursor)?;
    let fourth = read_bit(cursor)?;
    Ok(Control([first, second, third, fourth]))
}

// Reads an element behind a blank.
#[tactic(auto, unfolding(crate::specs::HoldReading::read_bit))]
fn read_bit(cursor: &mut Cursor<'_>) -> Result<bool, Unread>
    ensures value { Gives (λ bit. (bit, cursor.new)) result (read_bit cursor.old) }
    ensures free { IfErr result IsLeft }
{
    cursor.text(b" ")?;
    let bit = cursor.number(0, 1)?;
    Ok(bit == 1)
}

/// Reads what refuses an access behind a blank: the element, and whose 1 it is. It takes no memory.
#[tactic(auto, unfolding(crate::specs::HoldReading::read_hold))]
pub(crate) fn read_hold(cursor: &mut Cursor<'_>) -> Result<Hold, Unread>
    ensures value { Gives (λ hold. (hold, cursor.new)) result (read_hold cursor.old) }
    ensures free { IfErr result IsLeft }
{
    cursor.text(b" ")?;
    let element = cursor.number(1, 4)?;
    cursor.text(b" ")?;
    let owners = read_word(cursor, &OWNERS)?;
    Ok(Hold {
        element: element as u8,
        owners,
    })
}
