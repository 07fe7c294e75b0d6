ghost use Rattle.std.specs.Prelude.{◌≡◌, ◌<◌, ◌^◌, ◌++◌, OnOk, OnErr};
ghost use Rattle.apl_arrays.specs.Front.{KeepsFront};
ghost use Rattle.sv_journal.specs.EntryText.{bit_text, control_text, owners_text, hold_text};
ghost use Rattle.sv_journal.specs.Printable.{IsPrintableControl};

use apl_arrays::{Line, WantOfMemory};
use line_text::{add_blank, add_count, add_text};
use sv_access::{Control, Owners};
use sv_events::Hold;

// Adds an element of a control or of a state.
fn add_bit(line: &mut Line, bit: bool) -> Result<(), WantOfMemory>
    ensures text { OnOk result (line.new.items ≡ line.old.items ++ bit_text bit) }
    ensures front { OnErr result (KeepsFront line.old.items line.new.items) }
{
    add_text(line, if bit { "1" } else { "0" })
}

/// Adds the four elements of a control or of a state at the end of a line, with one blank between each two. It takes
/// memory for them; where that runs out, a part of the text may stand behind what stood there.
pub(crate) fn add_control(line: &mut Line, control: Control) -> Result<(), WantOfMemory>
    ensures text { OnOk result (line.new.items ≡ line.old.items ++ control_text control) }
    ensures front { OnErr result (KeepsFront line.old.items line.new.items) }
    ensures printable { IsPrintableControl control }
{
    let [first, second, third, fourth] = control.0;
    add_bit(line, first)?;
    add_blank(line)?;
    add_bit(line, second)?;
    add_blank(line)?;
    add_bit(line, third)?;
    add_blank(line)?;
    add_bit(line, fourth)
}

/// Adds what refuses an access at the end of a line: the element, and whose 1 it is. It takes memory for it; where that
/// runs out, a part of the text may stand behind what stood there.
pub(crate) fn add_hold(line: &mut Line, hold: Hold) -> Result<(), WantOfMemory>
    ensures text { OnOk result (line.new.items ≡ line.old.items ++ hold_text hold) }
    ensures front { OnErr result (KeepsFront line.old.items line.new.items) }
    ensures printable { hold.element < 2 ^ 64 }
{
    add_count(line, u64::from(hold.element))?;
    add_blank(line)?;
    add_owners(line, hold.owners)
}

// Adds whose 1 it is.
fn add_owners(line: &mut Line, owners: Owners) -> Result<(), WantOfMemory>
    ensures text { OnOk result (line.new.items ≡ line.old.items ++ owners_text owners) }
    ensures front { OnErr result (KeepsFront line.old.items line.new.items) }
{
    match owners {
        Owners::Mine => add_text(line, "mine"),
        Owners::Partner => add_text(line, "partner"),
        Owners::Both => add_text(line, "both"),
    }
}
