ghost use Rattle.std.specs.Prelude.{◌≡◌, ◌∷◌, [], ◌++◌, OnOk, IsTrue, OnErr};
ghost use Rattle.std.specs.List.{list_all};
ghost use Rattle.apl_arrays.specs.Front.{KeepsFront};
ghost use Rattle.apl_arrays.specs.Name.{IsName};
ghost use Rattle.line_text.specs.Spaced.{is_plain, spaced};
ghost use Rattle.sv_journal.specs.EntryText.{act_text};
ghost use Rattle.sv_journal.specs.Printable.{IsPrintableAct};

use crate::hold_text::add_control;
use apl_arrays::{Array, Line, Name, WantOfMemory};
use line_text::{add_blank, add_count, add_glyphs, add_text};
use sv_access::Control;
use sv_events::Act;
use sv_text::{add_array, add_value};

/// Adds an act at the end of a line. It takes memory for it; where that runs out, a part of the text may stand behind what stood there.
pub(crate) fn add_act(line: &mut Line, act: &Act) -> Result<(), WantOfMemory>
    ensures text { OnOk result (line.new.items ≡ line.old.items ++ act_text act.now) }
    ensures front { OnErr result (KeepsFront line.old.items line.new.items) }
    ensures printable { OnOk result (IsPrintableAct act.now) }
{
    match act {
        Act::Offer {
            to,
            local,
            surrogate,
            value,
        } => add_offer(line, *to, local, surrogate, value),
        Act::Retract(local) => add_named(line, "retract", local),
        Act::SetControl(local, control) => add_set_control(line, local, *control),
        Act::AskControl(local) => add_named(line, "askcontrol", local),
        Act::AskState(local) => add_named(line, "askstate", local),
        Act::AskDegree(local) => add_named(line, "askdegree", local),
        Act::AskParties => add_text(line, "askparties"),
        Act::AskNames(party) => add_asked_names(line, *party),
        Act::Set(local, value) => add_set(line, local, value),
        Act::Use(local) => add_named(line, "use", local),
        Act::Leave => add_text(line, "leave"),
    }
}

// Adds an offer.
fn add_offer(
    line: &mut Line,
    to: u32,
    local: &Name,
    surrogate: &Name,
    value: &Option<Array>,
) -> Result<(), WantOfMemory>
    ensures text { OnOk result (line.new.items
        ≡ line.old.items ++ act_text (Act.Offer to local.now surrogate.now value.now)) }
    ensures front { OnErr result (KeepsFront line.old.items line.new.items) }
    ensures printable { OnOk result (IsPrintableAct (Act.Offer to local.now surrogate.now value.now)) }
{
    add_text(line, "offer ")?;
    add_count(line, u64::from(to))?;
    add_blank(line)?;
    add_names(line, local, surrogate)?;
    add_blank(line)?;
    add_value(line, value)
}

// Adds two names with a blank between.
fn add_names(line: &mut Line, local: &Name, surrogate: &Name) -> Result<(), WantOfMemory>
    ensures text { OnOk result (line.new.items
        ≡ line.old.items ++ spaced (local.now ∷ surrogate.now ∷ [])) }
    ensures front { OnErr result (KeepsFront line.old.items line.new.items) }
    ensures printable { OnOk result (IsName local.now × IsName surrogate.now) }
{
    add_glyphs(line, local.glyphs())?;
    add_blank(line)?;
    add_glyphs(line, surrogate.glyphs())
}

// Adds a word and a name.
fn add_named(line: &mut Line, word: &str, local: &Name) -> Result<(), WantOfMemory>
    requires { IsTrue (list_all is_plain word.now) }
    ensures text { OnOk result (line.new.items ≡ line.old.items ++ spaced (word.now ∷ local.now ∷ [])) }
    ensures front { OnErr result (KeepsFront line.old.items line.new.items) }
    ensures name { OnOk result (IsName local.now) }
{
    add_text(line, word)?;
    add_blank(line)?;
    add_glyphs(line, local.glyphs())
}

// Adds a control that is set on a name.
fn add_set_control(line: &mut Line, local: &Name, control: Control) -> Result<(), WantOfMemory>
    ensures text { OnOk result (line.new.items
        ≡ line.old.items ++ act_text (Act.SetControl local.now control)) }
    ensures front { OnErr result (KeepsFront line.old.items line.new.items) }
    ensures printable { OnOk result (IsPrintableAct (Act.SetControl local.now control)) }
{
    add_named(line, "control", local)?;
    add_blank(line)?;
    add_control(line, control)
}

// Adds a question for the names of a party.
fn add_asked_names(line: &mut Line, party: u32) -> Result<(), WantOfMemory>
    ensures text { OnOk result (line.new.items ≡ line.old.items ++ act_text (Act.AskNames party)) }
    ensures front { OnErr result (KeepsFront line.old.items line.new.items) }
    ensures printable { OnOk result (IsPrintableAct (Act.AskNames party)) }
{
    add_text(line, "asknames ")?;
    add_count(line, u64::from(party))
}

// Adds a set.
fn add_set(line: &mut Line, local: &Name, value: &Array) -> Result<(), WantOfMemory>
    ensures text { OnOk result (line.new.items
        ≡ line.old.items ++ act_text (Act.Set local.now value.now)) }
    ensures front { OnErr result (KeepsFront line.old.items line.new.items) }
    ensures printable { OnOk result (IsPrintableAct (Act.Set local.now value.now)) }
{
    add_named(line, "set", local)?;
    add_blank(line)?;
    add_array(line, value)
}
