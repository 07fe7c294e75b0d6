ghost use Rattle.std.specs.Prelude.{◌≡◌, ◌≤◌, ◌∷◌, [], ◌++◌, IfOk, IsTrue, None, OnOk, option_copied};
ghost use Rattle.std.specs.List.{list_all};
ghost use Rattle.apl_arrays.specs.Array.{seen_items};
ghost use Rattle.line_text.specs.Spaced.{is_plain, spaced};
ghost use Rattle.sv_events.specs.Entry.{plain_entry};
ghost use Rattle.sv_journal.specs.EntryText.{bit_text, control_text, hold_text, owners_text};
ghost use Rattle.run_picture.specs.Label.{act_label, asked_text, cut, first_items, got_text, label_of, mark_of, style_of};

use apl_arrays::{Array, Glyph, ItemsRef, Line, List, Name, WantOfMemory};
use line_text::{add_blank, add_count, add_glyphs, add_numbers, add_text};
use std::alloc::Global;
use sv_access::{Control, Owners};
use sv_events::{Act, Entry, Hold};

/// The most glyphs beside a mark.
const MOST: usize = 11;

/// A text of so many glyphs at most: of a longer one the front, and two points. It takes memory for it.
pub(crate) fn cut(alloc: Global, text: &[Glyph], most: usize) -> Result<Line, WantOfMemory>
    requires { 2 ≤ most }
    ensures { IfOk result (λ line. line.items ≡ cut most text.now) }
{
    let mut line = List::new(alloc);
    if text.len() <= most {
        add_glyphs(&mut line, text)?;
    } else {
        add_glyphs(&mut line, &text[..most - 2])?;
        add_text(&mut line, "..")?;
    }
    Ok(line)
}

// Adds the first items of a value, more of them than are shown.
fn add_first_items(line: &mut Line, items: ItemsRef<'_>) -> Result<(), WantOfMemory>
    ensures { OnOk result (line.new.items ≡ line.old.items ++ first_items (seen_items items.entry)) }
{
    match items {
        ItemsRef::Numbers(numbers) => add_numbers(line, &numbers[..numbers.len().min(MOST)]),
        ItemsRef::Chars(chars) => add_glyphs(line, &chars[..chars.len().min(MOST + 1)]),
    }
}

// Adds a value that is got, behind an arrow.
fn add_got(line: &mut Line, got: Option<&Array>) -> Result<(), WantOfMemory>
    ensures { OnOk result (line.new.items ≡ line.old.items ++ got_text (option_copied got.entry)) }
{
    match got {
        None => Ok(()),
        Some(got) => {
            line.push(Glyph::RIGHT_ARROW)?;
            add_first_items(line, got.items())
        }
    }
}

// Adds an element of a control.
fn add_bit(line: &mut Line, bit: bool) -> Result<(), WantOfMemory>
    ensures { OnOk result (line.new.items ≡ line.old.items ++ bit_text bit) }
{
    add_text(line, if bit { "1" } else { "0" })
}

// Adds the four elements of a control.
fn add_control(line: &mut Line, control: Control) -> Result<(), WantOfMemory>
    ensures { OnOk result (line.new.items ≡ line.old.items ++ control_text control) }
{
    let [first, second, third, fourth] = control.0;
    add_bit(line, first)?;
    add_blank(line)?;
    add_bit(line, second)?;
    add_blank(line)?;
    add_bit(line, third)?;
    add_blank(line)?;
    add_bit(line, fourth)
}

// Adds a name and a control that is set on it.
fn add_set_control(line: &mut Line, local: &Name, control: Control) -> Result<(), WantOfMemory>
    ensures { OnOk result (line.new.items ≡ line.old.items ++ spaced (local.now ∷ control_text control ∷ [])) }
{
    add_glyphs(line, local.glyphs())?;
    add_blank(line)?;
    add_control(line, control)
}

// Adds a question about a name.
fn add_asked(line: &mut Line, local: &Name) -> Result<(), WantOfMemory>
    ensures { OnOk result (line.new.items ≡ line.old.items ++ asked_text local.now) }
{
    add_glyphs(line, local.glyphs())?;
    add_text(line, "?")
}

// Adds a name and a value that is set on it.
fn add_set(line: &mut Line, local: &Name, new: &Array) -> Result<(), WantOfMemory>
    ensures { OnOk result (line.new.items ≡ line.old.items ++ act_label (Act.Set local.now new.now) None) }
{
    add_glyphs(line, local.glyphs())?;
    line.push(Glyph::LEFT_ARROW)?;
    add_first_items(line, new.items())
}

// Adds a name and the value that a use of it gets.
fn add_use(line: &mut Line, local: &Name, got: Option<&Array>) -> Result<(), WantOfMemory>
    ensures { OnOk result (line.new.items ≡ line.old.items ++ (local.now ++ got_text (option_copied got.entry))) }
{
    add_glyphs(line, local.glyphs())?;
    add_got(line, got)
}

// Adds the text of an act, and of the value that it gets.
fn add_act(line: &mut Line, act: &Act, got: Option<&Array>) -> Result<(), WantOfMemory>
    ensures { OnOk result (line.new.items ≡ line.old.items ++ act_label act.now (option_copied got.entry)) }
{
    match act {
        Act::Offer { local, .. } | Act::Retract(local) => add_glyphs(line, local.glyphs()),
        Act::SetControl(local, control) => add_set_control(line, local, *control),
        Act::AskControl(local) | Act::AskState(local) | Act::AskDegree(local) => {
            add_asked(line, local)
        }
        Act::AskParties => add_text(line, "?"),
        Act::AskNames(party) => {
            add_count(line, u64::from(*party))?;
            add_text(line, "?")
        }
        Act::Set(local, new) => add_set(line, local, new),
        Act::Use(local) => add_use(line, local, got),
        Act::Leave => add_text(line, "leave"),
    }
}

// Adds what refuses an access: the element, and whose 1 it is.
fn add_hold(line: &mut Line, hold: Hold) -> Result<(), WantOfMemory>
    ensures { OnOk result (line.new.items ≡ line.old.items ++ hold_text hold) }
{
    add_count(line, u64::from(hold.element))?;
    add_blank(line)?;
    add_text(line, owner(hold.owners))
}

// Whose 1 it is.
fn owner(owners: Owners) -> &'static str
    ensures text { result.now ≡ owners_text owners }
    ensures plain { IsTrue (list_all is_plain result.now) }
{
    match owners {
        Owners::Mine => "mine",
        Owners::Partner => "partner",
        Owners::Both => "both",
    }
}

/// What stands beside the mark of an entry. It takes memory for it.
pub(crate) fn label_of(alloc: Global, entry: &Entry) -> Result<Line, WantOfMemory>
    ensures { IfOk result (λ line. line.items ≡ label_of (plain_entry entry.now)) }
{
    let mut line = List::new(alloc);
    match entry.answer.row().hold {
        Some(hold) => add_hold(&mut line, hold)?,
        None => add_act(&mut line, &entry.act, entry.answer.value())?,
    }
    cut(alloc, line.as_slice(), MOST)
}

/// The mark of an act.
pub(crate) fn mark_of(act: &Act) -> &'static str
    ensures text { result.now ≡ mark_of act.now }
    ensures plain { IsTrue (list_all is_plain result.now) }
{
    match act {
        Act::Offer { .. } => "offer",
        Act::Retract(_) => "retract",
        Act::SetControl(..) => "control",
        Act::AskControl(_)
        | Act::AskState(_)
        | Act::AskDegree(_)
        | Act::AskParties
        | Act::AskNames(_) => "question",
        Act::Set(..) => "set",
        Act::Use(_) => "use",
        Act::Leave => "leave",
    }
}

/// How the mark of an entry is drawn.
pub(crate) fn style_of(entry: &Entry) -> &'static str
    ensures text { result.now ≡ style_of (plain_entry entry.now) }
    ensures plain { IsTrue (list_all is_plain result.now) }
{
    match entry.answer.row().hold {
        Some(_) => "held",
        None => mark_of(&entry.act),
    }
}
