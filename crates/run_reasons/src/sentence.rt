ghost use Rattle.std.specs.Prelude.{◌≡◌, ◌++◌, OnOk, IsTrue, Some};
ghost use Rattle.std.specs.List.{list_all};
ghost use Rattle.line_text.specs.Spaced.{is_plain};
ghost use Rattle.sv_access.specs.Access.{other_side};
ghost use Rattle.sv_access.specs.declared.access.Side.TheVariants.{B};
ghost use Rattle.sv_journal.specs.EntryText.{bit_text, control_text, hold_text, owners_text};
ghost use Rattle.run_reasons.specs.Sentence.{came_text, control_sentence, counted_text, coupling_sentence, hold_sentence, illegal_sentence, last_sentence, none_sentence, offer_sentence, open_seen_text, pair_sentence, partners_offer, rule_sentence, seen_text, side_sentence, side_text, to_text, unseen_text, value_sentence, wait_sentence};

use crate::placed::PlacedControl;
use crate::story::{LastSet, Source, StoryFacts};
use apl_arrays::{Line, Name, WantOfMemory};
use line_text::{add_blank, add_count, add_glyphs, add_text};
use sv_access::{AccessState, Control, Kind, Owners, Side, swap};
use sv_events::{Hold, Pair};
use sv_rules::{Coupling, Standing};

// The name of a side.
fn side_text(side: Side) -> &'static str
    ensures text { result.now ≡ side_text side }
    ensures plain { IsTrue (list_all is_plain result.now) }
{
    match side {
        Side::A => "side A",
        Side::B => "side B",
    }
}

// The other side.
fn other_side(side: Side) -> Side
    ensures { result ≡ other_side side }
{
    match side {
        Side::A => Side::B,
        Side::B => Side::A,
    }
}

// Adds to whom an offer is made.
fn add_to(line: &mut Line, to: u32) -> Result<(), WantOfMemory>
    ensures { OnOk result (line.new.items ≡ line.old.items ++ to_text to) }
{
    if to == 0 {
        add_text(line, "any party")
    } else {
        add_count(line, u64::from(to))
    }
}

/// Adds an offer that stands, and its entry. It takes memory for it, as all these calls do.
pub(crate) fn add_offer(line: &mut Line, offer: &Standing) -> Result<(), WantOfMemory>
    ensures { OnOk result (line.new.items ≡ line.old.items ++ offer_sentence offer.now) }
{
    add_count(line, u64::from(offer.party))?;
    add_text(line, " offers ")?;
    add_glyphs(line, offer.local.glyphs())?;
    add_text(line, " to ")?;
    add_to(line, offer.to)?;
    add_text(line, " under the name ")?;
    add_glyphs(line, offer.surrogate.glyphs())?;
    add_text(line, " since entry ")?;
    add_count(line, offer.place)?;
    add_text(line, ".")
}

/// Adds that a party had no offer of a name.
pub(crate) fn add_none(line: &mut Line, party: u32, local: &Name) -> Result<(), WantOfMemory>
    ensures { OnOk result (line.new.items ≡ line.old.items ++ none_sentence party local.now) }
{
    add_count(line, u64::from(party))?;
    add_text(line, " had no standing offer of ")?;
    add_glyphs(line, local.glyphs())?;
    add_text(line, " before this entry.")
}

// The offer on the other side of the one at a place.
fn partners_offer(place: u64, coupling: &Coupling) -> Standing
    ensures { result ≡ partners_offer place coupling.now }
{
    if coupling.a.place == place {
        coupling.b
    } else {
        coupling.a
    }
}

// Adds by which entry an offer was coupled, and with which other.
fn add_coupled(line: &mut Line, place: u64, coupling: &Coupling) -> Result<(), WantOfMemory>
    ensures { OnOk result (line.new.items ≡ line.old.items ++ coupling_sentence place (Some coupling.now)) }
{
    let partner = partners_offer(place, coupling);
    add_text(line, "Entry ")?;
    add_count(line, coupling.at)?;
    add_text(line, " coupled it with the offer of ")?;
    add_glyphs(line, partner.local.glyphs())?;
    add_text(line, " by ")?;
    add_count(line, u64::from(partner.party))?;
    add_text(line, ", which stands since entry ")?;
    add_count(line, partner.place)?;
    add_text(line, ".")
}

/// Adds whether an offer is coupled, with which other and by which entry.
pub(crate) fn add_coupling(
    line: &mut Line,
    place: u64,
    coupling: Option<Coupling>,
) -> Result<(), WantOfMemory>
    ensures { OnOk result (line.new.items ≡ line.old.items ++ coupling_sentence place coupling) }
{
    match coupling {
        None => add_text(line, "It is coupled with no other offer."),
        Some(coupling) => add_coupled(line, place, &coupling),
    }
}

/// Adds which side a party is.
pub(crate) fn add_side(line: &mut Line, party: u32, side: Side) -> Result<(), WantOfMemory>
    ensures { OnOk result (line.new.items ≡ line.old.items ++ side_sentence party side) }
{
    add_count(line, u64::from(party))?;
    add_text(line, " is ")?;
    add_text(line, side_text(side))?;
    add_text(line, ".")
}

// Adds an element of a control.
fn add_bit(line: &mut Line, bit: bool) -> Result<(), WantOfMemory>
    ensures { OnOk result (line.new.items ≡ line.old.items ++ bit_text bit) }
{
    add_text(line, if bit { "1" } else { "0" })
}

// Adds the four elements of a control.
fn add_elements(line: &mut Line, control: Control) -> Result<(), WantOfMemory>
    ensures { OnOk result (line.new.items ≡ line.old.items ++ control_text control) }
{
    let [first, second, third, fourth] = control.0;
    add_bit(line, first)?;
    add_blank(line)?;
    add_bit(line, second)?;
    add_blank(line)?;
    add_bit(line, third)?;
    add_blank(line)?;
    add_bit(line, fourth)
}

// Adds the control of side B as side A counts.
fn add_swapped(line: &mut Line, control: Control) -> Result<(), WantOfMemory>
    ensures { OnOk result (line.new.items ≡ line.old.items ++ counted_text B control) }
{
    add_text(line, ", ")?;
    add_elements(line, swap(control))?;
    add_text(line, " as side A counts")
}

// Adds the control of a side as side A counts, if it counts another way.
fn add_counted(line: &mut Line, side: Side, control: Control) -> Result<(), WantOfMemory>
    ensures { OnOk result (line.new.items ≡ line.old.items ++ counted_text side control) }
{
    match side {
        Side::A => Ok(()),
        Side::B => add_swapped(line, control),
    }
}

// Adds a control that a side set, and its entry.
fn add_set_control(line: &mut Line, side: Side, set: PlacedControl) -> Result<(), WantOfMemory>
    ensures { OnOk result (line.new.items ≡ line.old.items ++ control_sentence side (Some set)) }
{
    add_text(line, "Entry ")?;
    add_count(line, set.at)?;
    add_text(line, " set the control ")?;
    add_elements(line, set.control)?;
    add_text(line, " by ")?;
    add_text(line, side_text(side))?;
    add_counted(line, side, set.control)?;
    add_text(line, ".")
}

/// Adds which control a side set, and by which entry.
pub(crate) fn add_control(
    line: &mut Line,
    side: Side,
    set: Option<PlacedControl>,
) -> Result<(), WantOfMemory>
    ensures { OnOk result (line.new.items ≡ line.old.items ++ control_sentence side set) }
{
    match set {
        None => {
            add_text(line, "No control is set by ")?;
            add_text(line, side_text(side))?;
            add_text(line, ".")
        }
        Some(set) => add_set_control(line, side, set),
    }
}

// Whether a set of an open offer is unseen in a state.
fn open_seen_text(state: AccessState) -> &'static str
    ensures text { result.now ≡ open_seen_text state }
    ensures plain { IsTrue (list_all is_plain result.now) }
{
    match state {
        AccessState::Quiet => "it was seen.",
        AccessState::UnseenA | AccessState::UnseenB => {
            "no partner has used it since: it is unseen."
        }
    }
}

// Whether a set of a coupling is unseen in a state.
fn seen_text(state: AccessState) -> &'static str
    ensures text { result.now ≡ seen_text state }
    ensures plain { IsTrue (list_all is_plain result.now) }
{
    match state {
        AccessState::Quiet => " has used it since.",
        AccessState::UnseenA | AccessState::UnseenB => " has not used it since: it is unseen.",
    }
}

// Adds whether the set of a side is unseen.
fn add_unseen(
    line: &mut Line,
    coupling: Option<Coupling>,
    side: Side,
    state: AccessState,
) -> Result<(), WantOfMemory>
    ensures { OnOk result (line.new.items ≡ line.old.items ++ unseen_text coupling side state) }
{
    match coupling {
        None => add_text(line, open_seen_text(state)),
        Some(_) => {
            add_text(line, side_text(other_side(side)))?;
            add_text(line, seen_text(state))
        }
    }
}

// How a value came by an entry.
fn came_text(is_set: bool) -> &'static str
    ensures text { result.now ≡ came_text is_set }
    ensures plain { IsTrue (list_all is_plain result.now) }
{
    if is_set {
        "The last value set is that of entry "
    } else {
        "What counts as the last value set is what was known since entry "
    }
}

// Adds the last set of a story.
fn add_last_set(
    line: &mut Line,
    coupling: Option<Coupling>,
    state: AccessState,
    set: LastSet,
) -> Result<(), WantOfMemory>
    ensures { OnOk result (line.new.items ≡ line.old.items ++ last_sentence coupling state (Some set)) }
{
    add_text(line, came_text(set.source.is_set))?;
    add_count(line, set.source.at)?;
    add_text(line, ", of ")?;
    add_text(line, side_text(set.side))?;
    add_text(line, "; ")?;
    add_unseen(line, coupling, set.side, state)
}

/// Adds the last value set, and whether the partner has used it.
pub(crate) fn add_last(
    line: &mut Line,
    coupling: Option<Coupling>,
    told: StoryFacts,
) -> Result<(), WantOfMemory>
    ensures { OnOk result (line.new.items ≡ line.old.items ++ last_sentence coupling told.state told.last) }
{
    match told.last {
        None => add_text(line, "No value was set."),
        Some(set) => add_last_set(line, coupling, told.state, set),
    }
}

/// Adds the row of the access table of an access.
pub(crate) fn add_rule(line: &mut Line, side: Side, kind: Kind) -> Result<(), WantOfMemory>
    ensures { OnOk result (line.new.items ≡ line.old.items ++ rule_sentence side kind) }
{
    add_text(
        line,
        match (side, kind) {
            (Side::A, Kind::Set) => {
                "A set by side A is refused where a control has 1 at element 1, as side A counts, and a set of side A is unseen."
            }
            (Side::B, Kind::Set) => {
                "A set by side B is refused where a control has 1 at element 2, as side A counts, and a set of side B is unseen."
            }
            (Side::A, Kind::Use) => {
                "A use by side A is refused where a control has 1 at element 3, as side A counts, and no set of side B is unseen."
            }
            (Side::B, Kind::Use) => {
                "A use by side B is refused where a control has 1 at element 4, as side A counts, and no set of side A is unseen."
            }
        },
    )
}

// Whose 1 it is.
fn owner(owners: Owners) -> &'static str
    ensures text { result.now ≡ owners_text owners }
    ensures plain { IsTrue (list_all is_plain result.now) }
{
    match owners {
        Owners::Mine => "mine",
        Owners::Partner => "partner",
        Owners::Both => "both",
    }
}

/// Adds whether an access is refused, and by what.
pub(crate) fn add_hold(line: &mut Line, hold: Option<Hold>) -> Result<(), WantOfMemory>
    ensures { OnOk result (line.new.items ≡ line.old.items ++ hold_sentence hold) }
{
    match hold {
        None => add_text(line, "So nothing refuses it."),
        Some(hold) => {
            add_text(line, "So it is refused: element ")?;
            add_count(line, u64::from(hold.element))?;
            add_blank(line)?;
            add_text(line, owner(hold.owners))?;
            add_text(line, ".")
        }
    }
}

/// Adds by which entry a value came.
pub(crate) fn add_value(line: &mut Line, source: Option<Source>) -> Result<(), WantOfMemory>
    ensures { OnOk result (line.new.items ≡ line.old.items ++ value_sentence source) }
{
    match source {
        None => add_text(line, "There is no value."),
        Some(source) => {
            add_text(line, "The value is that of entry ")?;
            add_count(line, source.at)?;
            add_text(line, ".")
        }
    }
}

/// Adds since which entry a party waits.
pub(crate) fn add_wait(line: &mut Line, party: u32, at: u64) -> Result<(), WantOfMemory>
    ensures { OnOk result (line.new.items ≡ line.old.items ++ wait_sentence party at) }
{
    add_count(line, u64::from(party))?;
    add_text(line, " waited since entry ")?;
    add_count(line, at)?;
    add_text(line, ".")
}

/// Adds a pair that an entry makes.
pub(crate) fn add_pair(line: &mut Line, pair: Pair) -> Result<(), WantOfMemory>
    ensures { OnOk result (line.new.items ≡ line.old.items ++ pair_sentence pair) }
{
    add_text(line, "It couples the offers of entries ")?;
    add_count(line, pair.a)?;
    add_text(line, " and ")?;
    add_count(line, pair.b)?;
    add_text(line, ".")
}

/// Adds an entry that the rules don't allow.
pub(crate) fn add_illegal(line: &mut Line, at: u64) -> Result<(), WantOfMemory>
    ensures { OnOk result (line.new.items ≡ line.old.items ++ illegal_sentence at) }
{
    add_text(line, "Entry ")?;
    add_count(line, at)?;
    add_text(
        line,
        " may not follow those before it; this is what the rules say all the same.",
    )
}
