ghost use Rattle.std.specs.Prelude.{◌≡◌, ◌∷◌, [], ◌++◌, IfOk, OnOk, Some, map, option_map, if◌then◌else◌};
ghost use Rattle.line_text.specs.Lines.{lines_text};
ghost use Rattle.sv_events.specs.Entry.{plain_entry};
ghost use Rattle.sv_rules.specs.Entries.{is_abandoned};
ghost use Rattle.sv_rules.specs.Journal.{journal_of};
ghost use Rattle.sv_rules.specs.Standing.{own_offer, standing};
ghost use Rattle.run_reasons.specs.Facts.{ground_lines, partner_lines, side_lines};
ghost use Rattle.run_reasons.specs.Ground.{ground_now};
ghost use Rattle.run_reasons.specs.Sentence.{hold_sentence, pair_sentence, rule_sentence, stuck_sentence, value_sentence};
ghost use Rattle.run_reasons.specs.Why.{access_lines, act_lines, got_lines, illegal_lines, kept_lines, lines_by, lines_on, name_of, named_lines, rule_lines, unless_held, value_source, wait_lines, waits_since, why_lines};

use crate::ground::{GroundFacts, ground_hold, ground_of};
use crate::names::name_of;
use crate::placed::known_at;
use crate::sentence::{
    add_control, add_coupling, add_hold, add_illegal, add_last, add_none, add_offer, add_pair,
    add_rule, add_side, add_value, add_wait,
};
use crate::story::{Source, StoryFacts};
use apl_arrays::{List, Name, WantOfMemory};
use line_text::{add_line, add_word};
use std::alloc::Global;
use sv_access::{Kind, Side};
use sv_events::{Accessing, ActRow, AnswerKind, Ending, Entry, Hold, Pair};
use sv_journal::text_of;
use sv_plain::{couplings_of, standing_offers};
use sv_rules::{Standing, coupling_at, is_abandoned, is_held, own_offer};

// Adds the control of the partner, if there is one.
fn add_partner(alloc: Global, bytes: &mut Vec<u8>, facts: &GroundFacts) -> Result<(), WantOfMemory>
    ensures { OnOk result (bytes.new.items ≡ bytes.old.items ++ lines_text (partner_lines facts.now facts.now.coupling)) }
{
    match facts.coupling {
        None => Ok(()),
        Some(_) => {
            let mut of_b = List::new(alloc);
            add_control(&mut of_b, Side::B, facts.b)?;
            add_line(bytes, &of_b)
        }
    }
}

// Adds the lines of the sides: which one the party is, and their controls.
fn add_sides(alloc: Global, bytes: &mut Vec<u8>, facts: &GroundFacts) -> Result<(), WantOfMemory>
    ensures { OnOk result (bytes.new.items ≡ bytes.old.items ++ lines_text (side_lines facts.now)) }
{
    let mut side = List::new(alloc);
    add_side(&mut side, facts.offer.party, facts.side)?;
    add_line(bytes, &side)?;
    let mut of_a = List::new(alloc);
    add_control(&mut of_a, Side::A, facts.a)?;
    add_line(bytes, &of_a)?;
    add_partner(alloc, bytes, facts)
}

// Adds the lines of a ground.
fn add_ground(alloc: Global, bytes: &mut Vec<u8>, facts: &GroundFacts) -> Result<(), WantOfMemory>
    ensures { OnOk result (bytes.new.items ≡ bytes.old.items ++ lines_text (ground_lines facts.now)) }
{
    let mut offer = List::new(alloc);
    add_offer(&mut offer, &facts.offer)?;
    add_line(bytes, &offer)?;
    let mut coupling = List::new(alloc);
    add_coupling(&mut coupling, facts.offer.place, facts.coupling)?;
    add_line(bytes, &coupling)?;
    add_sides(alloc, bytes, facts)?;
    let mut last = List::new(alloc);
    add_last(&mut last, facts.coupling, facts.told)?;
    add_line(bytes, &last)
}

// By which entry the last set came, if there is one.
fn last_source(told: StoryFacts) -> Option<Source>
    ensures { result ≡ option_map (λ set. set.source) told.last }
{
    match told.last {
        None => None,
        Some(set) => Some(set.source),
    }
}

// The entry whose value a use gets.
fn value_source(entries: &[Entry], facts: &GroundFacts) -> Option<Source>
    ensures { result ≡ value_source (journal_of entries.now) facts.now facts.now.coupling }
{
    match facts.coupling {
        None => known_at(entries, &facts.offer),
        Some(_) => last_source(facts.told),
    }
}

// Adds the line of a value that came by an entry.
fn add_value_line(
    alloc: Global,
    bytes: &mut Vec<u8>,
    source: Option<Source>,
) -> Result<(), WantOfMemory>
    ensures { OnOk result (bytes.new.items ≡ bytes.old.items ++ lines_text (value_sentence source ∷ [])) }
{
    let mut line = List::new(alloc);
    add_value(&mut line, source)?;
    add_line(bytes, &line)
}

// Adds what a use gets that nothing refuses.
fn add_got(
    alloc: Global,
    bytes: &mut Vec<u8>,
    entries: &[Entry],
    facts: &GroundFacts,
    kind: Kind,
) -> Result<(), WantOfMemory>
    ensures { OnOk result (bytes.new.items ≡ bytes.old.items ++ lines_text (got_lines (journal_of entries.now) facts.now kind)) }
{
    match kind {
        Kind::Set => Ok(()),
        Kind::Use => add_value_line(alloc, bytes, value_source(entries, facts)),
    }
}

// Adds what is got where nothing refuses it.
fn add_unless_held(
    alloc: Global,
    bytes: &mut Vec<u8>,
    entries: &[Entry],
    facts: &GroundFacts,
    kind: Kind,
    hold: Option<Hold>,
) -> Result<(), WantOfMemory>
    ensures { OnOk result (bytes.new.items ≡ bytes.old.items ++ lines_text (unless_held (journal_of entries.now) facts.now kind hold)) }
{
    match hold {
        None => add_got(alloc, bytes, entries, facts, kind),
        Some(_) => Ok(()),
    }
}

// Adds the row of the access table of an access, and how it decides.
fn add_row(
    alloc: Global,
    bytes: &mut Vec<u8>,
    side: Side,
    kind: Kind,
    hold: Option<Hold>,
) -> Result<(), WantOfMemory>
    ensures { OnOk result (bytes.new.items ≡ bytes.old.items ++ lines_text (rule_sentence side kind ∷ hold_sentence hold ∷ [])) }
{
    let mut rule = List::new(alloc);
    add_rule(&mut rule, side, kind)?;
    add_line(bytes, &rule)?;
    let mut held = List::new(alloc);
    add_hold(&mut held, hold)?;
    add_line(bytes, &held)
}

// Adds the row of the access table that decides of an access, and how, if one is made.
fn add_access(
    alloc: Global,
    bytes: &mut Vec<u8>,
    entries: &[Entry],
    facts: &GroundFacts,
    hold: Option<Hold>,
    access: Option<Accessing>,
) -> Result<(), WantOfMemory>
    ensures { OnOk result (bytes.new.items ≡ bytes.old.items ++ lines_text (access_lines (journal_of entries.now) facts.now hold access)) }
{
    match access {
        None => Ok(()),
        Some(access) => {
            add_row(alloc, bytes, facts.side, access.kind, hold)?;
            add_unless_held(alloc, bytes, entries, facts, access.kind, hold)
        }
    }
}

// Adds the value that a party keeps which takes a name back.
fn add_kept(
    alloc: Global,
    bytes: &mut Vec<u8>,
    entries: &[Entry],
    offer: &Standing,
    ends: Option<Ending>,
) -> Result<(), WantOfMemory>
    ensures { OnOk result (bytes.new.items ≡ bytes.old.items ++ lines_text (kept_lines (journal_of entries.now) offer.now ends)) }
{
    match ends {
        None => Ok(()),
        Some(_) => add_value_line(alloc, bytes, known_at(entries, offer)),
    }
}

// Adds the lines of an act on an offer, by facts and by what refuses it.
fn add_lines(
    alloc: Global,
    bytes: &mut Vec<u8>,
    entries: &[Entry],
    row: &ActRow,
    facts: &GroundFacts,
    hold: Option<Hold>,
) -> Result<(), WantOfMemory>
    ensures { OnOk result (bytes.new.items ≡ bytes.old.items ++ lines_text (lines_by (journal_of entries.now) row.now facts.now hold)) }
{
    add_ground(alloc, bytes, facts)?;
    add_access(alloc, bytes, entries, facts, hold, row.accesses)?;
    add_kept(alloc, bytes, entries, &facts.offer, row.ends)
}

// Adds the lines of an act on an offer that stands.
fn add_offered(
    alloc: Global,
    bytes: &mut Vec<u8>,
    entries: &[Entry],
    row: &ActRow,
    offers: &[Standing],
    offer: &Standing,
) -> Result<(), WantOfMemory>
    requires { offers.now ≡ standing (journal_of entries.now) }
    ensures { OnOk result (bytes.new.items ≡ bytes.old.items ++ lines_text (lines_on (journal_of entries.now) row.now (ground_now (journal_of entries.now) offer.now))) }
{
    let coupled = couplings_of(alloc, entries)?;
    let coupling = coupling_at(offers, &coupled, offer.place);
    let facts = ground_of(alloc, entries, offer, coupling)?;
    let hold = ground_hold(&facts, row.accesses);
    add_lines(alloc, bytes, entries, row, &facts, hold)?;
    Ok(())
}

// Adds the lines of an act on a name, by the party's offer of it.
fn add_by_offer(
    alloc: Global,
    bytes: &mut Vec<u8>,
    entries: &[Entry],
    party: u32,
    row: &ActRow,
    local: &Name,
    offers: &[Standing],
) -> Result<(), WantOfMemory>
    requires { offers.now ≡ standing (journal_of entries.now) }
    ensures { OnOk result (bytes.new.items ≡ bytes.old.items ++ lines_text (named_lines (journal_of entries.now) party row.now local.now (own_offer (standing (journal_of entries.now)) party local.now))) }
{
    match own_offer(offers, party, local) {
        None => {
            let mut line = List::new(alloc);
            add_none(&mut line, party, local)?;
            add_line(bytes, &line)
        }
        Some(offer) => add_offered(alloc, bytes, entries, row, offers, &offer),
    }
}

// Adds the lines of an act on a name.
fn add_named(
    alloc: Global,
    bytes: &mut Vec<u8>,
    entries: &[Entry],
    party: u32,
    row: &ActRow,
    local: &Name,
) -> Result<(), WantOfMemory>
    ensures { OnOk result (bytes.new.items ≡ bytes.old.items ++ lines_text (act_lines (journal_of entries.now) party row.now (Some local.now))) }
{
    let offers = standing_offers(alloc, entries)?;
    add_by_offer(alloc, bytes, entries, party, row, local, &offers)
}

// The place of a party's last entry, where this is held.
fn waits_since(entries: &[Entry], party: u32) -> Option<u64>
    ensures { result ≡ waits_since (journal_of entries.now) party }
{
    let mut left = entries.len();
    while left > 0 {
        let entry = &entries[left - 1];
        if entry.party == party {
            return if is_held(entry.answer.row().kind) {
                Some(left as u64)
            } else {
                None
            };
        }
        left -= 1;
    }
    None
}

// Adds since when the party waits, if it does.
fn add_waits(
    alloc: Global,
    bytes: &mut Vec<u8>,
    party: u32,
    since: Option<u64>,
) -> Result<(), WantOfMemory>
    ensures { OnOk result (bytes.new.items ≡ bytes.old.items ++ lines_text (wait_lines party since)) }
{
    match since {
        None => Ok(()),
        Some(at) => {
            let mut line = List::new(alloc);
            add_wait(&mut line, party, at)?;
            add_line(bytes, &line)
        }
    }
}

// Adds the lines of an act, on a name or on none.
fn add_act(
    alloc: Global,
    bytes: &mut Vec<u8>,
    entries: &[Entry],
    party: u32,
    row: &ActRow,
) -> Result<(), WantOfMemory>
    ensures { OnOk result (bytes.new.items ≡ bytes.old.items ++ lines_text (act_lines (journal_of entries.now) party row.now (name_of row.now))) }
{
    match name_of(row) {
        None => Ok(()),
        Some(local) => add_named(alloc, bytes, entries, party, row, &local),
    }
}

// Adds that a wait is given up, where an answer of this kind says so.
fn add_stuck(alloc: Global, bytes: &mut Vec<u8>, kind: AnswerKind) -> Result<(), WantOfMemory>
    ensures { OnOk result (bytes.new.items ≡ bytes.old.items ++ lines_text (if is_abandoned kind then stuck_sentence ∷ [] else [])) }
{
    if is_abandoned(kind) {
        add_word(
            alloc,
            bytes,
            "Its wait is given up, as is done where nobody can go on.",
        )
    } else {
        Ok(())
    }
}

// Adds the pairs that the entry makes.
fn add_pairs(alloc: Global, bytes: &mut Vec<u8>, pairs: &[Pair]) -> Result<(), WantOfMemory>
    ensures { OnOk result (bytes.new.items ≡ bytes.old.items ++ lines_text (map pair_sentence pairs.now)) }
{
    for pair in pairs {
        let mut line = List::new(alloc);
        add_pair(&mut line, *pair)?;
        add_line(bytes, &line)?;
    }
    Ok(())
}

// Adds what the rules say of an entry behind others.
fn add_rules(
    alloc: Global,
    bytes: &mut Vec<u8>,
    entries: &[Entry],
    entry: &Entry,
) -> Result<(), WantOfMemory>
    ensures { OnOk result (bytes.new.items ≡ bytes.old.items ++ lines_text (rule_lines (journal_of entries.now) (plain_entry entry.now))) }
{
    add_waits(alloc, bytes, entry.party, waits_since(entries, entry.party))?;
    add_act(alloc, bytes, entries, entry.party, &entry.act.row())?;
    add_stuck(alloc, bytes, entry.answer.row().kind)?;
    add_pairs(alloc, bytes, entry.made.as_slice())
}

// Adds where entries before are not legal, if they are not.
fn add_illegal_line(
    alloc: Global,
    bytes: &mut Vec<u8>,
    illegal: Option<u64>,
) -> Result<(), WantOfMemory>
    ensures { OnOk result (bytes.new.items ≡ bytes.old.items ++ lines_text (illegal_lines illegal)) }
{
    match illegal {
        None => Ok(()),
        Some(at) => {
            let mut line = List::new(alloc);
            add_illegal(&mut line, at)?;
            add_line(bytes, &line)
        }
    }
}

/// Why an entry behind others is what it is: its line as it is printed, and a line for each thing that the rules ask of it, with
/// the entry by which that came to be. The first entry before it that may not follow those before that is named, where it is
/// told. It takes memory for the bytes, and for what stands at each entry in turn; its time grows with the entries before, and
/// with those times how often the offer was coupled.
pub fn why_lines(
    alloc: Global,
    entries: &[Entry],
    entry: &Entry,
    illegal: Option<u64>,
) -> Result<Vec<u8>, WantOfMemory>
    ensures { IfOk result (λ bytes. bytes.items ≡ lines_text (why_lines illegal (journal_of entries.now) (plain_entry entry.now))) }
{
    let mut bytes = Vec::new(alloc);
    let line = text_of(alloc, entries.len() as u64 + 1, entry)?;
    add_line(&mut bytes, &line)?;
    add_illegal_line(alloc, &mut bytes, illegal)?;
    add_rules(alloc, &mut bytes, entries, entry)?;
    Ok(bytes)
}
