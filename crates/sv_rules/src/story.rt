ghost use Rattle.std.specs.Prelude.{◌≡◌, None, option_map, if◌then◌else◌};
ghost use Rattle.std.specs.Option.{option_copied};
ghost use Rattle.sv_events.specs.Answer.{plain_answer};
ghost use Rattle.sv_events.specs.Entry.{plain_entry};
ghost use Rattle.sv_events.specs.Row.{answer_row};
ghost use Rattle.sv_rules.specs.Entries.{is_granted, is_value, value_got};
ghost use Rattle.sv_rules.specs.Journal.{journal_of};
ghost use Rattle.sv_rules.specs.Story.{access_on, granted_as, granted_on, handed_in, known};

use crate::Standing;
use crate::entries::{is_granted, is_value};
use apl_arrays::{Array, Name};
use sv_access::Kind;
use sv_events::{Accessing, Act, Answer, Entry};

// The value that a use gets, if it gets one.
fn value_got(answer: &Answer) -> Option<&Array>
    ensures { option_copied result ≡ value_got (plain_answer answer.now) }
{
    if is_value(answer.row().kind) {
        answer.value()
    } else {
        None
    }
}

// The value handed in, where the answer grants it.
fn value_granted<'a>(act: &'a Act, answer: &Answer) -> Option<&'a Array>
    ensures { option_copied result ≡ (if is_granted (answer_row (plain_answer answer.now)).row.kind then handed_in act.now else None) }
{
    if is_granted(answer.row().kind) {
        act.hands_in()
    } else {
        None
    }
}

// The value of an access of a kind, where its answer grants it.
fn value_as<'a>(kind: Kind, act: &'a Act, answer: &'a Answer) -> Option<&'a Array>
    ensures { option_copied result ≡ option_map (λ access. access.value) (granted_as kind (handed_in act.now) (plain_answer answer.now)) }
{
    match kind {
        Kind::Set => value_granted(act, answer),
        Kind::Use => value_got(answer),
    }
}

// The value of an access, where it is on a local name.
fn value_in<'a>(
    local: &Name,
    access: Option<Accessing>,
    act: &'a Act,
    answer: &'a Answer,
) -> Option<&'a Array>
    ensures { option_copied result ≡ option_map (λ access. access.value) (granted_on local.now (handed_in act.now) (plain_answer answer.now) access) }
{
    let access = access?;
    if access.local == *local {
        value_as(access.kind, act, answer)
    } else {
        None
    }
}

/// The value of the access that an entry makes on an offer: its party's, on its local name.
pub fn value_on<'a>(offer: &Standing, entry: &'a Entry) -> Option<&'a Array>
    ensures { option_copied result ≡ option_map (λ access. access.value) (access_on offer.now (plain_entry entry.now)) }
{
    if entry.party == offer.party {
        value_in(
            &offer.local,
            entry.act.row().accesses,
            &entry.act,
            &entry.answer,
        )
    } else {
        None
    }
}

// The kind of an access, where its answer grants it.
fn kind_as(kind: Kind, act: &Act, answer: &Answer) -> Option<Kind>
    ensures { result ≡ option_map (λ access. access.kind) (granted_as kind (handed_in act.now) (plain_answer answer.now)) }
{
    if value_as(kind, act, answer).is_some() {
        Some(kind)
    } else {
        None
    }
}

// The kind of an access, where it is on a local name.
fn kind_in(local: &Name, access: Option<Accessing>, act: &Act, answer: &Answer) -> Option<Kind>
    ensures { result ≡ option_map (λ access. access.kind) (granted_on local.now (handed_in act.now) (plain_answer answer.now) access) }
{
    let access = access?;
    if access.local == *local {
        kind_as(access.kind, act, answer)
    } else {
        None
    }
}

/// The kind of the access that an entry makes on an offer: its party's, on its local name.
pub fn kind_on(offer: &Standing, entry: &Entry) -> Option<Kind>
    ensures { result ≡ option_map (λ access. access.kind) (access_on offer.now (plain_entry entry.now)) }
{
    if entry.party == offer.party {
        kind_in(
            &offer.local,
            entry.act.row().accesses,
            &entry.act,
            &entry.answer,
        )
    } else {
        None
    }
}

/// What the party of an offer knows of the variable: its newest set or get there, or else what it brought along with the
/// offer.
pub fn known_value<'a>(entries: &'a [Entry], offer: &Standing) -> Option<&'a Array>
    ensures { option_copied result ≡ known (journal_of entries.now) offer.now }
{
    let mut left = entries.len();
    while left > 0 {
        let entry = &entries[left - 1];
        if offer.place >= left as u64 {
            return entry.act.hands_in();
        }
        if let Some(value) = value_on(offer, entry) {
            return Some(value);
        }
        left -= 1;
    }
    None
}
