ghost use Rattle.std.specs.Prelude.{◌≡◌, ◌<◌, length};

use crate::calls::samples::{is_equal, letter, number, pairs};
use crate::retries::try_again;
use anyhow::{Context, Result, bail};
use apl_arrays::{Array, Name, PartyList, WantOfMemory};
use aux_parties::is_auxiliary;
use case_tables::{Calls, Looks};
use std::alloc::Global;
use sv_access::{Control, Owners};
use sv_core::Core;
use sv_events::{Act, Answer, Entry, Hold, Journal, Retry};
use sv_rules::is_leave;

/// A journal that three users make, with each call made once more where memory was refused: then the journal is what it was.
#[derive(Clone, Copy, Debug)]
pub struct CoreCalls;

const USERS: [u32; 3] = [1001, 1002, 1003];

// An act, on X where it has a name: an offer to a party, with a number as its value, a control of four ones, a set of a number.
#[derive(Clone, Copy)]
enum Asked {
    Offer(u32, Option<i64>),
    Control,
    Set(i64),
    Use,
    Retract,
    Degree,
    Parties,
    Leave,
}

// An answer: all that is held is held by the partner's 1 for element 4, and one party is told.
#[derive(Clone, Copy)]
enum Told {
    Degree(u8),
    Vector,
    Granted,
    Value(i64),
    Held,
    Parties(u32),
    Kept(u8, i64),
    Done,
}

// An entry: whose it is, the act, the answer, and the pairs that it couples.
type Row = (u32, Asked, Told, &'static [(u64, u64)]);

const ROWS: [Row; 15] = [
    (1001, Asked::Offer(0, Some(3)), Told::Degree(1), &[]),
    (1002, Asked::Offer(1001, None), Told::Degree(2), &[(1, 2)]),
    (1001, Asked::Control, Told::Vector, &[]),
    (1002, Asked::Use, Told::Value(3), &[]),
    (1002, Asked::Use, Told::Held, &[]),
    (1001, Asked::Set(1), Told::Granted, &[]),
    (1002, Asked::Use, Told::Value(1), &[]),
    (1003, Asked::Offer(1001, None), Told::Degree(1), &[]),
    (1001, Asked::Parties, Told::Parties(1003), &[]),
    (1002, Asked::Retract, Told::Kept(2, 1), &[(1, 8)]),
    (1001, Asked::Degree, Told::Degree(2), &[]),
    (1002, Asked::Offer(1001, None), Told::Degree(1), &[]),
    (1003, Asked::Leave, Told::Done, &[(1, 12)]),
    (1001, Asked::Leave, Told::Done, &[]),
    (1002, Asked::Leave, Told::Done, &[]),
];

fn act_of(x: Name, asked: Asked) -> Act {
    match asked {
        Asked::Offer(to, value) => Act::Offer {
            to,
            local: x,
            surrogate: x,
            value: number(value),
        },
        Asked::Control => Act::SetControl(x, Control([true; 4])),
        Asked::Set(value) => Act::Set(x, Array::of_number(value)),
        Asked::Use => Act::Use(x),
        Asked::Retract => Act::Retract(x),
        Asked::Degree => Act::AskDegree(x),
        Asked::Parties => Act::AskParties,
        Asked::Leave => Act::Leave,
    }
}

fn answer_of(alloc: Global, told: Told) -> Result<Answer, WantOfMemory> {
    match told {
        Told::Degree(degree) => Ok(Answer::Degree(degree)),
        Told::Vector => Ok(Answer::Vector(Control([true; 4]))),
        Told::Granted => Ok(Answer::Granted),
        Told::Value(value) => Ok(Answer::Value(Array::of_number(value))),
        Told::Held => Ok(Answer::Held(Hold {
            element: 4,
            owners: Owners::Partner,
        })),
        Told::Parties(party) => Ok(Answer::Parties(PartyList::of(alloc, &[party])?)),
        Told::Kept(degree, value) => Ok(Answer::Kept {
            degree,
            value: Some(Array::of_number(value)),
        }),
        Told::Done => Ok(Answer::Done),
    }
}

fn entry_of(alloc: Global, x: Name, row: Row) -> Result<Entry> {
    let (party, asked, told, made) = row;
    let made = pairs(alloc, made)?;
    let answer = answer_of(alloc, told)?;
    Ok(Entry {
        party,
        act: act_of(x, asked),
        answer,
        made,
    })
}

// The entries of all rows.
fn entries(alloc: Global) -> Result<Journal> {
    let x = letter(b'X')?;
    let mut entries = Journal::new(alloc);
    for row in &ROWS {
        entries.push(entry_of(alloc, x, *row)?)?;
    }
    Ok(entries)
}

// Whether another try was answered so.
fn is_now(retry: Retry, answer: &Answer) -> bool {
    match retry {
        Retry::Now(now) => is_equal(now, answer),
        Retry::StillHeld => false,
    }
}

// Whether another try was told to wait on.
fn is_held_still(retry: Result<Retry>) -> bool {
    let is_so = matches!(&retry, Ok(Retry::StillHeld));
    drop(retry);
    is_so
}

// A user makes the act of an entry, or tries again what it waits for, and is answered as the entry says.
fn answered(
    alloc: Global,
    looks: &mut Looks,
    core: &mut Core,
    users: &[u32],
    entry: &Entry,
) -> Result<()>
    requires { core.old.users ≡ users.now }
    ensures { core.new.users ≡ core.old.users }
{
    let may = users.contains(&entry.party) && !core.has_left(entry.party);
    if !may || is_auxiliary(entry.party) {
        bail!("{} may not act", entry.party);
    }
    if is_leave(&entry.act) {
        core.leave(entry.party);
    } else if core.waits(entry.party) {
        let retry = try_again(core, entry.party)?;
        looks.holds(is_now(retry, &entry.answer));
    } else {
        let answer = core.step(entry.party, entry.act.copy(alloc)?)?;
        looks.holds(is_equal(answer, &entry.answer));
    }
    Ok(())
}

// The next entry is made, the second time where memory was refused: then the journal was what it had been.
fn played(
    alloc: Global,
    looks: &mut Looks,
    core: &mut Core,
    users: &[u32],
    entries: &[Entry],
    place: usize,
) -> Result<()>
    requires users { core.old.users ≡ users.now }
    requires place { place < length entries.now }
    ensures { core.new.users ≡ core.old.users }
{
    let entry = &entries[place];
    if answered(alloc, looks, core, users, entry).is_err() {
        if core.journal() != &entries[..place] {
            bail!("refused memory changed the journal");
        }
        answered(alloc, looks, core, users, entry)?;
    }
    looks.holds(core.journal() == &entries[..=place]);
    Ok(())
}

// A user that waits tries again while it is still held: no entry is made.
fn held_on(looks: &mut Looks, core: &mut Core, user: u32, count: usize)
    ensures { core.new.users ≡ core.old.users }
{
    if core.waits(user) {
        looks.holds(is_held_still(try_again(core, user)));
        looks.holds(core.journal().len() == count);
    }
}

// All entries are made, one after another. It ends early where memory was refused twice, or changed the journal where it was
// refused.
fn all_played(
    alloc: Global,
    looks: &mut Looks,
    core: &mut Core,
    users: &[u32],
    entries: &[Entry],
) -> Result<()>
    requires { core.old.users ≡ users.now }
{
    for (place, entry) in entries.iter().enumerate() {
        played(alloc, looks, core, users, entries, place)?;
        held_on(looks, core, entry.party, place + 1);
    }
    Ok(())
}

impl Calls for CoreCalls {
    fn make(&self, alloc: Global, looks: &mut Looks) -> Result<()> {
        let wanted = entries(alloc)?;
        let mut core = Core::new(alloc, &USERS)?;
        let told = all_played(alloc, looks, &mut core, &USERS, wanted.as_slice());
        drop(core);
        if told.is_err() {
            looks.holds(false);
        }
        Ok(())
    }
}
