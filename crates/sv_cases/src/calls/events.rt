use crate::calls::samples::{is_equal, letter, number, pairs};
use anyhow::Result;
use apl_arrays::{Array, List, Name, PartyList};
use case_tables::{Calls, Looks};
use std::alloc::{AllocError, Global};
use sv_access::{Control, Owners};
use sv_events::{Act, Answer, Entry, Hold, Journal, Pair, PairList, copy_value, fits};

/// Acts and answers of every kind, which are copied and compared, alone and in entries, pairs and journals.
#[derive(Clone, Copy, Debug)]
pub struct EventCalls;

const SET_BY_ME: Control = Control([true, false, false, false]);

const USE_BY_ME: Control = Control([false, false, true, false]);

// An offer of one name under another, with a number as its value.
fn offer(local: Name, surrogate: Name, to: u32, value: Option<i64>) -> Act {
    Act::Offer {
        to,
        local,
        surrogate,
        value: number(value),
    }
}

fn hold(element: u8, owners: Owners) -> Hold {
    Hold { element, owners }
}

fn kept(degree: u8, value: Option<i64>) -> Answer {
    Answer::Kept {
        degree,
        value: number(value),
    }
}

// Acts of every kind on these names, each unlike the others.
fn acts_on(alloc: Global, a: Name, b: Name, x: Name) -> Result<Vec<Act>, AllocError> {
    Ok(vec![in alloc;
        offer(a, x, 1002, None),
        offer(a, x, 1003, None),
        offer(a, x, 1002, Some(3)),
        Act::Set(a, Array::of_number(3)),
        Act::Set(a, Array::of_number(4)),
        Act::Set(b, Array::of_number(3)),
        Act::Use(a),
        Act::Use(b),
        Act::Retract(a),
        Act::SetControl(a, SET_BY_ME),
        Act::SetControl(a, USE_BY_ME),
        Act::AskControl(a),
        Act::AskState(a),
        Act::AskDegree(a),
        Act::AskParties,
        Act::AskNames(1002),
        Act::AskNames(1003),
        Act::Leave,
    ]?)
}

fn acts(alloc: Global) -> Result<Vec<Act>> {
    let (a, b, x) = (letter(b'A')?, letter(b'B')?, letter(b'X')?);
    Ok(acts_on(alloc, a, b, x)?)
}

// Answers of every kind, with these parties too, each unlike the others. The last two are out of range.
fn answers_with(alloc: Global, parties: PartyList) -> Result<Vec<Answer>, AllocError> {
    Ok(vec![in alloc;
        Answer::Degree(1),
        Answer::Degree(2),
        Answer::Granted,
        Answer::Value(Array::of_number(3)),
        Answer::Value(Array::of_number(4)),
        Answer::NoValue,
        Answer::Held(hold(1, Owners::Mine)),
        Answer::Held(hold(2, Owners::Mine)),
        Answer::Held(hold(1, Owners::Both)),
        Answer::Abandoned(hold(1, Owners::Mine)),
        Answer::NotShared,
        Answer::OfferLimit,
        Answer::Vector(SET_BY_ME),
        Answer::Vector(USE_BY_ME),
        Answer::Parties(PartyList::new(alloc)),
        Answer::Parties(parties),
        Answer::Names(List::new(alloc)),
        kept(1, None),
        kept(2, None),
        kept(2, Some(3)),
        Answer::Full,
        Answer::Done,
        Answer::Degree(3),
        Answer::Held(hold(0, Owners::Mine)),
    ]?)
}

fn answers(alloc: Global) -> Result<Vec<Answer>> {
    let parties = PartyList::of(alloc, &[1002])?;
    Ok(answers_with(alloc, parties)?)
}

// A copy equals the one at its place alone. It is let go.
fn equals_one<T: PartialEq + Drop>(looks: &mut Looks, copy: T, all: &[T], at: usize) {
    for (place, other) in all.iter().enumerate() {
        looks.holds((copy == *other) == (at == place));
    }
    drop(copy);
}

// A copy of each act equals that act alone.
fn acts_are_copied(alloc: Global, looks: &mut Looks) -> Result<()> {
    let acts = acts(alloc)?;
    for (at, act) in acts.iter().enumerate() {
        equals_one(looks, act.copy(alloc)?, &acts, at);
    }
    Ok(())
}

// A copy of each answer equals that answer alone.
fn answers_are_copied(alloc: Global, looks: &mut Looks) -> Result<()> {
    let answers = answers(alloc)?;
    for (at, answer) in answers.iter().enumerate() {
        equals_one(looks, answer.copy(alloc)?, &answers, at);
    }
    Ok(())
}

// Which of these answers fit each of these acts.
const FITTED: [&str; 18] = [
    "##.........#........#...",
    "##.........#........#...",
    "##.........#........#...",
    "..#...#####.........#...",
    "..#...#####.........#...",
    "..#...#####.........#...",
    "...########.........#...",
    "...########.........#...",
    "..........#......####...",
    "..........#.##......#...",
    "..........#.##......#...",
    "............##......#...",
    "............##......#...",
    "##..................#...",
    "..............##....#...",
    "................#...#...",
    "................#...#...",
    ".....................#..",
];

fn is_fitted(row: usize, column: usize) -> bool {
    match FITTED.get(row) {
        None => false,
        Some(row) => row.as_bytes().get(column) == Some(&b'#'),
    }
}

fn answers_fit(alloc: Global, looks: &mut Looks) -> Result<()> {
    let acts = acts(alloc)?;
    let answers = answers(alloc)?;
    for (row, act) in acts.iter().enumerate() {
        for (column, answer) in answers.iter().enumerate() {
            looks.holds(fits(act, answer) == is_fitted(row, column));
        }
    }
    Ok(())
}

// Whether a copy of a value, or of none, equals it.
fn is_copied(alloc: Global, value: Option<&Array>) -> Result<bool> {
    let copy = copy_value(alloc, value)?;
    let is_so = copy.as_ref() == value;
    drop(copy);
    Ok(is_so)
}

fn values_are_copied(alloc: Global, looks: &mut Looks) -> Result<()> {
    let three = Array::of_number(3);
    let is_so = is_copied(alloc, Some(&three));
    drop(three);
    looks.holds(is_so?);
    looks.holds(is_copied(alloc, None)?);
    Ok(())
}

// Whether pairs are the one of the first place and this alone.
fn is_only_pair(alloc: Global, made: &PairList, last: u64) -> Result<bool> {
    Ok(is_equal(pairs(alloc, &[(1, last)])?, made))
}

// The pairs of the first two places and of the next two, in this order.
fn are_two(looks: &mut Looks, made: PairList) {
    let wanted = [Pair { a: 1, b: 2 }, Pair { a: 3, b: 4 }];
    looks.holds(made.as_slice() == wanted.as_slice());
    let items = made.into_vec();
    looks.holds(items.as_slice() == wanted.as_slice());
}

fn pairs_are_kept(alloc: Global, looks: &mut Looks) -> Result<()> {
    let mut made = pairs(alloc, &[(1, 2)])?;
    looks.holds(is_only_pair(alloc, &made, 2)?);
    looks.holds(!is_only_pair(alloc, &made, 3)?);
    made.reserve(1)?;
    looks.holds(is_only_pair(alloc, &made, 2)?);
    made.push(Pair { a: 3, b: 4 })?;
    looks.holds(!is_only_pair(alloc, &made, 2)?);
    are_two(looks, made);
    Ok(())
}

fn entry(alloc: Global, party: u32, degree: u8, last: u64) -> Result<Entry> {
    let made = pairs(alloc, &[(1, last)])?;
    let act = offer(letter(b'A')?, letter(b'X')?, 1002, Some(3));
    Ok(Entry {
        party,
        act,
        answer: Answer::Degree(degree),
        made,
    })
}

// An entry that differs from another in its act alone.
fn leave(alloc: Global, party: u32, degree: u8, last: u64) -> Result<Entry> {
    let made = pairs(alloc, &[(1, last)])?;
    Ok(Entry {
        party,
        act: Act::Leave,
        answer: Answer::Degree(degree),
        made,
    })
}

// An entry equals the one with equal parts alone.
fn equals_its_like(alloc: Global, looks: &mut Looks, first: &Entry) -> Result<()> {
    looks.holds(is_equal(entry(alloc, 1001, 1, 2)?, first));
    looks.holds(!is_equal(entry(alloc, 1003, 1, 2)?, first));
    looks.holds(!is_equal(entry(alloc, 1001, 2, 2)?, first));
    looks.holds(!is_equal(entry(alloc, 1001, 1, 3)?, first));
    looks.holds(!is_equal(leave(alloc, 1001, 1, 2)?, first));
    Ok(())
}

fn entries_are_compared(alloc: Global, looks: &mut Looks) -> Result<()> {
    let first = entry(alloc, 1001, 1, 2)?;
    let told = equals_its_like(alloc, looks, &first);
    drop(first);
    told
}

// Whether an entry is there, and the one with this degree.
fn is_entry(alloc: Global, found: Option<&Entry>, degree: u8) -> Result<bool> {
    match found {
        None => Ok(false),
        Some(found) => Ok(is_equal(entry(alloc, 1001, degree, 2)?, found)),
    }
}

// A journal gives the entries back in the order in which they came.
fn entries_are_kept(alloc: Global, looks: &mut Looks) -> Result<()> {
    let mut journal = Journal::new(alloc);
    looks.holds(journal.as_slice().is_empty());
    for degree in 1..4 {
        journal.push(entry(alloc, 1001, degree, 2)?)?;
    }
    journal.reserve(5)?;
    for (kept, degree) in journal.as_slice().iter().zip(1..4) {
        looks.holds(is_entry(alloc, Some(kept), degree)?);
    }
    let entries = journal.into_vec();
    looks.holds(entries.len() == 3);
    looks.holds(is_entry(alloc, entries.first(), 1)?);
    looks.holds(is_entry(alloc, entries.get(2), 3)?);
    Ok(())
}

// A reserved place takes an entry with no more memory.
fn place_is_reserved(alloc: Global, looks: &mut Looks) -> Result<()> {
    let mut journal = Journal::new(alloc);
    journal.reserve(1)?;
    let mut made = List::new(alloc);
    made.reserve(1)?;
    journal.push_reserved(entry(alloc, 1001, 1, 2)?);
    made.push_reserved(Pair { a: 1, b: 2 });
    looks.holds(journal.as_slice().len() == 1);
    looks.holds(made.as_slice().len() == 1);
    Ok(())
}

impl Calls for EventCalls {
    fn make(&self, alloc: Global, looks: &mut Looks) -> Result<()> {
        acts_are_copied(alloc, looks)?;
        answers_are_copied(alloc, looks)?;
        answers_fit(alloc, looks)?;
        values_are_copied(alloc, looks)?;
        pairs_are_kept(alloc, looks)?;
        entries_are_compared(alloc, looks)?;
        entries_are_kept(alloc, looks)?;
        place_is_reserved(alloc, looks)
    }
}
