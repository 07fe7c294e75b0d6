ghost use Rattle.std.specs.Prelude.{◌≡◌, ◌+◌, ◌<◌, ◌++◌, IsTrue, IsSome, Some, length, take};
ghost use Rattle.std.specs.List.{list_all};
ghost use Rattle.line_text.specs.Spaced.{is_plain};
ghost use Rattle.sv_events.specs.Work.{act_of, counter_name, lone_act, replied_name};

use crate::event::Act;
use apl_arrays::{Array, Glyph, Name};
use itoa::Buffer;
use sv_access::Control;

/// What an auxiliary has to do.
#[derive(Clone, Copy, Debug, PartialEq, Eq)]
pub enum Work {
    /// Nothing.
    Idle,
    /// The offer of a local name is to be taken back.
    Retract(Name),
    /// The control of a local name is to be set.
    Control(Name),
    /// The value that it used of a local name is to be answered by another.
    Reply(Name),
    /// An offer made to it is to be answered by an offer to its party, under its surrogate.
    Counter { to: u32, surrogate: Name },
    /// The value of a local name is to be used.
    Use(Name),
}

/// Each access by either side is controlled.
const ALL_CONTROLLED: Control = Control([true, true, true, true]);

// Most glyphs of the local name of a counter-offer: a letter and the digits of a number of 64 bits.
const COUNTER_NAME_LIMIT: usize = 21;

/// The act of some work, whose entry has this place, with the reply where the work is one.
pub fn act_of(work: Work, place: u64, reply: Option<Array>) -> Act
    requires { IsSome (act_of work place reply) }
    ensures { act_of work place reply ≡ Some result }
{
    match reply {
        None => lone_act(work, place),
        Some(reply) => Act::Set(replied_name(work), reply),
    }
}

// The act of some work that is no reply, whose entry has this place.
fn lone_act(work: Work, place: u64) -> Act
    requires { IsSome (lone_act work place) }
    ensures { lone_act work place ≡ Some result }
{
    match work {
        Work::Retract(local) => Act::Retract(local),
        Work::Control(local) => Act::SetControl(local, ALL_CONTROLLED),
        Work::Counter { to, surrogate } => Act::Offer {
            to,
            local: counter_name(place),
            surrogate,
            value: None,
        },
        Work::Use(local) => Act::Use(local),
        Work::Idle | Work::Reply(_) => unreachable!(),
    }
}

// The local name whose value is to be answered.
fn replied_name(work: Work) -> Name
    requires { IsSome (replied_name work) }
    ensures { replied_name work ≡ Some result }
{
    match work {
        Work::Reply(local) => local,
        _ => unreachable!(),
    }
}

// The local name of a counter-offer: S and the place of its entry.
fn counter_name(place: u64) -> Name
    ensures { result ≡ counter_name place }
{
    let mut buffer = Buffer::new();
    let digits = buffer.format(place);
    let mut glyphs = [Glyph::with_code(b'S'); COUNTER_NAME_LIMIT];
    write_digits(&mut glyphs, digits);
    Name::of(&glyphs[..digits.len() + 1]).unwrap()
}

// Writes digits behind the first glyph.
#[tactic(auto, using(crate::proofs::CounterName::digit_behind))]
fn write_digits(glyphs: &mut [Glyph], digits: &str)
    requires digits { IsTrue (list_all is_plain digits.now) }
    requires room { length digits.now < length glyphs.old }
    ensures { take (length digits.now + 1) glyphs.new ≡ take 1 glyphs.old ++ digits.now }
{
    for (at, digit) in digits.as_bytes().iter().enumerate() {
        glyphs[at + 1] = Glyph::with_code(*digit);
    }
}
