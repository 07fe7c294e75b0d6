ghost use Rattle.std.specs.Prelude.{◌≡◌, ◌≤◌, ◌∷◌, [], IfOk, OnErr, length};
ghost use Rattle.apl_arrays.specs.Array.{number_array};
ghost use Rattle.apl_arrays.specs.Limits.{most_elements};
ghost use Rattle.auxiliaries.specs.Protocol.{no_line, line_answer};
ghost use Rattle.aux_relay.specs.Changes.{DoesRequest, Sends, TakesText, TellsSenders};
ghost use Rattle.aux_relay.specs.Request.{request_of};
ghost use Rattle.aux_relay.specs.Queues.{AreUntaken, Relays};

use crate::queues::{Queues, drop_text, first_text, give, senders};
use crate::request::{Request, request_of};
use apl_arrays::{Array, Glyph, Items, Line, List, NumberList, WantOfMemory};
use auxiliaries::Replier;
use std::alloc::Global;
use std::marker::Model;

/// The most texts that are held at a time.
const TEXT_LIMIT: usize = 10_000;

/// The answer where a text was taken over.
const DONE: i64 = 0;

/// The answer to what is no request.
const REFUSED: i64 = 2;

/// The answer where no more texts are held.
const FULL: i64 = 4;

/// A relay of texts: what one user sends to another waits in a queue until that one takes it. It is seen as its queues.
#[derive(Debug, Drop)]
pub struct Relay {
    alloc: Global,
    queues: Queues,
    held: usize,
}

impl Model for Relay {
    ghost use Rattle.aux_relay.specs.Queues.{AreKept, Queues};

    ghost Value = { Queues };

    ghost view = { λ relay. relay.queues.entries };

    ghost invariant = { λ relay. AreKept relay.held relay.queues.entries };
}

impl Relay {
    /// A relay that holds no texts.
    pub fn new(alloc: Global) -> Self
        ensures empty { result ≡ [] }
        ensures nothing_yet { AreUntaken result [] }
    {
        Relay {
            alloc,
            queues: Queues::new(alloc),
            held: 0,
        }
    }

    /// The answer to a party's value, which is a request where it is a character vector. `SEND M text` is answered 0, and
    /// the text goes last in the queue from the party to the user M, or 4 where 10,000 texts are held. `TAKE M` is answered
    /// with the first text from M to the party, which leaves its queue, or with the empty numeric vector where there is
    /// none. `WAITING` is answered with the parties that have a text for the party, ascending, and any other value with 2.
    /// It takes memory for the answer and for a text that is sent; `WantOfMemory` leaves all as it was.
    pub fn reply(&mut self, party: u32, value: &Array) -> Result<Array, WantOfMemory>
        ensures ok { IfOk result (λ answer. Relays self.old party value.now answer self.new) }
        ensures err { OnErr result (self.new ≡ self.old) }
    {
        self.act(party, value)
    }

    // What a party's value does.
    fn act(&mut self, party: u32, value: &Array) -> Result<Array, WantOfMemory>
        ensures ok { IfOk result (λ answer. DoesRequest (request_of value.now) party self.old answer self.new) }
        ensures err { OnErr result (self.new ≡ self.old) }
    {
        match request_of(value) {
            Request::Send(to, text) => self.send(party, to, text),
            Request::Take(from) => self.take(from, party),
            Request::Waiting => self.tell(party),
            Request::Other => Ok(Array::of_number(REFUSED)),
        }
    }

    // A text goes last in its queue, unless as many are held as may be.
    fn send(&mut self, from: u32, to: u32, text: &[Glyph]) -> Result<Array, WantOfMemory>
        requires { length text.now ≤ most_elements }
        ensures ok { IfOk result (λ answer. Sends self.old (to, from) text.now answer self.new) }
        ensures err { OnErr result (self.new ≡ self.old) }
    {
        if self.held == TEXT_LIMIT {
            return Ok(Array::of_number(FULL));
        }
        let text = Line::of(self.alloc, text)?;
        give(self.alloc, &mut self.queues, (u64::from(to), from), text)?;
        self.held += 1;
        Ok(Array::of_number(DONE))
    }

    // The first text of a queue, which leaves it.
    fn take(&mut self, from: u32, to: u32) -> Result<Array, WantOfMemory>
        ensures ok { IfOk result (λ answer. TakesText self.old (to, from) answer self.new) }
        ensures err { OnErr result (self.new ≡ self.old) }
    {
        let key = (u64::from(to), from);
        let Some(text) = first_text(&self.queues, key) else {
            return no_text(self.alloc);
        };
        let answer = text_answer(self.alloc, text)?;
        drop_text(&mut self.queues, key);
        self.held -= 1;
        Ok(answer)
    }

    // The parties with a text for a party.
    fn tell(&mut self, to: u32) -> Result<Array, WantOfMemory>
        ensures ok { IfOk result (λ answer. TellsSenders self.old to answer self.new) }
        ensures err { OnErr result (self.new ≡ self.old) }
    {
        let parties = senders(self.alloc, &self.queues, to)?;
        parties_answer(self.alloc, parties)
    }
}

// A text as an answer. It takes memory for it.
fn text_answer(alloc: Global, text: &Line) -> Result<Array, WantOfMemory>
    requires { length text.now.items ≤ most_elements }
    ensures { IfOk result (λ answer. answer ≡ line_answer text.now.items) }
{
    let length = text.as_slice().len() as u32;
    Array::shaped(alloc, &[length], Items::Chars(text.copy(alloc)?))
}

// Numbers of parties as an answer. It takes memory.
fn parties_answer(alloc: Global, parties: List<i64>) -> Result<Array, WantOfMemory>
    requires { length parties.items ≤ most_elements }
    ensures { IfOk result (λ answer. answer ≡ number_array (length parties.items ∷ []) parties.items) }
{
    let count = parties.as_slice().len() as u32;
    let numbers = NumberList::from(parties);
    Array::shaped(alloc, &[count], Items::Numbers(numbers))
}

// The answer where there is no text: the empty numeric vector. It takes memory.
fn no_text(alloc: Global) -> Result<Array, WantOfMemory>
    ensures { IfOk result (λ answer. answer ≡ no_line) }
{
    let none = NumberList::from(List::new(alloc));
    Array::shaped(alloc, &[0], Items::Numbers(none))
}

impl Replier for Relay {
    ghost forgets = { λ old party new. new ≡ old };

    ghost replies = { λ old party value answer new. Relays old party value answer new };

    ghost wants = { λ old party value new. new ≡ old };

    fn forget(&mut self, _party: u32) {}

    fn reply(&mut self, party: u32, value: &Array) -> Result<Array, WantOfMemory> {
        Relay::reply(self, party, value)
    }
}
