ghost use Rattle.std.specs.Prelude.{◌≡◌, ◌+◌, ◌<◌, ◌∷◌, IfOk, IsErr};
ghost use Rattle.sv_events.specs.Answer.{plain_answer};
ghost use Rattle.sv_events.specs.Entry.{PlainEntry};

use apl_arrays::WantOfMemory;
use std::alloc::Global;
use sv_events::{Act, Answer, Entry, PairList};
use sv_kept::Log;

/// An answer, for the party and for the journal.
#[derive(Debug, Drop)]
pub struct ToldAnswer {
    pub answer: Answer,
    pub kept: Answer,
}

/// An answer twice. It takes memory for the second.
pub fn told_twice(alloc: Global, answer: Answer) -> Result<ToldAnswer, WantOfMemory>
    ensures answer { IfOk result (λ told. plain_answer told.answer ≡ plain_answer answer) }
    ensures kept { IfOk result (λ told. plain_answer told.kept ≡ plain_answer answer) }
{
    match answer.copy(alloc) {
        Ok(kept) => Ok(ToldAnswer { answer, kept }),
        Err(_) => {
            drop(answer);
            Err(WantOfMemory)
        }
    }
}

/// Adds an entry, where there is room, and gives its answer to the party.
pub fn enter(log: &mut Log, party: u32, act: Act, told: ToldAnswer, made: PairList) -> Answer
    requires { 0 < log.old.room }
    ensures answer { result ≡ told.answer }
    ensures users { log.new.users ≡ log.old.users }
    ensures journal { log.new.journal ≡ record { party = party; act = act; answer = plain_answer told.kept; made = made.items } ∷ log.old.journal }
    ensures room { log.new.room + 1 ≡ log.old.room }
{
    log.push(Entry {
        party,
        act,
        answer: told.kept,
        made,
    });
    told.answer
}

pub fn no_act(_act: Act) -> Result<Answer, WantOfMemory>
    ensures { IsErr result }
{
    Err(WantOfMemory)
}
