ghost use Rattle.std.specs.Prelude.{◌≡◌, ◌∷◌, [], ◌++◌, IfOk, OnOk};
ghost use Rattle.apl_arrays.specs.Ascending.{AscendBy};
ghost use Rattle.apl_session.specs.Wants.{MayGoOn};

use crate::calls::helping::session_of;
use anyhow::Result;
use apl_arrays::{Array, LineList};
use apl_io::{MemoryShelf, Shelf};
use apl_session::{Session, Transcript, Transcripts, Wants};
use case_tables::{Calls, Looks};
use line_text::add_line;
use std::alloc::Global;
use sv_events::Answer;

/// Sessions that are given answers which no bundle of today comes to, and lists that find no memory.
#[derive(Clone, Copy, Debug)]
pub struct Sessions;

// The lines of the user.
const LINES: [&str; 4] = ["1002 ⎕SVO 'X'", "X←3", "X", "X"];

// An offer that is not taken leaves the name to its workspace.
const NOT_TAKEN: &str = "      1002 ⎕SVO 'X'
SV FULL
      1002 ⎕SVO 'X'
      X←3
      X
3
      X
3
";

// So does an offer past the limit.
const PAST_THE_LIMIT: &str = "      1002 ⎕SVO 'X'
SV LIMIT
      1002 ⎕SVO 'X'
      X←3
      X
3
      X
3
";

// A set and two uses that are not taken print no value.
const FULL_FROM_THE_SET_ON: &str = "      1002 ⎕SVO 'X'
1
      X←3
SV FULL
      X←3
      X
SV FULL
      X
      X
SV FULL
      X
";

// A use gives the value of its answer, or reports that there is none.
const USED: &str = "      1002 ⎕SVO 'X'
2
      X←3
      X
7
      X
VALUE ERROR
      X
";

// The answers that a session is given.
#[derive(Clone, Copy, Debug)]
enum Told {
    NotTaken,
    PastTheLimit,
    FullFromTheSetOn,
    Used,
}

// Gives the answer to the next act, if there is one.
fn give(session: &mut Session<MemoryShelf>, answer: Answer) -> Result<()>
    requires { MayGoOn session.old.stage }
    ensures { IfOk result (λ done. MayGoOn session.new.stage) }
{
    match session.next() {
        Ok(Wants::Act(act)) => {
            drop(act);
            Ok(session.answer(answer)?)
        }
        Ok(Wants::Finished) => {
            drop(answer);
            Ok(())
        }
        Err(refused) => {
            drop(answer);
            Err(refused.into())
        }
    }
}

// Answers Full to the set and to both uses.
fn give_full(session: &mut Session<MemoryShelf>) -> Result<()>
    requires { MayGoOn session.old.stage }
    ensures { IfOk result (λ done. MayGoOn session.new.stage) }
{
    give(session, Answer::Full)?;
    give(session, Answer::Full)?;
    give(session, Answer::Full)
}

// Gives these answers, one after another.
fn give_all(alloc: Global, session: &mut Session<MemoryShelf>, told: Told) -> Result<()>
    requires { MayGoOn session.old.stage }
    ensures { IfOk result (λ done. MayGoOn session.new.stage) }
{
    match told {
        Told::NotTaken => give(session, Answer::Full),
        Told::PastTheLimit => give(session, Answer::OfferLimit),
        Told::FullFromTheSetOn => {
            give(session, Answer::Degree(1))?;
            give_full(session)
        }
        Told::Used => {
            give(session, Answer::Degree(2))?;
            give(session, Answer::Granted)?;
            give(session, Answer::Value(Array::scalar(alloc, 7)?))?;
            give(session, Answer::NoValue)
        }
    }
}

// What a session has printed that asks nothing more; nothing where it still asks.
fn printed(alloc: Global, session: &mut Session<MemoryShelf>) -> Result<Vec<u8>>
    requires { MayGoOn session.old.stage }
{
    let mut bytes = Vec::new(alloc);
    match session.next()? {
        Wants::Act(act) => drop(act),
        Wants::Finished => {
            for line in session.transcript() {
                add_line(&mut bytes, line)?;
            }
        }
    }
    Ok(bytes)
}

// What a session prints that is given these answers.
fn walked(alloc: Global, session: &mut Session<MemoryShelf>, told: Told) -> Result<Vec<u8>>
    requires { MayGoOn session.old.stage }
{
    give_all(alloc, session, told)?;
    printed(alloc, session)
}

// A session of its own prints this that is given these answers.
fn prints(alloc: Global, looks: &mut Looks, told: Told, wanted: &str) -> Result<()> {
    let mut session = session_of(alloc, 1001, &LINES)?;
    let bytes = walked(alloc, &mut session, told);
    drop(session);
    looks.holds(bytes?.as_slice() == wanted.as_bytes());
    Ok(())
}

// A receipt is kept of each answer.
fn keeps_receipts(alloc: Global, looks: &mut Looks) -> Result<()> {
    let mut session = session_of(alloc, 1001, &LINES)?;
    let given = give_all(alloc, &mut session, Told::Used);
    let count = session.receipts().len();
    drop(session);
    given?;
    looks.holds(count == 4);
    Ok(())
}

// The shelf comes back.
fn gives_shelf_back(alloc: Global, looks: &mut Looks) -> Result<()> {
    let mut parts = session_of(alloc, 1001, &LINES)?.into_parts();
    looks.holds(parts.shelf.names(1001).is_ok());
    looks.holds(parts.shelf.names(1001).is_err());
    drop(parts);
    Ok(())
}

// The users whose transcripts are there, in their order.
fn are_of(transcripts: &Transcripts, users: &[u32]) -> bool {
    let found = transcripts.as_slice().iter();
    found
        .map(|transcript| transcript.user)
        .eq(users.iter().copied())
}

fn empty_transcript(alloc: Global, user: u32) -> Transcript
    ensures user { result.user ≡ user }
    ensures lines { result.lines.items ≡ [] }
{
    Transcript {
        user,
        lines: LineList::new(alloc),
    }
}

// Adds a user's transcript, once more where it finds no room, which leaves those that were there.
fn adds(
    alloc: Global,
    looks: &mut Looks,
    transcripts: &mut Transcripts,
    user: u32,
    before: &[u32],
) -> Result<()>
    requires { AscendBy (λ transcript. transcript.user) (transcripts.old.items ++ (record { user = user; lines = [] }) ∷ []) }
    ensures { OnOk result (transcripts.new.items ≡ transcripts.old.items ++ (record { user = user; lines = [] }) ∷ []) }
{
    match transcripts.push(empty_transcript(alloc, user)) {
        Ok(()) => {
            looks.holds(true);
            Ok(())
        }
        Err(_) => {
            looks.holds(are_of(transcripts, before));
            Ok(transcripts.push(empty_transcript(alloc, user))?)
        }
    }
}

// A transcript that finds no room is not kept, and the others stay.
fn transcripts_stay(alloc: Global, looks: &mut Looks) -> Result<()> {
    let mut transcripts = Transcripts::new(alloc);
    adds(alloc, looks, &mut transcripts, 1001, &[])?;
    looks.holds(are_of(&transcripts, &[1001]));
    adds(alloc, looks, &mut transcripts, 1999, &[1001])?;
    looks.holds(are_of(&transcripts, &[1001, 1999]));
    Ok(())
}

impl Calls for Sessions {
    fn make(&self, alloc: Global, looks: &mut Looks) -> Result<()> {
        prints(alloc, looks, Told::NotTaken, NOT_TAKEN)?;
        prints(alloc, looks, Told::PastTheLimit, PAST_THE_LIMIT)?;
        prints(alloc, looks, Told::FullFromTheSetOn, FULL_FROM_THE_SET_ON)?;
        prints(alloc, looks, Told::Used, USED)?;
        keeps_receipts(alloc, looks)?;
        gives_shelf_back(alloc, looks)?;
        transcripts_stay(alloc, looks)
    }
}
