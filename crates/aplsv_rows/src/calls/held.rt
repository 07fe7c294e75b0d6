ghost use Rattle.std.specs.Prelude.{◌≡◌, IsTrue, not, false};
ghost use Rattle.apl_session.specs.Wants.{MayGoOn};
ghost use Rattle.apl_session.specs.declared.session.SessionStage.TheVariants.{Waiting};
ghost use Rattle.sv_rules.specs.Entries.{has_left, is_leave};
ghost use Rattle.sv_rules.specs.Legal.{is_user};
ghost use Rattle.aux_parties.specs.Auxiliaries.{is_auxiliary};

use crate::calls::helping::session_of;
use anyhow::Result;
use apl_io::MemoryShelf;
use apl_session::{Session, SessionStage, Wants};
use aux_parties::is_auxiliary;
use case_tables::{Calls, Looks};
use line_text::add_user_lines;
use std::alloc::Global;
use sv_core::Core;
use sv_events::{Act, Answer, Retry};
use sv_journal::add_journal;

/// Two users in turns, of whom the second is held within a function: it tries its act fifty times before its partner sets
/// the name. Each time it is still held, and the journal stays.
#[derive(Clone, Copy, Debug)]
pub struct HeldInAFunction;

// The users, and their lines.
const USERS: [u32; 2] = [FIRST, SECOND];

const FIRST: u32 = 1001;

const SECOND: u32 = 1002;

const FIRST_LINES: [&str; 3] = ["1002 ⎕SVO 'X'", "1 0 0 1 ⎕SVC 'X'", "X←5"];

const SECOND_LINES: [&str; 6] = ["1001 ⎕SVO 'X'", "∇R←G B;L", "L←B×2", "R←L+X", "∇", "G 10"];

// What is printed of it all.
const OUTPUT: &str = "user 1001
|      1002 ⎕SVO 'X'
|1
|      1 0 0 1 ⎕SVC 'X'
|1 0 0 1
|      X←5
user 1002
|      1001 ⎕SVO 'X'
|2
|      ∇R←G B;L
|[1]   L←B×2
|[2]   R←L+X
|[3]   ∇
|      G 10
|25
journal
1 1001 offer 1002 X X none : degree 1
2 1002 offer 1001 X X none : degree 2 + 1 2
3 1001 control X 1 0 0 1 : vector 1 0 0 1
4 1002 use X : held 4 partner
5 1001 set X N()5 : granted
6 1002 use X : value N()5
7 1001 leave : done
8 1002 leave : done
end
";

// How often the act is tried again.
const TRIES: usize = 50;

// A session hears an answer, and waits on where it is held.
fn hear(session: &mut Session<MemoryShelf>, answer: Answer) -> Result<()>
    requires { session.old.stage ≡ Waiting }
{
    if matches!(&answer, Answer::Held(_)) {
        drop(answer);
        return Ok(());
    }
    Ok(session.answer(answer)?)
}

// A user makes the act that its session asks, unless another waits.
fn act(core: &mut Core, session: &mut Session<MemoryShelf>, user: u32, act: Act) -> Result<()>
    requires stage { session.old.stage ≡ Waiting }
    requires stays { IsTrue (not (is_leave act)) }
    requires member { IsTrue (is_user core.old.users user) }
    requires person { is_auxiliary user ≡ false }
    requires present { IsTrue (not (has_left core.old.journal user)) }
    ensures { core.new.users ≡ core.old.users }
{
    if core.waits(user) {
        drop(act);
        return Ok(());
    }
    let answer = core.step(user, act)?;
    hear(session, answer)
}

// The answer to a user that tries the act again for which it waits, or none where it waits for none.
#[tactic(auto, using(sv_core::proofs::RetryLemmas::users_stay))]
fn retried(core: &mut Core, user: u32) -> Result<Option<Retry>>
    ensures { core.new.users ≡ core.old.users }
{
    if !core.waits(user) {
        return Ok(None);
    }
    Ok(Some(core.retry(user)?))
}

// A user tries the act again that its session waits for.
fn try_again(core: &mut Core, session: &mut Session<MemoryShelf>, user: u32) -> Result<()>
    requires { session.old.stage ≡ Waiting }
    ensures { core.new.users ≡ core.old.users }
{
    match retried(core, user)? {
        Some(Retry::Now(answer)) => hear(session, answer),
        Some(Retry::StillHeld) => Ok(()),
        None => Ok(()),
    }
}

// Whether a user that tried again is still held.
fn is_still_held(retry: Option<Retry>) -> bool {
    let is_so = matches!(&retry, Some(Retry::StillHeld));
    drop(retry);
    is_so
}

// A user makes the next act of its session, or leaves where its lines are done.
fn go_on(core: &mut Core, session: &mut Session<MemoryShelf>, user: u32) -> Result<()>
    requires stage { MayGoOn session.old.stage }
    requires member { IsTrue (is_user core.old.users user) }
    requires person { is_auxiliary user ≡ false }
    requires present { IsTrue (not (has_left core.old.journal user)) }
    ensures { core.new.users ≡ core.old.users }
{
    match session.next()? {
        Wants::Act(wanted) => act(core, session, user, wanted),
        Wants::Finished => {
            core.leave(user);
            Ok(())
        }
    }
}

// Whether a session can be asked for its next act.
fn may_go_on(stage: SessionStage) -> bool
    ensures { IsTrue result → MayGoOn stage }
{
    match stage {
        SessionStage::Ready => true,
        SessionStage::Waiting => false,
        SessionStage::Finished => true,
        SessionStage::Failed => true,
    }
}

// The turn of a user that has not left, and nothing where it has none: then the journal is not as it should be.
fn turn(core: &mut Core, session: &mut Session<MemoryShelf>) -> Result<()>
    requires { core.old.users ≡ USERS }
    ensures { core.new.users ≡ core.old.users }
{
    let user = session.user();
    if !USERS.contains(&user) || is_auxiliary(user) || core.has_left(user) {
        return Ok(());
    }
    if may_go_on(session.stage()) {
        return go_on(core, session, user);
    }
    if session.stage() != SessionStage::Waiting {
        return Ok(());
    }
    try_again(core, session, user)
}

// The text of the journal when it has so many of its entries.
fn journal_until(alloc: Global, count: usize) -> Result<String> {
    let entries = match OUTPUT.split_once("journal\n") {
        Some((_, entries)) => entries,
        None => "",
    };
    let mut text = String::from_str(alloc, "journal\n")?;
    for line in entries.lines().take(count) {
        text.push_str(line)?;
        text.push('\n')?;
    }
    text.push_str("end\n")?;
    Ok(text)
}

// Whether the journal has so many of its entries, and no others.
fn is_until(alloc: Global, core: &Core, count: usize) -> Result<bool> {
    let mut bytes = Vec::new(alloc);
    add_journal(alloc, &mut bytes, core.journal())?;
    Ok(bytes.as_slice() == journal_until(alloc, count)?.as_bytes())
}

// A user's turn adds the next entry, with which there are so many.
fn adds(
    alloc: Global,
    looks: &mut Looks,
    core: &mut Core,
    session: &mut Session<MemoryShelf>,
    count: usize,
) -> Result<()>
    requires { core.old.users ≡ USERS }
    ensures { core.new.users ≡ core.old.users }
{
    turn(core, session)?;
    looks.holds(is_until(alloc, core, count)?);
    Ok(())
}

// The user that is held tries its act again and again: it is held still, and the journal has the same entries.
fn tries_on(alloc: Global, looks: &mut Looks, core: &mut Core, user: u32) -> Result<()>
    ensures { core.new.users ≡ core.old.users }
{
    for _attempt in 0..TRIES {
        looks.holds(is_still_held(retried(core, user)?));
        looks.holds(is_until(alloc, core, 4)?);
    }
    Ok(())
}

// All turns of the two users, with those tries between the fourth entry and the fifth, behind which the session still waits.
fn take_turns(
    alloc: Global,
    looks: &mut Looks,
    core: &mut Core,
    first: &mut Session<MemoryShelf>,
    second: &mut Session<MemoryShelf>,
) -> Result<()>
    requires { core.old.users ≡ USERS }
{
    adds(alloc, looks, core, first, 1)?;
    adds(alloc, looks, core, second, 2)?;
    adds(alloc, looks, core, first, 3)?;
    adds(alloc, looks, core, second, 4)?;
    tries_on(alloc, looks, core, SECOND)?;
    looks.holds(second.stage() == SessionStage::Waiting);
    adds(alloc, looks, core, first, 5)?;
    adds(alloc, looks, core, second, 6)?;
    adds(alloc, looks, core, first, 7)?;
    adds(alloc, looks, core, second, 8)
}

// What both users saw, and the journal.
fn printed(
    alloc: Global,
    core: &Core,
    first: &Session<MemoryShelf>,
    second: &Session<MemoryShelf>,
) -> Result<Vec<u8>> {
    let mut bytes = Vec::new(alloc);
    add_user_lines(alloc, &mut bytes, FIRST, first.transcript())?;
    add_user_lines(alloc, &mut bytes, SECOND, second.transcript())?;
    add_journal(alloc, &mut bytes, core.journal())?;
    Ok(bytes)
}

// All turns, and what is printed of them.
fn is_held(
    alloc: Global,
    looks: &mut Looks,
    core: &mut Core,
    first: &mut Session<MemoryShelf>,
    second: &mut Session<MemoryShelf>,
) -> Result<()>
    requires { core.old.users ≡ USERS }
{
    take_turns(alloc, looks, core, first, second)?;
    looks.holds(printed(alloc, core, first, second)?.as_slice() == OUTPUT.as_bytes());
    Ok(())
}

// The same over a processor of its own.
fn over_core(
    alloc: Global,
    looks: &mut Looks,
    first: &mut Session<MemoryShelf>,
    second: &mut Session<MemoryShelf>,
) -> Result<()> {
    let mut core = Core::new(alloc, &USERS)?;
    let made = is_held(alloc, looks, &mut core, first, second);
    drop(core);
    made
}

// The same with a session of the second user.
fn with_second(alloc: Global, looks: &mut Looks, first: &mut Session<MemoryShelf>) -> Result<()> {
    let mut second = session_of(alloc, SECOND, &SECOND_LINES)?;
    let made = over_core(alloc, looks, first, &mut second);
    drop(second);
    made
}

impl Calls for HeldInAFunction {
    fn make(&self, alloc: Global, looks: &mut Looks) -> Result<()> {
        let mut first = session_of(alloc, FIRST, &FIRST_LINES)?;
        let made = with_second(alloc, looks, &mut first);
        drop(first);
        made
    }
}
