ghost use Rattle.std.specs.Prelude.{◌≡◌};

use crate::retries::try_again;
use anyhow::{Result, bail};
use apl_arrays::{Glyph, Name};
use aux_parties::is_auxiliary;
use case_fields::zeros;
use case_tables::Trial;
use std::alloc::Global;
use sv_access::Control;
use sv_core::Core;
use sv_events::{Act, Answer, AnswerKind, AnswerRow, Retry};
use sv_plain::is_full;
use sv_rules::{ENTRY_LIMIT, is_leave};

/// Journals that are filled: by the questions of one user, by a list of 64 names, which one of 63 does not, and by values
/// while a user waits.
#[derive(Clone, Copy, Debug)]
pub struct Filled;

const USERS: [u32; 2] = [1001, 1002];

// The answer to an act of one of these users, if it may make it.
fn answered(core: &mut Core, party: u32, act: Act) -> Result<Answer>
    requires { core.old.users ≡ USERS }
    ensures { core.new.users ≡ core.old.users }
{
    let may = USERS.contains(&party) && !core.has_left(party) && !core.waits(party);
    if !may || is_auxiliary(party) || is_leave(&act) {
        drop(act);
        bail!("{party} may not act");
    }
    Ok(core.step(party, act)?)
}

// The same where the kind of the answer and its degree are enough.
fn step(core: &mut Core, party: u32, act: Act) -> Result<AnswerRow>
    requires { core.old.users ≡ USERS }
    ensures { core.new.users ≡ core.old.users }
{
    let answer = answered(core, party, act)?;
    let row = answer.row();
    drop(answer);
    Ok(row)
}

// A name of two letters.
fn numbered(number: u8) -> Result<Name> {
    let letters = [b'A' + number / 8 % 8, b'A' + number % 8];
    let glyphs = letters.map(|letter| Glyph::of_code(letter).unwrap_or(Glyph::BLANK));
    match Name::of(&glyphs) {
        None => bail!("no name"),
        Some(name) => Ok(name),
    }
}

fn offer(core: &mut Core, party: u32, name: Name) -> Result<()>
    requires { core.old.users ≡ USERS }
    ensures { core.new.users ≡ core.old.users }
{
    let act = Act::Offer {
        to: 1002,
        local: name,
        surrogate: name,
        value: None,
    };
    step(core, party, act)?;
    Ok(())
}

// A user asks for the degree of its open offer as often as a journal has places: how many questions were told it, and how
// many that the journal is full.
fn asked(core: &mut Core, name: Name) -> Result<(u64, u64)>
    requires { core.old.users ≡ USERS }
    ensures { core.new.users ≡ core.old.users }
{
    let mut degrees = 0u64;
    let mut full = 0u64;
    for _asked in 0..ENTRY_LIMIT {
        let row = step(core, 1001, Act::AskDegree(name))?;
        match (row.kind, row.degree) {
            (AnswerKind::Degree, Some(1)) => degrees = degrees.saturating_add(1),
            (AnswerKind::Full, _) => full = full.saturating_add(1),
            _ => bail!("a question is answered otherwise"),
        }
    }
    Ok((degrees, full))
}

// One user offers a name, asks for its degree until the journal is full, and leaves: how many questions were told the
// degree, how many that the journal is full, and how many entries there are, of which the last is the leave.
fn questions(alloc: Global, core: &mut Core) -> Result<String>
    requires { core.old.users ≡ USERS }
{
    let name = numbered(0)?;
    offer(core, 1001, name)?;
    let (degrees, full) = asked(core, name)?;
    if !core.has_left(1001) {
        core.leave(1001);
    }
    let entries = core.journal();
    match entries.last() {
        Some(last) if is_leave(&last.act) => {
            Ok(format!(in alloc; "{degrees} {full} {}", entries.len())?)
        }
        _ => bail!("the last entry is no leave"),
    }
}

// A user sets a name to 16,384 zeros, so many times.
fn set_often(alloc: Global, core: &mut Core, party: u32, name: Name, times: u32) -> Result<()>
    requires { core.old.users ≡ USERS }
    ensures { core.new.users ≡ core.old.users }
{
    for _set in 0..times {
        step(core, party, Act::Set(name, zeros(alloc, 16_384)?))?;
    }
    Ok(())
}

// One user offers so many names and sets one until 512 elements are left, which are the weight of 64 names: what another
// user is told that asks for them twice.
fn names(alloc: Global, core: &mut Core, count: u8) -> Result<String>
    requires { core.old.users ≡ USERS }
{
    for number in 0..count {
        offer(core, 1001, numbered(number)?)?;
    }
    let name = numbered(0)?;
    set_often(alloc, core, 1001, name, 255)?;
    step(core, 1001, Act::Set(name, zeros(alloc, 15_872)?))?;
    let first = told(alloc, core)?;
    let next = told(alloc, core)?;
    Ok(format!(in alloc; "{first} {next}")?)
}

// What the other user is told that asks for the names.
fn told(alloc: Global, core: &mut Core) -> Result<String>
    requires { core.old.users ≡ USERS }
    ensures { core.new.users ≡ core.old.users }
{
    let answer = answered(core, 1002, Act::AskNames(1001))?;
    let told = count_told(alloc, &answer);
    drop(answer);
    told
}

// How many names an answer tells, or that the journal is full.
fn count_told(alloc: Global, answer: &Answer) -> Result<String> {
    match answer {
        Answer::Names(names) => Ok(format!(in alloc; "{}", names.as_slice().len())?),
        Answer::Full => Ok(String::from_str(alloc, "Full")?),
        _ => bail!("a question is answered otherwise"),
    }
}

// One user waits to set a name that it offered once more, while another fills the journal: what it is told that tries
// again before and after.
fn retries(alloc: Global, core: &mut Core) -> Result<String>
    requires { core.old.users ≡ USERS }
{
    let (held, other) = (numbered(0)?, numbered(1)?);
    offer(core, 1001, held)?;
    offer(core, 1002, other)?;
    let control = Control([true, false, false, false]);
    step(core, 1001, Act::SetControl(held, control))?;
    step(core, 1001, Act::Set(held, zeros(alloc, 1)?))?;
    step(core, 1001, Act::Set(held, zeros(alloc, 1)?))?;
    let first = retried(core)?;
    set_often(alloc, core, 1002, other, 256)?;
    let next = retried(core)?;
    Ok(format!(in alloc; "{first} {next}")?)
}

// What the user that waits is told that tries again, where the plain rules agree on whether the journal is full.
fn retried(core: &mut Core) -> Result<&'static str>
    requires { core.old.users ≡ USERS }
    ensures { core.new.users ≡ core.old.users }
{
    if !core.waits(1001) {
        bail!("nobody waits");
    }
    let full = is_full(core.journal());
    let retry = try_again(core, 1001)?;
    let text = retry_text(&retry, full);
    drop(retry);
    Ok(text)
}

fn retry_text(retry: &Retry, full: bool) -> &'static str {
    match retry {
        Retry::StillHeld if !full => "StillHeld",
        Retry::Now(Answer::Full) if full => "Full",
        _ => "otherwise",
    }
}

// A journal is filled as the fields say: what comes of it.
fn outcome(alloc: Global, core: &mut Core, fields: &[&str]) -> Result<String>
    requires { core.old.users ≡ USERS }
{
    match fields {
        ["questions", ..] => questions(alloc, core),
        ["64 names", ..] => names(alloc, core, 64),
        ["63 names", ..] => names(alloc, core, 63),
        ["retries", ..] => retries(alloc, core),
        _ => bail!("nothing fills a journal so"),
    }
}

impl Trial for Filled {
    fn given(&self) -> usize {
        1
    }

    fn found(&self, alloc: Global, fields: &[&str]) -> Result<String> {
        let mut core = Core::new(alloc, &USERS)?;
        let found = outcome(alloc, &mut core, fields);
        drop(core);
        found
    }
}
