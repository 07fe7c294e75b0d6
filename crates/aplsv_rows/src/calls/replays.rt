ghost use Rattle.std.specs.Prelude.{◌≡◌, ◌≤◌, IfOk, length, vec_len};

use crate::calls::failing::failing_at;
use crate::calls::helping::bundle_of;
use anyhow::{Result, bail};
use apl_arrays::{Array, FileList, Line, Readings, WantOfMemory};
use apl_io::{CallNumbers, Devices, MemoryClock, MemoryShelf, MemoryText, Shelf};
use apl_session::{Ended, FinishedRun, RunOf};
use aplsv_replay::{replay, replay_with};
use auxiliaries::Replier;
use bundle_text::Bundle;
use case_tables::{Calls, Looks};
use line_text::add_line;
use std::alloc::Global;
use sv_journal::add_journal;

/// Small bundles that are run over devices in memory, what they print, and that all that was lent comes back.
#[derive(Clone, Copy, Debug)]
pub struct Replays;

// Two users share a name: one sets it, and the other uses it.
const SHARED: &str = "user 1001
|1002 ⎕SVO 'X'
|X←4
user 1002
|1001 ⎕SVO 'X'
|X
end
";

const SHARED_PRINTS: &str = "      1002 ⎕SVO 'X'
1
      X←4

      1001 ⎕SVO 'X'
2
      X
4

journal
1 1001 offer 1002 X X none : degree 1
2 1002 offer 1001 X X none : degree 2 + 1 2
3 1001 set X N()4 : granted
4 1002 use X : value N()4
5 1001 leave : done
6 1002 leave : done
end
";

// In the turns of an order the second user comes first, and is held at its use until its partner has set the name.
const HELD: &str = "user 1001
|1002 ⎕SVO 'X'
|1 0 0 1 ⎕SVC 'X'
|X←5
user 1002
|1001 ⎕SVO 'X'
|X
order 1002 1001 1001 1002 1002
end
";

const HELD_PRINTS: &str = "      1002 ⎕SVO 'X'
2
      1 0 0 1 ⎕SVC 'X'
1 0 0 1
      X←5

      1001 ⎕SVO 'X'
1
      X
5

journal
1 1002 offer 1001 X X none : degree 1
2 1001 offer 1002 X X none : degree 2 + 1 2
3 1001 control X 1 0 0 1 : vector 1 0 0 1
4 1002 use X : held 3 partner
5 1001 set X N()5 : granted
6 1002 use X : value N()5
7 1001 leave : done
8 1002 leave : done
end
";

// Each user keeps a workspace on the shelf that it was lent, of which a call fails.
const KEPT: &str = "user 1001
|)SAVE W
|)SAVE W
user 1002
|X←3
|)SAVE W
|)LOAD W
|)LOAD W
|X
end
";

const KEPT_PRINTS: &str = "      )SAVE W
LIBRARY FAULT
      )SAVE W
SAVED W

      X←3
      )SAVE W
SAVED W
      )LOAD W
LIBRARY FAULT
      )LOAD W
LOADED W
      X
3

journal
1 1001 leave : done
2 1002 leave : done
end
";

// A user asks what answers behind 10.
const ASKED: &str = "user 1001
|10 ⎕SVO 'C'
|1 1 1 1 ⎕SVC 'C'
|C←5
|C
end
";

const ASKED_PRINTS: &str = "      10 ⎕SVO 'C'
1
      1 1 1 1 ⎕SVC 'C'
1 1 1 1
      C←5
      C
42

journal
1 1001 offer 10 C C none : degree 1
2 10 offer 1001 S2 C none : degree 2 + 1 2
3 1001 control C 1 1 1 1 : vector 1 1 1 1
4 10 control S2 1 1 1 1 : vector 1 1 1 1
5 1001 set C N()5 : granted
6 10 use S2 : value N()5
7 1001 use C : held 3 both
8 10 set S2 N()42 : granted
9 1001 use C : value N()42
10 1001 leave : done
end
";

// Answers each value by the same number.
#[derive(Debug, Drop)]
struct Fixed {
    alloc: Global,
    number: i64,
}

impl Replier for Fixed {
    ghost use Rattle.std.specs.Prelude.{◌≡◌};

    ghost forgets = { λ old party new. new ≡ old };

    ghost replies = { λ old party value answer new. new ≡ old };

    ghost wants = { λ old party value new. new ≡ old };

    fn forget(&mut self, _party: u32) {}

    fn reply(&mut self, _party: u32, _value: &Array) -> Result<Array, WantOfMemory> {
        Array::scalar(self.alloc, self.number)
    }
}

// A run over devices in memory, and one with two repliers.
type Run = FinishedRun<MemoryText, MemoryClock, MemoryShelf>;

type FixedRun = RunOf<Fixed, Fixed, MemoryShelf>;

// So many shelves, of which the k-th fails at its k-th call.
fn shelves_for(alloc: Global, count: usize) -> Result<Vec<MemoryShelf>>
    ensures { IfOk result (λ shelves. vec_len shelves ≡ count) }
{
    let mut shelves = Vec::new(alloc);
    for made in 0..count {
        let fails = failing_at(alloc, made as u64 + 1)?;
        shelves.push(MemoryShelf::new(alloc, fails))?;
    }
    Ok(shelves)
}

// A bundle that is read, and a shelf for each of its users.
struct Ready {
    bundle: Bundle,
    shelves: Vec<MemoryShelf>,
}

fn made_ready(alloc: Global, bundle: Bundle) -> Result<Ready>
    ensures { IfOk result (λ ready. length ready.bundle.users ≤ vec_len ready.shelves) }
{
    match shelves_for(alloc, bundle.users().len()) {
        Ok(shelves) => Ok(Ready { bundle, shelves }),
        Err(error) => {
            drop(bundle);
            Err(error)
        }
    }
}

// A run over no text file, no reading, and these shelves.
fn run(alloc: Global, bundle: Bundle) -> Result<Run> {
    let Ready { bundle, shelves } = made_ready(alloc, bundle)?;
    let devices = Devices {
        text: MemoryText::new(alloc, FileList::new(alloc), CallNumbers::new(alloc)),
        clock: MemoryClock::new(Readings::new(alloc), CallNumbers::new(alloc)),
        shelves,
    };
    Ok(replay(alloc, bundle, devices))
}

// A run in which 10 answers 42, and 20 answers 43.
fn run_fixed(alloc: Global, bundle: Bundle) -> Result<FixedRun> {
    let Ready { bundle, shelves } = made_ready(alloc, bundle)?;
    let ten = Fixed { alloc, number: 42 };
    let twenty = Fixed { alloc, number: 43 };
    Ok(replay_with(alloc, bundle, ten, twenty, shelves))
}

fn add_lines(bytes: &mut Vec<u8>, lines: &[Line]) -> Result<()> {
    for line in lines {
        add_line(bytes, line)?;
    }
    bytes.push(b'\n')?;
    Ok(())
}

// Each user's lines with an empty line behind them, and the journal.
fn printed(alloc: Global, ended: &Ended) -> Result<Vec<u8>> {
    let Ended::Whole {
        transcripts,
        journal,
    } = ended
    else {
        bail!("memory ran out for a party");
    };
    let mut bytes = Vec::new(alloc);
    for transcript in transcripts.as_slice() {
        add_lines(&mut bytes, transcript.lines.as_slice())?;
    }
    add_journal(alloc, &mut bytes, journal.as_slice())?;
    Ok(bytes)
}

fn prints(alloc: Global, looks: &mut Looks, text: &str, wanted: &str) -> Result<()> {
    let Some(bundle) = bundle_of(alloc, text)? else {
        looks.holds(false);
        return Ok(());
    };
    let run = run(alloc, bundle)?;
    let bytes = printed(alloc, &run.ended);
    drop(run);
    looks.holds(bytes?.as_slice() == wanted.as_bytes());
    Ok(())
}

fn prints_fixed(alloc: Global, looks: &mut Looks, text: &str, wanted: &str) -> Result<()> {
    let Some(bundle) = bundle_of(alloc, text)? else {
        looks.holds(false);
        return Ok(());
    };
    let run = run_fixed(alloc, bundle)?;
    let bytes = printed(alloc, &run.ended);
    drop(run);
    looks.holds(bytes?.as_slice() == wanted.as_bytes());
    Ok(())
}

// At which of the next calls a shelf fails first, where that is one of two.
fn failing_call(shelf: &mut MemoryShelf) -> u64 {
    if shelf.names(1001).is_err() {
        return 1;
    }
    if shelf.names(1001).is_err() { 2 } else { 0 }
}

fn failing_calls(alloc: Global, shelves: &mut [MemoryShelf]) -> Result<Vec<u64>> {
    let mut calls = Vec::new(alloc);
    for shelf in shelves {
        calls.push(failing_call(shelf))?;
    }
    Ok(calls)
}

// Each user has its shelf back.
fn gives_shelves_back(alloc: Global, looks: &mut Looks) -> Result<()> {
    let Some(bundle) = bundle_of(alloc, SHARED)? else {
        looks.holds(false);
        return Ok(());
    };
    let mut run = run(alloc, bundle)?;
    let calls = failing_calls(alloc, &mut run.devices.shelves);
    drop(run);
    looks.holds(calls?.as_slice() == [1, 2].as_slice());
    Ok(())
}

impl Calls for Replays {
    fn make(&self, alloc: Global, looks: &mut Looks) -> Result<()> {
        prints(alloc, looks, SHARED, SHARED_PRINTS)?;
        prints(alloc, looks, HELD, HELD_PRINTS)?;
        prints(alloc, looks, KEPT, KEPT_PRINTS)?;
        gives_shelves_back(alloc, looks)?;
        prints_fixed(alloc, looks, ASKED, ASKED_PRINTS)?;
        prints_fixed(alloc, looks, KEPT, KEPT_PRINTS)
    }
}
