ghost use Rattle.std.specs.Prelude.{◌≡◌, ◌+◌, ◌<◌, ◌≤◌, ◌∷◌, [], ◌++◌, None, IfOk, OnOk, OnErr, map, nat_lt, length};
ghost use Rattle.std.specs.Option.{option_copied, option_map};
ghost use Rattle.std.specs.List.Sorted.{IsStrictlySortedBy};
ghost use Rattle.std.specs.Map.{keys_of, lookup};
ghost use Rattle.apl_arrays.specs.List.{first_of, glyphs_in, others_of};
ghost use Rattle.aux_relay.specs.Changes.{AddsLast, Drops, KeepTexts, queue_order, senders_in};
ghost use Rattle.aux_relay.specs.Queues.{queue_at, same_queue};

use apl_arrays::{Line, List, WantOfMemory};
use std::alloc::Global;
use std::collections::{BTreeMap, VecDeque};
use std::marker::Model;

/// Texts in the order in which they came, seen as their list.
#[derive(Debug, Drop)]
pub(crate) struct TextQueue {
    lines: VecDeque<Line>,
}

impl Model for TextQueue {
    ghost use Rattle.std.specs.Prelude.{ℕ, List, map};
    ghost use Rattle.apl_arrays.specs.List.{glyphs_in};

    ghost Value = { List (List ℕ) };

    ghost view = { λ queue. map glyphs_in queue.lines.items };
}

impl TextQueue {
    /// No texts.
    fn new(alloc: Global) -> Self
        ensures { result ≡ [] }
    {
        TextQueue {
            lines: VecDeque::new(alloc),
        }
    }

    /// A text goes last. It takes memory for its place; `WantOfMemory` leaves the texts as they were.
    fn push(&mut self, text: Line) -> Result<(), WantOfMemory>
        ensures ok { OnOk result (self.new ≡ self.old ++ text.items ∷ []) }
        ensures err { OnErr result (self.new ≡ self.old) }
    {
        self.lines.push_back(text)?;
        Ok(())
    }

    /// The first text, where there is one.
    fn front(&self) -> Option<&Line>
        ensures { option_map glyphs_in (option_copied result) ≡ first_of self.now }
    {
        self.lines.front()
    }

    /// Whether there is a text.
    fn has_text(&self) -> bool
        ensures { result ≡ nat_lt 0 (length self.now) }
    {
        self.lines.front().is_some()
    }

    /// The first text goes, where there is one.
    fn pop(&mut self)
        ensures { self.new ≡ others_of self.old }
    {
        self.lines.pop_front();
    }
}

/// Queues by the party that they are for and the party that they are of.
pub(crate) type Queues = BTreeMap<(u64, u32), TextQueue>;

/// A text goes last in a queue. It takes memory; `WantOfMemory` leaves all as it was.
pub(crate) fn give(
    alloc: Global,
    queues: &mut Queues,
    key: (u64, u32),
    text: Line,
) -> Result<(), WantOfMemory>
    ensures ok { OnOk result (AddsLast queues.old.entries key text.items queues.new.entries) }
    ensures err { OnErr result (queues.new.entries ≡ queues.old.entries) }
{
    match queues.get_mut(&key) {
        Some(queue) => queue.push(text),
        None => open(alloc, queues, key, text),
    }
}

// A queue that is not there yet, with its first text.
fn open(alloc: Global, queues: &mut Queues, key: (u64, u32), text: Line) -> Result<(), WantOfMemory>
    requires { lookup (same_queue key) queues.old.entries ≡ None }
    ensures ok { OnOk result (AddsLast queues.old.entries key text.items queues.new.entries) }
    ensures err { OnErr result (queues.new.entries ≡ queues.old.entries) }
{
    let mut queue = TextQueue::new(alloc);
    queue.push(text)?;
    queues.insert(key, queue)?;
    Ok(())
}

/// The first text of a queue, where there is one.
pub(crate) fn first_text(queues: &Queues, key: (u64, u32)) -> Option<&Line>
    ensures { option_map glyphs_in (option_copied result) ≡ first_of (queue_at queues.now.entries key) }
{
    match queues.get(&key) {
        Some(queue) => queue.front(),
        None => None,
    }
}

/// The first text of a queue goes, where there is one, and with the last text its queue.
pub(crate) fn drop_text(queues: &mut Queues, key: (u64, u32))
    ensures { Drops queues.old.entries key queues.new.entries }
{
    pop(queues, key);
    close(queues, key);
}

// The first text of a queue goes, where there is one.
fn pop(queues: &mut Queues, key: (u64, u32))
    ensures { Drops queues.old.entries key queues.new.entries }
{
    match queues.get_mut(&key) {
        Some(queue) => queue.pop(),
        None => (),
    }
}

// A queue without a text goes.
fn close(queues: &mut Queues, key: (u64, u32))
    ensures { KeepTexts queues.old.entries queues.new.entries }
{
    match queues.get(&key) {
        Some(queue) if !queue.has_text() => {
            queues.remove(&key);
        }
        _ => (),
    }
}

/// The parties with a text for a party, ascending. It takes memory for them.
pub(crate) fn senders(alloc: Global, queues: &Queues, to: u32) -> Result<List<i64>, WantOfMemory>
    ensures senders { IfOk result (λ parties. parties.items ≡ senders_in to queues.now.entries) }
    ensures ordered { OnOk result (IsStrictlySortedBy queue_order (keys_of queues.now.entries)) }
{
    let receiver = u64::from(to);
    let mut parties = List::new(alloc);
    for (key, queue) in queues.range((receiver, 0)..(receiver + 1, 0)) {
        if queue.has_text() {
            parties.push(i64::from(key.1))?;
        }
    }
    Ok(parties)
}
