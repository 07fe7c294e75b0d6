ghost use Rattle.std.specs.Prelude.{◌≡◌, ◌+◌, ◌≤◌, ◌<◌, ◌∷◌, [], Some, None, min, reverse, length, IfOk, OnOk, if◌then◌else◌};
ghost use Rattle.sv_rules.specs.Limits.{most_entries, most_journal_elements};
ghost use Rattle.sv_events.specs.Entry.{plain_entry};
ghost use Rattle.sv_kept.specs.Member.{user_member};
ghost use Rattle.sv_rules.specs.Entries.{is_full, next_place};
ghost use Rattle.sv_rules.specs.Journal.{journal_of};
ghost use Rattle.sv_rules.specs.Legal.{is_user};

use crate::member::{Member, Members, members_of, note};
use apl_arrays::WantOfMemory;
use std::alloc::Global;
use std::marker::Model;
use sv_events::{Entry, Journal};
use sv_rules::{ENTRY_LIMIT, HELD_LIMIT, capped_weight, is_held, is_leave};

/// The journal of some users, and what is kept of it.
#[derive(Drop)]
pub struct Log {
    journal: Journal,
    users: Vec<u32>,
    members: Members,
    // How many entries are no leaves, and how many elements they weigh, up to the limits.
    counted: usize,
    elements: u64,
}

impl Model for Log {
    ghost use Rattle.sv_kept.specs.Log.{PlainLog};
    ghost use Rattle.sv_kept.specs.Inside.{IsLog, log_of};

    ghost Value = { PlainLog };

    ghost view = { log_of };

    ghost invariant = { IsLog };
}

// The place where a party waits, if it waits there.
fn waiting_since(place: u64, waits: bool) -> Option<u64>
    ensures { result ≡ (if waits then Some place else None) }
{
    if waits { Some(place) } else { None }
}

// The count of the entries that are no leaves, up to the limit, with one more.
fn counted_after(counted: usize, leaves: bool) -> usize
    requires { counted ≤ most_entries }
    ensures { result ≡ (if leaves then counted else min (counted + 1) most_entries) }
{
    if leaves {
        counted
    } else {
        (counted + 1).min(ENTRY_LIMIT)
    }
}

// What the entries weigh, up to the limit, with one more.
fn elements_after(elements: u64, weight: u64) -> u64
    requires before { elements ≤ most_journal_elements }
    requires more { weight ≤ most_journal_elements }
    ensures { result ≡ min (elements + weight) most_journal_elements }
{
    (elements + weight).min(HELD_LIMIT)
}

impl Log {
    /// No entries, and room for a leave of each user. It takes memory for these.
    pub fn new(alloc: Global, users: &[u32]) -> Result<Log, WantOfMemory>
        ensures users { IfOk result (λ log. log.users ≡ users.now) }
        ensures journal { IfOk result (λ log. log.journal ≡ []) }
        ensures room { IfOk result (λ log. length users.now ≤ log.room) }
    {
        let mut journal = Journal::new(alloc);
        journal.reserve(users.len())?;
        Ok(Log {
            journal,
            users: users.to_vec(alloc)?,
            members: members_of(alloc, users)?,
            counted: 0,
            elements: 0,
        })
    }

    /// The entries, oldest first.
    pub fn entries(&self) -> &[Entry]
        ensures { journal_of result.now ≡ self.now.journal }
    {
        self.journal.as_slice()
    }

    /// The entries as they are kept, oldest first.
    pub fn into_journal(self) -> Journal
        ensures { reverse result.items ≡ self.journal }
    {
        self.journal
    }

    /// The users.
    pub fn users(&self) -> &[u32]
        ensures { result.now ≡ self.now.users }
    {
        &self.users
    }

    /// What is kept of a user.
    pub fn member(&self, user: u32) -> Option<Member>
        ensures { result ≡ (if is_user self.now.users user then Some (user_member self.now.journal user) else None) }
    {
        self.members.get(&user).copied()
    }

    /// Whether the journal takes no more entries but leaves.
    pub fn is_full(&self) -> bool
        ensures { result ≡ is_full self.now.journal }
    {
        self.counted >= ENTRY_LIMIT || self.elements >= HELD_LIMIT
    }

    /// The place of the entry that comes next.
    pub fn next_place(&self) -> u64
        ensures { result ≡ next_place self.now.journal }
    {
        self.journal.as_slice().len() as u64 + 1
    }

    /// Makes room for one entry, and for a leave of each user after it. It takes memory; after `WantOfMemory` all is as
    /// before.
    pub fn reserve(&mut self) -> Result<(), WantOfMemory>
        ensures users { self.new.users ≡ self.old.users }
        ensures journal { self.new.journal ≡ self.old.journal }
        ensures room { OnOk result (length self.old.users + 1 ≤ self.new.room) }
        ensures kept { self.old.room ≤ self.new.room }
    {
        self.journal.reserve(self.users.len() + 1)
    }

    /// Adds an entry, where there is room.
    pub fn push(&mut self, entry: Entry)
        requires { 0 < self.old.room }
        ensures users { self.new.users ≡ self.old.users }
        ensures journal { self.new.journal ≡ plain_entry entry ∷ self.old.journal }
        ensures room { self.new.room + 1 ≡ self.old.room }
    {
        let leaves = is_leave(&entry.act);
        let waiting = waiting_since(self.next_place(), is_held(entry.answer.row().kind));
        let elements = elements_after(self.elements, capped_weight(&entry));
        self.counted = counted_after(self.counted, leaves);
        self.elements = elements;
        note(&mut self.members, entry.party, leaves, waiting);
        self.journal.push_reserved(entry);
    }
}
