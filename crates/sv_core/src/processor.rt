ghost use Rattle.std.specs.Prelude.{◌≡◌, ◌≤◌, ◌||◌, ◌&&◌, [], length, IsTrue, Some, None, is_some, not, IfOk, IsOk, OnOk, OnErr, reverse};
ghost use Rattle.std.specs.Option.{option_copied};
ghost use Rattle.sv_core.specs.Core.{ArePeople, core_after};
ghost use Rattle.sv_core.specs.Retry.{core_retried, plain_retry};
ghost use Rattle.sv_delivery_laws.specs.DeliveryLaws.{WhatControlGives};
ghost use Rattle.sv_events.specs.Answer.{plain_answer};
ghost use Rattle.sv_rules.specs.Entries.{has_left, is_full, is_leave};
ghost use Rattle.sv_rules.specs.Journal.{journal_of};
ghost use Rattle.sv_rules.specs.Legal.{IsLegal, act_due, answer_to, is_still_held, is_user, journal_after, retried};
ghost use Rattle.sv_rules.specs.Refused.{awaited, still_refused, waits};
ghost use Rattle.aux_parties.specs.Auxiliaries.{is_auxiliary};
ghost use Rattle.sv_rules.specs.Work.{is_stuck};
ghost use Rattle.sv_kept.specs.Member.{waiting_at};

use crate::leaves::{spare_lists, take_spare};
use crate::updating::end_together;
use apl_arrays::WantOfMemory;
use std::alloc::Global;
use std::marker::Model;
use sv_delivery_laws::delivery_law;
use sv_events::{Act, Answer, Ending, Entry, Journal, PairList, Retry};
use sv_kept::{Cells, Log, Member};
use sv_offers::Offers;

/// The processor of some users: it has the journal, in which each entry may follow those before it, the standing offers,
/// and what is kept of them.
#[derive(Drop)]
pub struct Core {
    pub(crate) alloc: Global,
    pub(crate) log: Log,
    pub(crate) offers: Offers,
    pub(crate) cells: Cells,
    // For the pairs of leaves to come.
    pub(crate) spares: Vec<PairList>,
}

impl Model for Core {
    ghost use Rattle.sv_core.specs.Core.{PlainCore};
    ghost use Rattle.sv_core.specs.Invariant.{IsCore};

    ghost Value = { PlainCore };

    ghost view = { λ c. record { users = c.log.users; journal = c.log.journal } };

    ghost invariant = { IsCore };
}

impl Core {
    /// The processor of these users, with an empty journal: each has a number from 1001 to 1999. It takes memory for the
    /// users and for the room of all their leaves.
    pub fn new(alloc: Global, users: &[u32]) -> Result<Core, WantOfMemory>
        requires people { ArePeople users.now }
        ensures { IfOk result (λ core. core ≡ record { users = users.now; journal = [] }) }
    {
        let log = Log::new(alloc, users)?;
        let spares = spare_lists(alloc, users.len())?;
        Ok(Core {
            alloc,
            log,
            offers: Offers::new(alloc),
            cells: Cells::new(alloc),
            spares,
        })
    }

    // What is kept of a party: whoever is no user has neither left nor waits.
    pub(crate) fn member(&self, party: u32) -> Member
        ensures left { result.has_left ≡ has_left self.now.journal party }
        ensures waiting { result.waiting ≡ waiting_at self.now.journal party }
    {
        match self.log.member(party) {
            None => Member {
                has_left: false,
                waiting: None,
            },
            Some(member) => member,
        }
    }

    /// Whether a party has left.
    pub fn has_left(&self, party: u32) -> bool
        ensures { result ≡ has_left self.now.journal party }
    {
        self.member(party).has_left
    }

    /// Whether a party waits.
    pub fn waits(&self, party: u32) -> bool
        ensures { result ≡ waits self.now.journal party }
    {
        self.member(party).waiting.is_some()
    }

    // The act that a party waits for, if it waits.
    pub(crate) fn awaited(&self, party: u32) -> Option<&Act>
        ensures { option_copied result ≡ awaited self.now.journal party }
    {
        self.awaited_since(party, self.member(party).waiting)
    }

    // The same where it is known at which entry the party waits, if it waits.
    pub(crate) fn awaited_since(&self, party: u32, waiting: Option<u64>) -> Option<&Act>
        requires { waiting ≡ waiting_at self.now.journal party }
        ensures { option_copied result ≡ awaited self.now.journal party }
    {
        match waiting {
            None => None,
            Some(place) => Some(act_awaited(self.log.entries(), party, place)),
        }
    }

    /// Whether the journal takes no more entries but leaves.
    pub fn is_full(&self) -> bool
        ensures { result ≡ is_full self.now.journal }
    {
        self.log.is_full()
    }

    /// The entries, oldest first. Of what a side sends in a coupling nothing is lost but what the other side set over, while
    /// control holds back its second sets and the other's second uses.
    pub fn journal(&self) -> &[Entry]
        ensures value { journal_of result.now ≡ self.now.journal }
        ensures legal { IsLegal self.now.users self.now.journal }
        ensures control { WhatControlGives self.now.journal }
    {
        delivery_law();
        self.log.entries()
    }

    /// The entries as they are kept, oldest first.
    pub fn into_journal(self) -> Journal
        ensures value { reverse result.items ≡ self.journal }
        ensures legal { IsLegal self.users self.journal }
    {
        self.log.into_journal()
    }

    /// The answer to an act, other than a leave, of a party that has not left and does not wait; an auxiliary's is that of
    /// its work. One entry is added, with this act, this answer and the pairs that the act couples; a full journal answers
    /// `Full` and adds none. It takes memory for the entry, the answer and the room of later leaves; after `WantOfMemory` all
    /// is as before.
    pub fn step(&mut self, party: u32, act: Act) -> Result<Answer, WantOfMemory>
        requires member { IsTrue (is_user self.old.users party || is_auxiliary party) }
        requires present { IsTrue (not (has_left self.old.journal party)) }
        requires goes_on { awaited self.old.journal party ≡ None }
        requires due { act_due (is_auxiliary party) self.old.journal party act ≡ Some act }
        requires stays { IsTrue (not (is_leave act)) }
        ensures answer { IfOk result (λ answer. plain_answer answer ≡ answer_to self.old.journal party act) }
        ensures journal { OnOk result (self.new ≡ record { users = self.old.users; journal = journal_after self.old.journal party act }) }
        ensures err { OnErr result (self.new ≡ self.old) }
    {
        let result = self.step_with(party, &act);
        drop(act);
        result
    }

    /// The same for an act that stays with its party: the entry has a copy of it.
    pub fn step_with(&mut self, party: u32, act: &Act) -> Result<Answer, WantOfMemory>
        requires member { IsTrue (is_user self.old.users party || is_auxiliary party) }
        requires present { IsTrue (not (has_left self.old.journal party)) }
        requires goes_on { awaited self.old.journal party ≡ None }
        requires due { act_due (is_auxiliary party) self.old.journal party act.now ≡ Some act.now }
        requires stays { IsTrue (not (is_leave act.now)) }
        ensures answer { IfOk result (λ answer. plain_answer answer ≡ answer_to self.old.journal party act.now) }
        ensures journal { OnOk result (self.new ≡ record { users = self.old.users; journal = journal_after self.old.journal party act.now }) }
        ensures err { OnErr result (self.new ≡ self.old) }
    {
        if self.log.is_full() {
            return Ok(Answer::Full);
        }
        self.make(party, act)
    }

    /// The answer to a party that waits and tries again: its act is made where nothing refuses it now, and given up where
    /// nobody can go on; a full journal answers `Full` and adds no entry. Where it is still held no entry is added, and no
    /// memory taken. After `WantOfMemory` all is as before.
    pub fn retry(&mut self, party: u32) -> Result<Retry, WantOfMemory>
        requires waits { IsTrue (waits self.old.journal party) }
        ensures held { IsTrue (is_still_held self.old.users self.old.journal party) → IsOk result }
        ensures answer { IfOk result (λ got. plain_retry got ≡ retried self.old.users self.old.journal party) }
        ensures journal { OnOk result (self.new ≡ core_retried self.old party) }
        ensures err { OnErr result (self.new ≡ self.old) }
    {
        if self.log.is_full() {
            return Ok(Retry::Now(Answer::Full));
        }
        if self.is_kept_back(party) {
            return Ok(Retry::StillHeld);
        }
        let act = self.awaited_act(party)?;
        match self.make(party, &act) {
            Ok(answer) => {
                drop(act);
                Ok(Retry::Now(answer))
            }
            Err(_) => {
                drop(act);
                Err(WantOfMemory)
            }
        }
    }

    // Whether something refuses the act that a party waits for, while somebody can go on.
    fn is_kept_back(&self, party: u32) -> bool
        ensures { result ≡ (is_some (still_refused self.now.journal party) && not (is_stuck self.now.users self.now.journal)) }
    {
        self.is_refused_now(party) && !self.is_stuck()
    }

    // The act that a party waits for, in memory of its own.
    fn awaited_act(&self, party: u32) -> Result<Act, WantOfMemory>
        requires { IsTrue (waits self.now.journal party) }
        ensures { IfOk result (λ act. awaited self.now.journal party ≡ Some act) }
    {
        match self.awaited(party) {
            None => unreachable!(),
            Some(act) => act.copy(self.alloc),
        }
    }

    /// The user leaves and takes all its offers along. The partners that this sets free look for new ones, the oldest offer
    /// first, each among its open matches for the oldest.
    pub fn leave(&mut self, user: u32)
        requires member { IsTrue (is_user self.old.users user) }
        requires present { IsTrue (not (has_left self.old.journal user)) }
        ensures { self.new ≡ core_after self.old user Act.Leave }
    {
        let mut made = take_spare(&mut self.spares);
        let at = self.log.next_place();
        end_together(
            &mut self.offers,
            &mut self.cells,
            at,
            user,
            Ending::All,
            &mut made,
        );
        self.log.push(Entry {
            party: user,
            act: Act::Leave,
            answer: Answer::Done,
            made,
        });
    }
}

// The act that a party waits for, by the place of its entry.
fn act_awaited(entries: &[Entry], party: u32, place: u64) -> &Act
    requires from { 1 ≤ place }
    requires to { place ≤ length entries.now }
    requires at { waiting_at (journal_of entries.now) party ≡ Some place }
    ensures { awaited (journal_of entries.now) party ≡ Some result.now }
{
    &entries[place as usize - 1].act
}
