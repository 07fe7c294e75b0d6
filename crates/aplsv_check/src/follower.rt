ghost use Rattle.std.specs.Prelude.{◌≡◌, ◌≤◌, [], IfOk, MatchOption, None, find, map, not, vec_capacity, vec_len};
ghost use Rattle.aux_parties.specs.Auxiliaries.{party_of};
ghost use Rattle.bundle_text.specs.Rules.{IsBundle, PlainBundle};
ghost use Rattle.bundle_text.specs.User.{plain_user};
ghost use Rattle.printed_text.specs.Printed.{plain_printed};
ghost use Rattle.sv_events.specs.Entry.{plain_entry};
ghost use Rattle.session_rules.specs.Auxiliaries.{some_stay};
ghost use Rattle.session_rules.specs.Run.{user_numbers};
ghost use Rattle.sv_rules.specs.Entries.{has_left};
ghost use Rattle.party_turns.specs.Seats.{seat_numbers};
ghost use Rattle.aplsv_check.specs.Followed.{Follows, HasDevices, IsFollowed, IsSomeRun, MadeIf};
ghost use Rattle.check_rules.specs.Saw.{AllSaw, IsFirstDifference, first_there};

use crate::difference::first_difference;
use crate::same::is_newest;
use crate::turns::{auxiliary_turn, user_turns};
use apl_arrays::WantOfMemory;
use apl_io::{Devices, MemoryClock, MemoryShelf, MemoryText};
use aux_parties::{AuxiliaryKind, CLOCK_PARTY, TEXT_PARTY, auxiliary_at};
use auxiliaries::{ClockAux, TextAux, files_are_read_in_one_way};
use bundle_devices::memory_devices;
use bundle_text::{Bundle, BundleUser};
use party_turns::{Auxiliary, UserSeat, all_have_left, core_of, fill, room_for};
use printed_text::PrintedTranscript;
use std::alloc::Global;
use sv_core::Core;
use sv_events::Entry;

/// A run of a bundle over its own files and readings and empty shelves, which is followed entry by entry: the processor, the
/// auxiliaries, and the users, ascending.
#[derive(Drop)]
pub(crate) struct Follower {
    core: Core,
    ten: Auxiliary<ClockAux<MemoryClock>>,
    twenty: Auxiliary<TextAux<MemoryText>>,
    seats: Vec<UserSeat<MemoryShelf>>,
}

// Users with equal lines, in memory of their own.
fn copied_users(alloc: Global, users: &[BundleUser]) -> Result<Vec<BundleUser>, WantOfMemory>
    ensures { IfOk result (λ list. map plain_user list.items ≡ map plain_user users.now) }
{
    let mut list = Vec::new(alloc);
    for user in users {
        list.push(BundleUser {
            number: user.number,
            lines: user.lines.copy(alloc)?,
        })?;
    }
    Ok(list)
}

// A run of these users over these devices, in which no entry was made. The list of seats has room for them.
fn begun(
    alloc: Global,
    core: Core,
    users: Vec<BundleUser>,
    room: Vec<UserSeat<MemoryShelf>>,
    devices: Devices<MemoryText, MemoryClock, MemoryShelf>,
) -> Follower
    requires empty { room.items ≡ [] }
    requires room { vec_len users ≤ vec_capacity room }
    requires shelves { vec_len users ≤ vec_len devices.shelves }
    ensures followed { (bundle : PlainBundle) → IsBundle bundle → map plain_user users.items ≡ bundle.users → HasDevices bundle devices → core ≡ record { users = user_numbers bundle; journal = [] } → IsFollowed bundle result }
    ensures core { result.core ≡ core }
{
    let Devices {
        text,
        clock,
        shelves,
    } = devices;
    let mut shelves = shelves;
    let seats = fill(alloc, users, room, &mut shelves);
    Follower {
        core,
        ten: Auxiliary::new(CLOCK_PARTY, ClockAux::new(clock)),
        twenty: Auxiliary::new(TEXT_PARTY, TextAux::new(alloc, text)),
        seats,
    }
}

// The lowest of these users that has not left, if one has not.
fn first_of_those_there(core: &Core, seats: &[UserSeat<MemoryShelf>]) -> Option<u32>
    ensures { result ≡ find (λ user. not (has_left core.now.journal user)) (seat_numbers seats.now) }
{
    seats
        .iter()
        .map(|seat| seat.user())
        .find(|user| !core.has_left(*user))
}

impl Follower {
    /// A run of this bundle in which no entry was made. It takes memory for the users' lines, the files and the readings.
    pub(crate) fn new(alloc: Global, bundle: &Bundle) -> Result<Follower, WantOfMemory>
        ensures followed { IfOk result (λ follower. IsFollowed bundle.now follower) }
        ensures empty { IfOk result (λ follower. follower.core.journal ≡ []) }
    {
        let users = bundle.users();
        let core = core_of(alloc, users)?;
        let room = room_for(alloc, users)?;
        let copies = copied_users(alloc, users)?;
        let devices = memory_devices(alloc, bundle)?;
        Ok(begun(alloc, core, copies, room, devices))
    }

    /// Whether an entry fits behind those that were followed; it was followed then, and else the run is spent. It takes the memory
    /// of what its party does.
    pub(crate) fn follow(&mut self, entry: &Entry) -> Result<bool, WantOfMemory>
        requires { IsSomeRun self.old }
        ensures { IfOk result (λ fits. (bundle : PlainBundle) → IsFollowed bundle self.old → Follows bundle self.old (plain_entry entry.now) fits self.new) }
    {
        files_are_read_in_one_way();
        if self.all_have_left() {
            return Ok(false);
        }
        let is_entered = self.take_turns(entry.party)?;
        if !is_entered {
            return Ok(false);
        }
        Ok(is_newest(&self.core, entry))
    }

    // The turns of a party up to its next entry, while some user has not left: whether it made one.
    fn take_turns(&mut self, party: u32) -> Result<bool, WantOfMemory>
        requires run { IsSomeRun self.old }
        ensures { IfOk result (λ made. (bundle : PlainBundle) → IsFollowed bundle self.old → MadeIf bundle party self.old made self.new) }
    {
        match auxiliary_at(party) {
            None => user_turns(&mut self.core, &mut self.seats, party),
            Some(row) => self.serve(row.kind),
        }
    }

    // The turn of an auxiliary: whether it made an entry.
    fn serve(&mut self, kind: AuxiliaryKind) -> Result<bool, WantOfMemory>
        requires run { IsSomeRun self.old }
        ensures { IfOk result (λ made. (bundle : PlainBundle) → IsFollowed bundle self.old → MadeIf bundle (party_of kind) self.old made self.new) }
    {
        match kind {
            AuxiliaryKind::Clock => auxiliary_turn(&mut self.core, &mut self.ten),
            AuxiliaryKind::TextFiles => auxiliary_turn(&mut self.core, &mut self.twenty),
        }
    }

    // Whether all users have left.
    fn all_have_left(&self) -> bool
        ensures { (bundle : PlainBundle) → IsFollowed bundle self.now → result ≡ not (some_stay (user_numbers bundle) self.now.core.journal) }
    {
        all_have_left(&self.core, &self.seats)
    }

    /// The lowest user that has not left, if one has not.
    pub(crate) fn first_there(&self) -> Option<u32>
        ensures { (bundle : PlainBundle) → IsFollowed bundle self.now → result ≡ first_there bundle self.now.core.journal }
    {
        first_of_those_there(&self.core, &self.seats)
    }

    /// The lowest user of whom other lines are printed than it saw, and the number, from 1, of the first of these lines, where all
    /// have left.
    pub(crate) fn first_difference(&self, printed: &[PrintedTranscript]) -> Option<(u32, u64)>
        ensures { (bundle : PlainBundle) → IsFollowed bundle self.now → first_there bundle self.now.core.journal ≡ None → map (λ transcript. transcript.user) (map plain_printed printed.now) ≡ user_numbers bundle
            → MatchOption result (AllSaw self.now.core.journal bundle.users (map plain_printed printed.now)) (λ found. IsFirstDifference self.now.core.journal bundle.users (map plain_printed printed.now) found.0 found.1) }
    {
        first_difference(&self.seats, printed)
    }
}
