ghost use Rattle.std.specs.Prelude.{◌≡◌, ◌&&◌, false, All, IfOk, IsTrue, List, not};
ghost use Rattle.apl_arrays.specs.Ascending.{AscendBy};
ghost use Rattle.aux_parties.specs.Auxiliaries.{is_auxiliary};
ghost use Rattle.bundle_text.specs.User.{PlainUser};
ghost use Rattle.sv_core.specs.Core.{ArePeople};
ghost use Rattle.sv_rules.specs.Entries.{has_left, is_full};
ghost use Rattle.sv_rules.specs.Legal.{is_user};
ghost use Rattle.aplsv_check.specs.Followed.{AreSeatsOf, EndedTurns, HasServed, IsSeatOf, TookTurn, UsersTurned};

use apl_arrays::WantOfMemory;
use apl_io::MemoryShelf;
use auxiliaries::Replier;
use party_turns::{Auxiliary, UserSeat};
use sv_core::Core;

// One turn of a user that has not left: whether it made an entry. It takes the memory of the turn.
fn take_turn(core: &mut Core, seat: &mut UserSeat<MemoryShelf>) -> Result<bool, WantOfMemory>
    requires user { IsTrue (is_user core.old.users seat.old.session.user) }
    requires people { ArePeople core.old.users }
    requires stays { has_left core.old.journal seat.old.session.user ≡ false }
    requires seated { (user : PlainUser) × IsSeatOf core.old.journal user seat.old }
    ensures { IfOk result (λ made. (user : PlainUser) → IsSeatOf core.old.journal user seat.old → TookTurn user core.old seat.old made core.new seat.new) }
{
    let intent = seat.prepare()?;
    let came = seat.enter(core, intent)?;
    let is_entered = came.is_entered;
    seat.hear(came.answer)?;
    Ok(is_entered)
}

// The turns of a user up to its next entry: whether it made one. In a full journal it hears so until its lines are done, and
// leaves. It takes the memory of the turns.
fn take_turns(core: &mut Core, seat: &mut UserSeat<MemoryShelf>) -> Result<bool, WantOfMemory>
    requires user { IsTrue (is_user core.old.users seat.old.session.user) }
    requires people { ArePeople core.old.users }
    requires seated { (user : PlainUser) × IsSeatOf core.old.journal user seat.old }
    ensures { IfOk result (λ made. (user : PlainUser) → IsSeatOf core.old.journal user seat.old → EndedTurns user core.old made core.new seat.new) }
{
    if core.has_left(seat.user()) {
        return Ok(false);
    }
    let mut is_entered = take_turn(core, seat)?;
    'turns: while goes_on(core, is_entered) {
        is_entered = take_turn(core, seat)?;
    }
    Ok(is_entered)
}

// Whether a user that had a turn has another: it made no entry, since the journal is full.
fn goes_on(core: &Core, is_entered: bool) -> bool
    ensures { result ≡ (not is_entered && is_full core.now.journal) }
{
    !is_entered && core.is_full()
}

/// The turns of the user of this number, among these, up to its next entry: whether it made one. It takes the memory of the
/// turns.
pub(crate) fn user_turns(
    core: &mut Core,
    seats: &mut [UserSeat<MemoryShelf>],
    party: u32,
) -> Result<bool, WantOfMemory>
    requires users { All (λ seat. IsTrue (is_user core.old.users seat.session.user)) seats.old }
    requires people { ArePeople core.old.users }
    requires seated { (users : List PlainUser) × AreSeatsOf core.old.journal users seats.old }
    ensures { IfOk result (λ made. (users : List PlainUser) → AscendBy (λ user. user.number) users → AreSeatsOf core.old.journal users seats.old → UsersTurned party users core.old made core.new seats.new) }
{
    match seats.split_first_mut() {
        None => Ok(false),
        Some((seat, others)) => {
            let is_party = seat.user() == party;
            if is_party {
                take_turns(core, seat)
            } else {
                user_turns(core, others, party)
            }
        }
    }
}

/// The turn of an auxiliary: whether it made an entry. It takes memory for the reply and the entry; where that runs out, it makes
/// no entry any more.
pub(crate) fn auxiliary_turn<X: Replier>(
    core: &mut Core,
    auxiliary: &mut Auxiliary<X>,
) -> Result<bool, WantOfMemory>
    requires { IsTrue (is_auxiliary auxiliary.old.party) }
    ensures { IfOk result (λ made. HasServed X.forgets X.replies auxiliary.old auxiliary.new core.old made core.new) }
{
    let is_entered = auxiliary.take_turn(core);
    if auxiliary.is_lost() {
        return Err(WantOfMemory);
    }
    Ok(is_entered)
}
