//! What a party does while it has the turn.
ghost use Rattle.std.specs.Prelude.{◌≡◌, ◌≢◌, List, None, false, true, IfSome, IsTrue, OnSome, option_map};
ghost use Rattle.sv_core.specs.Core.{ArePeople};
ghost use Rattle.sv_events.specs.Answer.{plain_answer};
ghost use Rattle.sv_rules.specs.Entries.{has_left};
ghost use Rattle.sv_rules.specs.Legal.{is_user};
ghost use Rattle.aux_parties.specs.Auxiliaries.{is_auxiliary};
ghost use Rattle.session_rules.specs.Auxiliaries.{some_stay};
ghost use Rattle.session_rules.specs.Shelf.{Exchange};
ghost use Rattle.apl_session.specs.declared.session.SessionStage.TheVariants as stage;
ghost use Rattle.party_turns.specs.Entering.{Brings, IsOneIf, IsReady};
ghost use Rattle.party_turns.specs.Serving.{ComesOn};
ghost use Rattle.party_turns.specs.SoFar.{HasAnswered};

use crate::boxed_core::BoxedCore;
use apl_io::Shelf;
use auxiliaries::Replier;
use party_turns::{Auxiliary, Intent, TurnResult, UserSeat};
use sv_core::Core;

// The user leaves before its lines are done.
fn give_up<K: Shelf>(user: &mut UserSeat<K>, core: &mut Core) -> TurnResult
    requires user { IsTrue (is_user core.old.users user.old.session.user) }
    requires stays { has_left core.old.journal user.old.session.user ≡ false }
    ensures user { user.new ≡ record user.old { is_lost = true } }
    ensures one { IsOneIf result.is_entered user.old.session.user core.old core.new }
    ensures none { result.answer ≡ None }
{
    core.leave(user.user());
    user.is_lost = true;
    TurnResult {
        is_entered: true,
        answer: None,
    }
}

/// What a user is about to do; it leaves where it is about nothing, and where memory runs out for it. It takes the memory of an
/// entry, and none for a leave.
pub fn take_part<K: Shelf>(
    user: &mut UserSeat<K>,
    core: &mut BoxedCore,
    about: Option<Intent>,
) -> TurnResult
    requires user { IsTrue (is_user core.old.users user.old.session.user) }
    requires people { ArePeople core.old.users }
    requires stays { has_left core.old.journal user.old.session.user ≡ false }
    requires ready { IfSome about (λ intent. (exchanges : List Exchange) × IsReady core.old.journal exchanges intent user.old.session) }
    ensures user { user.new ≡ record user.old { is_lost = user.new.is_lost } }
    ensures one { IsOneIf result.is_entered user.old.session.user core.old core.new }
    ensures brings { user.new.is_lost ≡ false → IfSome about (λ intent. (exchanges : List Exchange) → IsReady core.old.journal exchanges intent user.old.session
        → Brings core.old exchanges user.old.session intent core.new (option_map plain_answer result.answer)) }
    ensures nothing { about ≡ None → user.new.is_lost ≡ true }
    ensures waiting { OnSome result.answer (user.old.session.stage ≡ stage.Waiting) }
{
    match about {
        None => give_up(user, &mut core.core),
        Some(intent) => enter(user, &mut core.core, intent),
    }
}

// What a user is about to do, or its leave where memory runs out for it.
fn enter<K: Shelf>(user: &mut UserSeat<K>, core: &mut Core, intent: Intent) -> TurnResult
    requires user { IsTrue (is_user core.old.users user.old.session.user) }
    requires people { ArePeople core.old.users }
    requires stays { has_left core.old.journal user.old.session.user ≡ false }
    requires ready { (exchanges : List Exchange) × IsReady core.old.journal exchanges intent user.old.session }
    ensures user { user.new ≡ record user.old { is_lost = user.new.is_lost } }
    ensures one { IsOneIf result.is_entered user.old.session.user core.old core.new }
    ensures brings { user.new.is_lost ≡ false → (exchanges : List Exchange) → IsReady core.old.journal exchanges intent user.old.session
        → Brings core.old exchanges user.old.session intent core.new (option_map plain_answer result.answer) }
    ensures waiting { OnSome result.answer (user.old.session.stage ≡ stage.Waiting) }
{
    match user.enter(core, intent) {
        Ok(came) => came,
        Err(_) => give_up(user, core),
    }
}

/// What came of an auxiliary's turn.
#[derive(Clone, Copy, Debug, PartialEq, Eq)]
pub enum Service {
    /// It made an entry.
    Made,
    /// It had nothing to do.
    Rested,
    /// All users have left.
    Over,
}

// Whether some of these users has not left.
fn some_user_stays(core: &Core, users: &[u32]) -> bool
    ensures { result ≡ some_stay users.now core.now.journal }
{
    users.iter().any(|user| !core.has_left(*user))
}

/// An auxiliary's work, as long as some of these users has not left. It takes memory as the auxiliary's turn does.
pub fn give_service<X: Replier>(
    auxiliary: &mut Auxiliary<X>,
    core: &mut BoxedCore,
    users: &[u32],
) -> Service
    requires { IsTrue (is_auxiliary auxiliary.old.party) }
    ensures party { auxiliary.new.party ≡ auxiliary.old.party }
    ensures made { result ≡ Service.Made → IsOneIf true auxiliary.old.party core.old core.new × IsTrue (some_stay users.now core.old.journal) }
    ensures rested { result ≢ Service.Made → core.new ≡ core.old }
    ensures answered { auxiliary.new.is_lost ≡ false → (start : X) → HasAnswered X.forgets X.replies start core.old.journal auxiliary.old → HasAnswered X.forgets X.replies start core.new.journal auxiliary.new }
    ensures lost { auxiliary.old.is_lost ≡ true → auxiliary.new.is_lost ≡ true }
    ensures comes { ComesOn X.forgets X.replies X.wants auxiliary.old auxiliary.new }
{
    if !some_user_stays(&core.core, users) {
        return Service::Over;
    }
    if auxiliary.take_turn(&mut core.core) {
        Service::Made
    } else {
        Service::Rested
    }
}
