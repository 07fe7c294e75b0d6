ghost use Rattle.std.specs.Prelude.{◌≡◌, false, true, List, None, IfOk, IsOk, IsTrue, OnErr, OnOk, OnSome, option_map};
ghost use Rattle.sv_core.specs.Core.{ArePeople};
ghost use Rattle.sv_rules.specs.Entries.{has_left};
ghost use Rattle.sv_rules.specs.Legal.{is_user};
ghost use Rattle.sv_events.specs.Answer.{plain_answer};
ghost use Rattle.sv_rules.specs.Refused.{waits};
ghost use Rattle.session_rules.specs.Shelf.{Exchange};
ghost use Rattle.apl_session.specs.PlainSession.{HasCome};
ghost use Rattle.party_turns.specs.Entering.{AsksOwn, Brings, BringsFurther, BringsOn, Finds, IsOneIf, IsReady, heard_if};
ghost use Rattle.party_turns.specs.SoFar.{AsksNow, GoesOn, GrowsBy, IsOneSeated, IsSameUser, TakesTurn, TriesAgain, heard};

use crate::{Intent, TurnResult};
use apl_arrays::WantOfMemory;
use apl_io::Shelf;
use apl_session::{Need, Session, SessionStage};
use sv_core::Core;
use sv_events::{Act, Answer, Retry};

/// A user in a run: its session, and whether memory ran out for it.
#[derive(Drop)]
pub struct UserSeat<K> {
    pub session: Session<K>,
    pub is_lost: bool,
}

impl<K: Shelf> UserSeat<K> {
    /// A user of whose lines none is done.
    pub fn new(session: Session<K>) -> Self
        ensures { result ≡ record { session = session; is_lost = false } }
    {
        UserSeat {
            session,
            is_lost: false,
        }
    }

    /// The user's number.
    pub fn user(&self) -> u32
        ensures { result ≡ self.now.session.user }
    {
        self.session.user()
    }

    /// The user's turn, unless it has left: its next act is made, or the one that it waits for is tried again; where its
    /// lines are done it leaves. It leaves too where the run closes, and where memory runs out for it.
    pub fn take_turn(&mut self, core: &mut Core, closes: bool)
        requires user { IsTrue (is_user core.old.users self.old.session.user) }
        requires people { ArePeople core.old.users }
        requires seated { IsOneSeated K.told K.faults core.old.journal self.old }
        ensures same { IsSameUser self.old.session self.new.session }
        ensures grows { GrowsBy self.old.session.user core.old core.new }
        ensures goes_on { GoesOn core.old self.old.session core.new self.new.session }
        ensures gone { has_left core.old.journal self.old.session.user ≡ true → (core.new ≡ core.old) × (self.new ≡ self.old) }
        ensures closed { closes ≡ true → has_left core.new.journal self.old.session.user ≡ true }
        ensures lost { self.old.is_lost ≡ true → self.new.is_lost ≡ true }
        ensures leaves { self.old.is_lost ≡ false → self.new.is_lost ≡ true → has_left core.new.journal self.old.session.user ≡ true }
        ensures turn { closes ≡ false → self.new.is_lost ≡ false → has_left core.old.journal self.old.session.user ≡ false → TakesTurn K.told K.faults core.old self.old core.new self.new }
    {
        if core.has_left(self.user()) {
            return;
        }
        if closes {
            core.leave(self.user());
            return;
        }
        if self.go_on(core).is_ok() {
            return;
        }
        self.is_lost = true;
        core.leave(self.user());
    }

    // Goes on by one act, or leaves where the lines are done.
    fn go_on(&mut self, core: &mut Core) -> Result<(), WantOfMemory>
        requires user { IsTrue (is_user core.old.users self.old.session.user) }
        requires people { ArePeople core.old.users }
        requires stays { has_left core.old.journal self.old.session.user ≡ false }
        requires seated { IsOneSeated K.told K.faults core.old.journal self.old }
        ensures same { IsSameUser self.old.session self.new.session }
        ensures lost { self.new.is_lost ≡ self.old.is_lost }
        ensures grows { GrowsBy self.old.session.user core.old core.new }
        ensures goes_on { OnOk result (GoesOn core.old self.old.session core.new self.new.session) }
        ensures turn { OnOk result (TakesTurn K.told K.faults core.old self.old core.new self.new) }
        ensures stays { OnErr result (has_left core.new.journal self.old.session.user ≡ false) }
    {
        let intent = self.prepare()?;
        let came = self.enter(core, intent)?;
        self.hear(came.answer)
    }

    /// Finds what the user does at its next turn, before it has the turn: a session that waits for no answer goes on to its next
    /// act, or to the end of its lines. It takes the memory of that; after `WantOfMemory` the session has failed.
    pub fn prepare(&mut self) -> Result<Intent, WantOfMemory>
        ensures same { IsSameUser self.old.session self.new.session }
        ensures lost { self.new.is_lost ≡ self.old.is_lost }
        ensures finds { IfOk result (λ intent. Finds K.told K.faults self.old.session intent self.new.session) }
    {
        if self.session.stage() == SessionStage::Waiting {
            return Ok(Intent::TryAgain);
        }
        match self.session.go_on()? {
            Need::Answer => Ok(Intent::Make),
            Need::Nothing => Ok(Intent::Leave),
        }
    }

    /// What the user does, in its turn: one entry is made at the most. It takes the memory of the entry, and none for a leave;
    /// after `WantOfMemory` all is as before.
    pub fn enter(&self, core: &mut Core, intent: Intent) -> Result<TurnResult, WantOfMemory>
        requires user { IsTrue (is_user core.old.users self.now.session.user) }
        requires people { ArePeople core.old.users }
        requires stays { has_left core.old.journal self.now.session.user ≡ false }
        requires ready { (exchanges : List Exchange) × IsReady core.old.journal exchanges intent self.now.session }
        ensures one { IfOk result (λ came. IsOneIf came.is_entered self.now.session.user core.old core.new) }
        ensures brings { IfOk result (λ came. (exchanges : List Exchange) → IsReady core.old.journal exchanges intent self.now.session
            → Brings core.old exchanges self.now.session intent core.new (option_map plain_answer came.answer)) }
        ensures waiting { IfOk result (λ came. OnSome came.answer (self.now.session.stage ≡ SessionStage.Waiting)) }
        ensures err { OnErr result (core.new ≡ core.old) }
    {
        match intent {
            Intent::Make => self.make(core),
            Intent::TryAgain => self.retry(core),
            Intent::Leave => {
                core.leave(self.user());
                Ok(TurnResult {
                    is_entered: true,
                    answer: None,
                })
            }
        }
    }

    // Makes the act of its session. A user that waits comes to another act in a full journal alone, where a retry is answered as
    // the act is.
    fn make(&self, core: &mut Core) -> Result<TurnResult, WantOfMemory>
        requires user { IsTrue (is_user core.old.users self.now.session.user) }
        requires people { ArePeople core.old.users }
        requires stays { has_left core.old.journal self.now.session.user ≡ false }
        requires waiting { self.now.session.stage ≡ SessionStage.Waiting }
        requires asked { (exchanges : List Exchange) × AsksOwn core.old.journal exchanges self.now.session }
        ensures one { IfOk result (λ came. IsOneIf came.is_entered self.now.session.user core.old core.new) }
        ensures brings { IfOk result (λ came. (exchanges : List Exchange) → AsksOwn core.old.journal exchanges self.now.session
            → BringsFurther core.old exchanges self.now.session core.new (option_map plain_answer came.answer)) }
        ensures err { OnErr result (core.new ≡ core.old) }
    {
        if core.waits(self.user()) {
            return self.retry(core);
        }
        match self.session.act() {
            None => unreachable!(),
            Some(act) => self.step(core, act),
        }
    }

    // Makes an act of a user that does not wait.
    fn step(&self, core: &mut Core, act: &Act) -> Result<TurnResult, WantOfMemory>
        requires user { IsTrue (is_user core.old.users self.now.session.user) }
        requires people { ArePeople core.old.users }
        requires stays { has_left core.old.journal self.now.session.user ≡ false }
        requires waiting { self.now.session.stage ≡ SessionStage.Waiting }
        requires free { waits core.old.journal self.now.session.user ≡ false }
        requires asked { (exchanges : List Exchange) × AsksNow core.old.journal exchanges act.now self.now.session }
        ensures one { IfOk result (λ came. IsOneIf came.is_entered self.now.session.user core.old core.new) }
        ensures brings { IfOk result (λ came. (exchanges : List Exchange) → AsksNow core.old.journal exchanges act.now self.now.session
            → BringsFurther core.old exchanges self.now.session core.new (option_map plain_answer came.answer)) }
        ensures err { OnErr result (core.new ≡ core.old) }
    {
        let is_entered = !core.is_full();
        let answer = core.step_with(self.user(), act)?;
        Ok(TurnResult {
            is_entered,
            answer: Some(answer),
        })
    }

    // Tries the act again that the user waits for.
    fn retry(&self, core: &mut Core) -> Result<TurnResult, WantOfMemory>
        requires user { IsTrue (is_user core.old.users self.now.session.user) }
        requires people { ArePeople core.old.users }
        requires stays { has_left core.old.journal self.now.session.user ≡ false }
        requires waiting { self.now.session.stage ≡ SessionStage.Waiting }
        requires waits { IsTrue (waits core.old.journal self.now.session.user) }
        requires again { (exchanges : List Exchange) × TriesAgain core.old.journal exchanges self.now.session }
        ensures one { IfOk result (λ came. IsOneIf came.is_entered self.now.session.user core.old core.new) }
        ensures brings { IfOk result (λ came. (exchanges : List Exchange) → TriesAgain core.old.journal exchanges self.now.session
            → BringsOn core.old exchanges self.now.session core.new (option_map plain_answer came.answer)) }
        ensures err { OnErr result (core.new ≡ core.old) }
    {
        let has_room = !core.is_full();
        match core.retry(self.user())? {
            Retry::Now(answer) => Ok(TurnResult {
                is_entered: has_room,
                answer: Some(answer),
            }),
            Retry::StillHeld => Ok(TurnResult {
                is_entered: false,
                answer: None,
            }),
        }
    }

    /// Hands an answer to the session, if there is one, behind the turn; a session that is to wait hears none. It takes the memory
    /// of what the answer brings; after `WantOfMemory` the session has failed.
    pub fn hear(&mut self, answer: Option<Answer>) -> Result<(), WantOfMemory>
        requires { OnSome answer (self.old.session.stage ≡ SessionStage.Waiting) }
        ensures same { IsSameUser self.old.session self.new.session }
        ensures lost { self.new.is_lost ≡ self.old.is_lost }
        ensures ok { OnOk result (self.new ≡ record self.old { session = heard_if (option_map plain_answer answer) self.new.session self.old.session }) }
        ensures come { OnOk result ((lent : K) (exchanges : List Exchange) → HasCome K.told K.faults lent exchanges self.old.session → HasCome K.told K.faults lent exchanges self.new.session) }
        ensures err { OnErr result (self.new ≡ record self.old { session = record self.old.session { stage = SessionStage.Failed; inside = self.new.session.inside } }) }
        ensures none { answer ≡ None → IsOk result }
    {
        match answer {
            None => Ok(()),
            Some(answer) => self.hear_one(answer),
        }
    }

    // Hands an answer to the session, which waits on where it is `Held`.
    fn hear_one(&mut self, answer: Answer) -> Result<(), WantOfMemory>
        requires { self.old.session.stage ≡ SessionStage.Waiting }
        ensures same { IsSameUser self.old.session self.new.session }
        ensures lost { self.new.is_lost ≡ self.old.is_lost }
        ensures ok { OnOk result (self.new ≡ record self.old { session = heard (plain_answer answer) self.new.session self.old.session }) }
        ensures come { OnOk result ((lent : K) (exchanges : List Exchange) → HasCome K.told K.faults lent exchanges self.old.session → HasCome K.told K.faults lent exchanges self.new.session) }
        ensures err { OnErr result (self.new ≡ record self.old { session = record self.old.session { stage = SessionStage.Failed; inside = self.new.session.inside } }) }
    {
        match answer {
            Answer::Held(_) => Ok(()),
            other => self.session.answer(other),
        }
    }
}
