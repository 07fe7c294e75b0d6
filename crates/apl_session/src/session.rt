ghost use Rattle.std.specs.Prelude.{◌≡◌, ◌<◌, ◌∷◌, [], ◌++◌, ◌≢◌, List, IfOk, IfSome, IsErr, IsTrue, OnErr, OnOk, map, not};
ghost use Rattle.apl_arrays.specs.List.{glyphs_in};
ghost use Rattle.sv_events.specs.Answer.{PlainAnswer, plain_answer};
ghost use Rattle.session_rules.specs.Session.{session_of};
ghost use Rattle.session_rules.specs.Shelf.{Exchange, ShelfReply, shelf_replies_in};
ghost use Rattle.apl_session.specs.PlainSession.{GoesTo, HasCome, asked};
ghost use Rattle.apl_session.specs.Receipts.{acts_in, answers_in, plain_receipt};
ghost use Rattle.apl_session.specs.Standing.{SessionComesTo, MayAdvance, StandsIn, WithCalls};
ghost use Rattle.apl_session.specs.Wants.{HasHeardAll, IsOfPresent, MayGoOn, need_by, stage_by, wanted};
ghost use Rattle.sv_rules.specs.Entries.{is_leave};
ghost use Rattle.std.specs.Option.{option_copied};

use crate::progress::Progress;
use crate::receipts::{Receipt, Receipts};
use apl_arrays::{Line, LineList, WantOfMemory};
use apl_io::Shelf;
use apl_operators::Steps;
use std::alloc::Global;
use std::marker::{Brand, Model};
use std::sync::ledger::{Blank, Ledger};
use sv_events::{Act, Answer};

/// What a session asks of its driver.
#[derive(Debug, Drop)]
pub enum Wants {
    /// The answer to an act.
    Act(Act),
    /// Nothing more.
    Finished,
}

/// What a session that went on needs before it goes on further.
#[derive(Clone, Copy, Debug, PartialEq, Eq)]
pub enum Need {
    /// The answer to its act.
    Answer,
    /// Nothing: its lines are done.
    Nothing,
}

/// How far a session is.
#[derive(Clone, Copy, Debug, PartialEq, Eq)]
pub enum SessionStage {
    /// It can go on.
    Ready,
    /// It waits for the answer to an act.
    Waiting,
    /// All lines are done.
    Finished,
    /// Memory ran out, for good.
    Failed,
}

/// What a session leaves: its transcript, and the shelf that it was lent.
#[derive(Debug, Drop)]
pub struct SessionParts<K> {
    pub transcript: LineList,
    pub shelf: K,
}

/// One user's lines in their order, done as far as the answers to their acts are there, over the user's shelf. It is seen as the
/// user, the lines, the acts and the answers so far, how far it is, its shelf, and its inside, which `HasCome` explains.
#[derive(Drop)]
pub struct Session<K> {
    alloc: Global,
    user: u32,
    lines: LineList,
    receipts: Receipts,
    stage: SessionStage,
    progress: Progress,
    shelf: K,
}

impl<K> Model for Session<K> {
    ghost use Rattle.std.specs.Prelude.{◌≢◌};
    ghost use Rattle.apl_session.specs.PlainSession.{PlainSession};
    ghost use Rattle.apl_session.specs.Receipts.{acts_in, answers_in};
    ghost use Rattle.apl_session.specs.Standing.{IsAlive};
    ghost use Rattle.apl_session.specs.declared.session.SessionStage.TheVariants.{Failed};

    ghost Value = { PlainSession K };

    ghost view = { λ s. record { user = s.user; lines = s.lines.items; acts = acts_in s.receipts.items; answers = answers_in s.receipts.items; stage = s.stage; shelf = s.shelf; inside = s.progress } };

    ghost invariant = { λ s. s.stage ≢ Failed → IsAlive s.lines.items s.receipts.items s.progress s.stage };
}

impl<K: Shelf> Session<K> {
    /// The session of a user with these lines, of which none is done, over the user's shelf.
    pub fn new(alloc: Global, user: u32, lines: LineList, shelf: K) -> Session<K>
        ensures begins { result ≡ record { user = user; lines = lines.items; acts = []; answers = []; stage = SessionStage.Ready; shelf = shelf; inside = result.inside } }
        ensures come { HasCome K.told K.faults shelf [] result }
    {
        Session {
            alloc,
            user,
            lines,
            receipts: Receipts::new(alloc),
            stage: SessionStage::Ready,
            progress: Progress::new(alloc),
            shelf,
        }
    }

    /// The user whose session it is.
    pub fn user(&self) -> u32
        ensures { result ≡ self.now.user }
    {
        self.user
    }

    /// How far the session is.
    pub fn stage(&self) -> SessionStage
        ensures { result ≡ self.now.stage }
    {
        self.stage
    }

    /// Goes on to the next act, or to the end of the lines, and gives a copy of the act; a definition that is open there is
    /// dropped. Commands call the shelf with the number of the user. It takes the memory of what is evaluated and printed, and of
    /// the copy. After `WantOfMemory` the session has failed, and answers it for good.
    pub fn next(&mut self) -> Result<Wants, WantOfMemory>
        requires { MayGoOn self.old.stage }
        ensures goes { OnOk result ((lent : K) (exchanges : List Exchange) → HasCome K.told K.faults lent exchanges self.old → GoesTo K.told K.faults lent exchanges self.new) }
        ensures same { self.new ≡ record self.old { stage = self.new.stage; shelf = self.new.shelf; inside = self.new.inside } }
        ensures wants { IfOk result (λ wants. wanted wants ≡ asked self.new) }
        ensures stage { IfOk result (λ wants. self.new.stage ≡ stage_by (wanted wants)) }
        ensures present { IfOk result IsOfPresent }
        ensures err { OnErr result (self.new.stage ≡ SessionStage.Failed) }
        ensures for_good { self.old.stage ≡ SessionStage.Failed → IsErr result }
    {
        match self.go_on()? {
            Need::Nothing => Ok(Wants::Finished),
            Need::Answer => self.copied_act(),
        }
    }

    // A copy of the act that waits for its answer, for the driver. After `WantOfMemory` the session has failed.
    fn copied_act(&mut self) -> Result<Wants, WantOfMemory>
        requires { self.old.stage ≡ SessionStage.Waiting }
        ensures wants { IfOk result (λ wants. wanted wants ≡ asked self.new) }
        ensures same { OnOk result (self.new ≡ self.old) }
        ensures present { IfOk result IsOfPresent }
        ensures failed { OnErr result (self.new ≡ record self.old { stage = SessionStage.Failed }) }
    {
        match self.act() {
            None => Ok(Wants::Finished),
            Some(act) => match act.copy(self.alloc) {
                Ok(act) => Ok(Wants::Act(act)),
                Err(WantOfMemory) => {
                    self.stage = SessionStage::Failed;
                    Err(WantOfMemory)
                }
            },
        }
    }

    /// The same with no copy: `act` gives the act that waits then.
    pub fn go_on(&mut self) -> Result<Need, WantOfMemory>
        requires { MayGoOn self.old.stage }
        ensures goes { OnOk result ((lent : K) (exchanges : List Exchange) → HasCome K.told K.faults lent exchanges self.old → GoesTo K.told K.faults lent exchanges self.new) }
        ensures same { self.new ≡ record self.old { stage = self.new.stage; shelf = self.new.shelf; inside = self.new.inside } }
        ensures need { IfOk result (λ need. need ≡ need_by (asked self.new)) }
        ensures stage { OnOk result (self.new.stage ≡ stage_by (asked self.new)) }
        ensures err { OnErr result (self.new.stage ≡ SessionStage.Failed) }
        ensures for_good { self.old.stage ≡ SessionStage.Failed → IsErr result }
    {
        if self.stage == SessionStage::Failed {
            return Err(WantOfMemory);
        }
        self.stage = SessionStage::Failed;
        advance::<Brand, K>(
            &mut self.progress,
            self.lines.as_slice(),
            self.user,
            &mut self.shelf,
            Blank::new(1),
        )?;
        if self.progress.has_open_act() {
            self.stage = SessionStage::Waiting;
            Ok(Need::Answer)
        } else {
            self.stage = SessionStage::Finished;
            Ok(Need::Nothing)
        }
    }

    /// The act that waits for its answer, if one does; it is no leave.
    pub fn act(&self) -> Option<&Act>
        ensures act { option_copied result ≡ asked self.now }
        ensures present { self.now.stage ≢ SessionStage.Failed → IfSome (option_copied result) (λ act. IsTrue (not (is_leave act))) }
    {
        self.progress.open_act()
    }

    /// Gives the answer to the act that waits. A line that is this act alone is done then, and so is what the answer does for a
    /// command; nothing else is evaluated. It takes memory for the receipt, and for what such lines print. After `WantOfMemory`
    /// the session has failed.
    pub fn answer(&mut self, answer: Answer) -> Result<(), WantOfMemory>
        requires { self.old.stage ≡ SessionStage.Waiting }
        ensures come { OnOk result ((lent : K) (exchanges : List Exchange) → HasCome K.told K.faults lent exchanges self.old → HasCome K.told K.faults lent exchanges self.new) }
        ensures ok { OnOk result (self.new ≡ record self.old { acts = self.new.acts; answers = self.old.answers ++ plain_answer answer ∷ []; stage = SessionStage.Ready; inside = self.new.inside }) }
        ensures err { OnErr result (self.new ≡ record self.old { stage = SessionStage.Failed; inside = self.new.inside }) }
    {
        self.stage = SessionStage::Failed;
        let told = answer.copy(self.alloc)?;
        let act = self.progress.take_answer(self.lines.as_slice(), answer)?;
        self.receipts.push(Receipt { act, answer: told })?;
        self.stage = SessionStage::Ready;
        Ok(())
    }

    /// The lines that were echoed and printed so far.
    pub fn transcript(&self) -> &[Line]
        ensures { HasHeardAll self.now.stage → (lent : K) (exchanges : List Exchange) → HasCome K.told K.faults lent exchanges self.now
            → (more : List ShelfReply) → map glyphs_in result.now ≡ (session_of self.now.lines self.now.answers (shelf_replies_in exchanges ++ more)).terminal.transcript }
    {
        self.progress.transcript()
    }

    /// The acts that were answered so far, with their answers.
    pub fn receipts(&self) -> &[Receipt]
        ensures answers { answers_in (map plain_receipt result.now) ≡ self.now.answers }
        ensures acts { acts_in (map plain_receipt result.now) ≡ self.now.acts }
    {
        self.receipts.as_slice()
    }

    /// The lines that were echoed and printed, and the shelf.
    pub fn into_parts(self) -> SessionParts<K>
        ensures transcript { HasHeardAll self.stage → (lent : K) (exchanges : List Exchange) → HasCome K.told K.faults lent exchanges self
            → (more : List ShelfReply) → result.transcript.items ≡ (session_of self.lines self.answers (shelf_replies_in exchanges ++ more)).terminal.transcript }
        ensures shelf { result.shelf ≡ self.shelf }
    {
        SessionParts {
            transcript: self.progress.into_transcript(),
            shelf: self.shelf,
        }
    }
}

// Goes on, and counts the applications for nobody.
fn advance<L: Ledger, K: Shelf>(
    progress: &mut Progress,
    lines: &[Line],
    user: u32,
    shelf: &mut K,
    blank: Blank,
) -> Result<(), WantOfMemory>
    requires may { MayAdvance progress.old.terminal progress.old.under_way }
    requires name { blank.name ≡ L.name }
    requires parts { blank.parts ≡ L.parts }
    requires some { 0 < blank.parts }
    ensures { OnOk result ((answers : List PlainAnswer) (exchanges : List Exchange) → StandsIn (map glyphs_in lines.now) answers exchanges progress.old
        → WithCalls K.told K.faults user shelf.old shelf.new exchanges (λ all. SessionComesTo (map glyphs_in lines.now) answers all progress.new)) }
{
    let mut steps = Steps::<L>::new(blank);
    progress.advance(lines, user, shelf, &mut steps)
}
