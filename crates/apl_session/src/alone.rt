ghost use Rattle.std.specs.Prelude.{◌≡◌, ◌∷◌, [], ◌++◌, ℕ, List, None, OnOk};
ghost use Rattle.apl_machine.specs.Alone.{IsAlone, IsOnShared};
ghost use Rattle.apl_meaning.specs.Meaning.{most_statements};
ghost use Rattle.sv_events.specs.Answer.{PlainAnswer, plain_answer};
ghost use Rattle.session_rules.specs.Session.{statement_done};
ghost use Rattle.session_rules.specs.Shelf.{Exchange};
ghost use Rattle.apl_session.specs.Standing.{IsAt, IsBetween};

use crate::progress::Progress;
use apl_arrays::{Line, LineList, WantOfMemory};
use apl_machine::hear_alone;
use sv_events::{Act, Answer};

impl Progress {
    /// Does what the answer to an act does that a line is alone, and prints what the line prints. It takes memory for the
    /// value and for the lines; where that runs out, some of it may be done.
    pub(crate) fn hear(
        &mut self,
        line: &Line,
        act: &Act,
        answer: Answer,
    ) -> Result<(), WantOfMemory>
        requires free { self.old.terminal.definition ≡ None }
        requires shared { IsOnShared self.old.terminal.workspace act.now }
        ensures heard { OnOk result ((lines : List (List ℕ)) (answers : List PlainAnswer) (exchanges : List Exchange)
            → IsAt lines answers exchanges self.old.read (statement_done most_statements line.now.items) self.old.terminal → IsAlone self.old.terminal.workspace line.now.items act.now
            → IsBetween lines (answers ++ plain_answer answer ∷ []) exchanges self.old.read self.new.terminal) }
        ensures rest { self.new ≡ record self.old { terminal = self.new.terminal } }
    {
        let mut workspace = self.terminal.lend();
        let mut lines = LineList::new(self.alloc);
        let heard = hear_alone(self.alloc, &mut workspace, act, answer, &mut lines);
        self.terminal.take_back(workspace);
        self.print(lines)?;
        match heard {
            Ok(()) => Ok(()),
            Err(fail) => self.end_by(fail, line),
        }
    }
}
