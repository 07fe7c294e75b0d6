ghost use Rattle.std.specs.Prelude.{◌≡◌, ◌≤◌, true, false, Some, Ok, IsOk, IsSome, OnOk, OnErr, IfErr, is_some};
ghost use Rattle.apl_arrays.specs.Array.{scalar};
ghost use Rattle.apl_workspace.specs.Function.{IsFunction};
ghost use Rattle.apl_workspace.specs.Limits.{most_weight};
ghost use Rattle.apl_workspace.specs.Meaning.{IsGlobal, is_shared_meaning, is_variable_meaning, meaning_in};
ghost use Rattle.apl_workspace.specs.Workspace.{IsFull, IsNotAssigned, assigned, global_in, is_assignable, is_shared, is_there, look, with_global, without_global, workspace_weight};

use crate::frames::{innermost_place, put_innermost};
use crate::limits::WEIGHT_LIMIT;
use crate::{Function, Meaning, Seen, Workspace};
use apl_arrays::{Array, Fail, Name, Report};

impl Workspace {
    /// Gives a name a value where a look-up finds the name: in a frame, or as a global. `Syntax` where the name is a
    /// label or a function, else `WsFull` where the workspace would weigh more than it may, each also where there is
    /// no memory; a refusal leaves the workspace as it was. It takes memory for a new global name.
    pub fn assign(&mut self, name: &Name, value: Array) -> Result<(), Fail>
        requires { is_shared_meaning (look self.old name.now) ≡ false }
        ensures ok { OnOk result (self.new ≡ assigned self.old name.now value) }
        ensures assignable { OnOk result (is_assignable (look self.old name.now) ≡ true) }
        ensures fits { OnOk result (workspace_weight (assigned self.old name.now value) ≤ most_weight) }
        ensures err { OnErr result (self.new ≡ self.old) }
        ensures refused { IfErr result (IsNotAssigned (is_there self.old name.now) (is_assignable (look self.old name.now)) (assigned self.old name.now value)) }
    {
        if !self.is_assignable(name) {
            drop(value);
            return Err(Fail::Report(Report::Syntax));
        }
        self.give(name, value)
    }

    /// Gives a name a number as `assign` does, unless it is shared: then nothing changes. It tells whether it was given.
    pub fn assign_number(&mut self, name: &Name, number: i64) -> Result<bool, Fail>
        ensures given { result ≡ Ok true → (is_shared_meaning (look self.old name.now) ≡ false) × (self.new ≡ assigned self.old name.now (scalar number)) }
        ensures shared { result ≡ Ok false → (is_shared_meaning (look self.old name.now) ≡ true) × (self.new ≡ self.old) }
        ensures assignable { OnOk result (is_assignable (look self.old name.now) ≡ true) }
        ensures fits { result ≡ Ok true → workspace_weight (assigned self.old name.now (scalar number)) ≤ most_weight }
        ensures err { OnErr result (self.new ≡ self.old) }
        ensures refused { IfErr result (IsNotAssigned (is_there self.old name.now) (is_assignable (look self.old name.now)) (assigned self.old name.now (scalar number))) }
    {
        match self.look(name) {
            Seen::Function(_) | Seen::Label(_) => Err(Fail::Report(Report::Syntax)),
            Seen::Shared(_) => Ok(false),
            Seen::Nothing | Seen::Value(_) => {
                self.give(name, Array::of_number(number))?;
                Ok(true)
            }
        }
    }

    /// Defines a function under its name, in place of one that is there. `WsFull` where the workspace would weigh more
    /// than it may, also where there is no memory; it leaves the workspace as it was, and so does `WantOfMemory`. It takes
    /// memory for a name that is not there yet.
    pub fn define(&mut self, function: Function) -> Result<(), Fail>
        requires whole { IsFunction function }
        requires no_variable { is_variable_meaning (global_in self.old function.header.name) ≡ false }
        ensures ok { OnOk result (self.new ≡ with_global self.old function.header.name (Meaning.Function function)) }
        ensures fits { OnOk result (workspace_weight (with_global self.old function.header.name (Meaning.Function function)) ≤ most_weight) }
        ensures err { OnErr result (self.new ≡ self.old) }
        ensures full { IfErr result (IsFull (with_global self.old function.header.name (Meaning.Function function))) }
        ensures there { IsSome (meaning_in self.old.globals function.header.name) → IfErr result (λ fail. fail ≡ Fail.Report Report.WsFull) }
    {
        let name = function.name();
        self.put_global(name, Meaning::Function(function))
    }

    /// Takes a global name out, and tells whether it was there.
    #[tactic(auto, using(crate::proofs::Tables::erasing_is_lighter))]
    pub fn erase(&mut self, name: &Name) -> bool
        requires { is_shared self.old name.now ≡ false }
        ensures there { result ≡ is_some (meaning_in self.old.globals name.now) }
        ensures others { self.new ≡ without_global self.old name.now }
    {
        self.globals.remove(name).is_some()
    }

    /// Whether a value may be assigned to what the name stands for.
    fn is_assignable(&self, name: &Name) -> bool
        ensures { result ≡ is_assignable (look self.now name.now) }
    {
        !matches!(self.look(name), Seen::Function(_) | Seen::Label(_))
    }

    /// The name has this value: in the innermost frame that has the name, else globally. `WsFull` where the workspace
    /// would weigh more than it may; it leaves the workspace as it was, and so does `WantOfMemory`.
    fn give(&mut self, name: &Name, value: Array) -> Result<(), Fail>
        requires { is_shared_meaning (look self.old name.now) ≡ false }
        ensures ok { OnOk result (self.new ≡ assigned self.old name.now value) }
        ensures fits { OnOk result (workspace_weight (assigned self.old name.now value) ≤ most_weight) }
        ensures err { OnErr result (self.new ≡ self.old) }
        ensures full { IfErr result (IsFull (assigned self.old name.now value)) }
        ensures there { is_there self.old name.now ≡ true → IfErr result (λ fail. fail ≡ Fail.Report Report.WsFull) }
    {
        let value = Meaning::Value(value);
        match innermost_place(&self.frames, name) {
            None => self.put_global(*name, value),
            Some(at) => {
                let most = WEIGHT_LIMIT - self.globals.weight();
                let frames = &mut self.frames;
                match put_innermost(frames, at, self.frames_weight, *name, value, most) {
                    Ok(weight) => {
                        self.frames_weight = weight;
                        Ok(())
                    }
                    Err(fail) => Err(fail),
                }
            }
        }
    }

    /// The global name stands for this. `WsFull` where the workspace would weigh more than it may; it leaves the
    /// workspace as it was, and so does `WantOfMemory`.
    pub(super) fn put_global(&mut self, name: Name, meaning: Meaning) -> Result<(), Fail>
        requires is_global { IsGlobal name meaning }
        requires stays_shared { is_shared self.old name ≡ true → is_shared_meaning meaning ≡ true }
        ensures ok { OnOk result (self.new ≡ with_global self.old name meaning) }
        ensures fits { OnOk result (workspace_weight (with_global self.old name meaning) ≤ most_weight) }
        ensures err { OnErr result (self.new ≡ self.old) }
        ensures full { IfErr result (IsFull (with_global self.old name meaning)) }
        ensures granted { IsSome (meaning_in self.old.globals name) → workspace_weight (with_global self.old name meaning) ≤ most_weight → IsOk result }
        ensures there { IsSome (meaning_in self.old.globals name) → IfErr result (λ fail. fail ≡ Fail.Report Report.WsFull) }
    {
        let most = WEIGHT_LIMIT - self.frames_weight;
        self.globals.put(name, meaning, most)
    }
}
