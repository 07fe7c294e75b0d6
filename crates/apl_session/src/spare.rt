ghost use Rattle.std.specs.Prelude.{◌≡◌, [], IfOk};
ghost use Rattle.apl_machine.specs.Machine.{IsIdle, idle_on};

use crate::under_way::boxed;
use apl_arrays::WantOfMemory;
use apl_machine::Machine;
use apl_workspace::Workspace;
use std::alloc::Global;
use std::marker::Model;
use std::mem;

/// The machine that a line left, if there is one: its memory serves the next line. Whoever looks at it sees nothing.
#[derive(Drop)]
pub struct Spare {
    machine: Option<Box<Machine>>,
}

impl Model for Spare {
    ghost use Rattle.std.specs.Prelude.{IfSome};
    ghost use Rattle.apl_machine.specs.Machine.{IsIdle};

    ghost Value = { Unit {0} };

    ghost view = { λ _. tt };

    ghost invariant = { λ s. IfSome s.machine (λ machine. IsIdle machine.value) };
}

impl Spare {
    /// No machine.
    pub fn new() -> Spare {
        Spare { machine: None }
    }

    /// A machine on a workspace, that which was left or a new one. It takes memory for a new one.
    pub fn take_on(
        &mut self,
        alloc: Global,
        workspace: Workspace,
    ) -> Result<Box<Machine>, WantOfMemory>
        requires { workspace.frames ≡ [] }
        ensures { IfOk result (λ machine. machine.value ≡ idle_on workspace) }
    {
        match self.machine.take() {
            Some(machine) => Ok(renewed(machine, workspace)),
            None => boxed(alloc, Machine::new(alloc, workspace)),
        }
    }

    /// Leaves the machine of a line that is over for the next line, and gives its workspace.
    pub fn leave(&mut self, machine: Box<Machine>) -> Workspace
        requires { IsIdle machine.value }
        ensures { result ≡ machine.value.interpreter.workspace }
    {
        let mut machine = machine;
        let workspace = machine.take_workspace();
        drop(mem::replace(&mut self.machine, Some(machine)));
        workspace
    }
}

// A machine that rested, on another workspace.
fn renewed(machine: Box<Machine>, workspace: Workspace) -> Box<Machine>
    requires idle { IsIdle machine.value }
    requires frames { workspace.frames ≡ [] }
    ensures { result.value ≡ idle_on workspace }
{
    let mut machine = machine;
    machine.renew(workspace);
    machine
}
