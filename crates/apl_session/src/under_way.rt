ghost use Rattle.std.specs.Prelude.{◌≡◌, IfOk};

use crate::errand::Errand;
use apl_arrays::WantOfMemory;
use apl_machine::Machine;
use std::alloc::Global;
use sv_events::Act;

/// The line that is under way, if one is: its machine stays in one place until the line is over, and what is left of a command
/// is put into one before each act.
#[derive(Drop)]
pub enum UnderWay {
    /// No line is.
    Nothing,
    /// A line is this act alone, which has no answer yet.
    Alone(Act),
    /// A line asked this act, which has no answer yet.
    Asking(Box<Machine>, Act),
    /// A line asked an act, which was answered.
    Answered(Box<Machine>),
    /// A command asked this act, which has no answer yet.
    Commanding(Box<Errand>, Act),
    /// A command asked an act, which was answered.
    Commanded(Box<Errand>),
}

/// A machine in a place of its own. It takes memory for it.
pub fn boxed(alloc: Global, machine: Machine) -> Result<Box<Machine>, WantOfMemory>
    ensures { IfOk result (λ boxed. boxed.value ≡ machine) }
{
    Ok(Box::new(alloc, machine)?)
}

/// What is left of a command in a place of its own. It takes memory for it.
pub fn boxed_errand(alloc: Global, errand: Errand) -> Result<Box<Errand>, WantOfMemory>
    ensures { IfOk result (λ boxed. boxed.value ≡ errand) }
{
    Ok(Box::new(alloc, errand)?)
}
