ghost use Rattle.std.specs.Prelude.{◌≡◌, IsTrue};
ghost use Rattle.apl_workspace.specs.Frame.{AreArgumentsOf};
ghost use Rattle.apl_workspace.specs.Meaning.{is_function_meaning, is_variable_meaning};
ghost use Rattle.apl_workspace.specs.Workspace.{global_in};

use apl_arrays::Name;
use apl_workspace::{Args, Function, Seen, Workspace};

/// Whether a global name is a variable, shared or not.
pub fn is_variable(ws: &Workspace, name: &Name) -> bool
    ensures { result ≡ is_variable_meaning (global_in ws.now name.now) }
{
    matches!(ws.global(name), Seen::Value(_) | Seen::Shared(_))
}

/// Whether a global name is a function.
pub fn is_function(ws: &Workspace, name: &Name) -> bool
    ensures { result ≡ is_function_meaning (global_in ws.now name.now) }
{
    matches!(ws.global(name), Seen::Function(_))
}

/// Whether a function's header has these arguments.
pub fn takes(function: &Function, args: &Args) -> bool
    ensures { IsTrue result → AreArgumentsOf function.now.header args.now }
{
    let header = function.header();
    header.left.is_some() == args.left.is_some() && header.right.is_some() == args.right.is_some()
}
