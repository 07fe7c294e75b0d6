ghost use Rattle.std.specs.Prelude.{◌≡◌, []};
ghost use Rattle.apl_workspace.specs.Workspace.{without_globals};
ghost use Rattle.ws_commands.specs.Finish.{MayBeMade, MayComeIn, changed, changed_id, in_place_of, is_off};
ghost use Rattle.ws_commands.specs.Todo.{erase, given_up, plain_change};

use crate::Change;
use apl_arrays::Name;
use apl_workspace::Workspace;
use std::alloc::Global;
use std::mem;

/// Makes the change of a todo, and says whether it ends the session. The names that the todo wants retracted were, so that
/// none of those that the change gives up is shared. How many glyphs were printed is kept.
pub fn finish(alloc: Global, change: Change, ws: &mut Workspace, wsid: &mut Option<Name>) -> bool
    requires { MayBeMade (plain_change change) ws.old }
    ensures workspace { ws.new ≡ changed (plain_change change) ws.old }
    ensures id { wsid.new ≡ changed_id (plain_change change) wsid.old }
    ensures off { result ≡ is_off (plain_change change) }
{
    match change {
        Change::Keep => false,
        Change::Clear => {
            put_in_place(ws, Workspace::new(alloc));
            *wsid = None;
            false
        }
        Change::Replace(workspace, name) => {
            put_in_place(ws, workspace);
            *wsid = Some(name);
            false
        }
        Change::Swap(workspace) => {
            put_in_place(ws, workspace);
            false
        }
        Change::Erase(names) => {
            erase_all(ws, names.as_slice());
            false
        }
        Change::SetId(name) => {
            *wsid = Some(name);
            false
        }
        Change::Off => true,
    }
}

// Another workspace comes in place of this one. How many glyphs were printed is kept.
fn put_in_place(ws: &mut Workspace, workspace: Workspace)
    requires { MayComeIn ws.old workspace }
    ensures { ws.new ≡ in_place_of ws.old workspace }
{
    let mut workspace = workspace;
    workspace.count_printed(ws.printed() - workspace.printed());
    drop(mem::replace(ws, workspace));
}

// Global names are erased, none of which is a share. Some may not be there.
fn erase_all(ws: &mut Workspace, names: &[Name])
    requires { given_up (erase names.now) ws.old ≡ [] }
    ensures { ws.new ≡ without_globals ws.old names.now }
{
    let _ = ws.weight();
    for name in names {
        ws.erase(name);
    }
}
