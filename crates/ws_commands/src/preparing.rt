ghost use Rattle.std.specs.Prelude.{◌≡◌, ◌≤◌, [], IfOk, IfSome, OnErr};
ghost use Rattle.std.specs.Option.{option_copied, option_map, option_or};
ghost use Rattle.apl_io.specs.Faults.{Rose};
ghost use Rattle.ws_commands.specs.Command.{plain_command};
ghost use Rattle.ws_commands.specs.Finish.{MayComeIn, workspace_brought};
ghost use Rattle.ws_commands.specs.Library.{copying, dropping, listing_library, loading};
ghost use Rattle.ws_commands.specs.Names.{clearing, ending_session};
ghost use Rattle.ws_commands.specs.Reading.{step_of_command, step_of};
ghost use Rattle.ws_commands.specs.Row.{row_of_word};
ghost use Rattle.ws_commands.specs.Shelf.{KeepsEntries, TakesStep};
ghost use Rattle.ws_commands.specs.Step.{named};
ghost use Rattle.ws_commands.specs.Todo.{faulted, given_up, plain_change, plain_todo};

use crate::command::{Command, command_of};
use crate::copying::copied;
use crate::erasing::erase;
use crate::identity::identify;
use crate::lines::text_line;
use crate::listing::{library_listed, list_names};
use crate::loading::loaded;
use crate::saving::{drop_saved, save};
use crate::todo::{Change, Todo, incorrect};
use crate::word::CommandWord;
use apl_arrays::{Line, LineList, Name, NameList, WantOfMemory};
use apl_io::Shelf;
use apl_workspace::{What, Workspace};
use std::alloc::Global;

/// What is to be done for a line that begins with `)`: the shared names to be retracted, the lines to be printed and whether
/// their glyphs are counted, the change, and the offers to be made again. `)SAVE` under a name or an id, `)LOAD`, `)COPY`,
/// `)DROP` and `)LIB` call the shelf once, with the number of the user, and no other line does. A call that fails is told by
/// LIBRARY FAULT alone, and only where the shelf's count of faults rose in it. It takes memory for all this and for what it
/// reads; `WantOfMemory` leaves the shelf as that call left it.
pub fn prepare<K: Shelf>(
    alloc: Global,
    line: &Line,
    ws: &Workspace,
    wsid: Option<&Name>,
    user: u32,
    shelf: &mut K,
) -> Result<Todo, WantOfMemory>
    requires frames { ws.now.frames ≡ [] }
    ensures todo { IfOk result (λ todo. TakesStep K.told K.faults user (step_of line.now.items ws.now (option_copied wsid.entry)) shelf.old (plain_todo todo) shelf.new) }
    ensures retract { IfOk result (λ todo. todo.retract.items ≡ given_up (plain_change todo.change) ws.now) }
    ensures fault { IfOk result (λ todo. plain_todo todo ≡ faulted → Rose (K.faults shelf.old) (K.faults shelf.new)) }
    ensures comes { IfOk result (λ todo. IfSome (workspace_brought (plain_change todo.change)) (MayComeIn ws.now)) }
    ensures kept { OnErr result (KeepsEntries (K.told shelf.old) (K.told shelf.new)) }
    ensures counted { K.faults shelf.old ≤ K.faults shelf.new }
{
    let command = command_of(alloc, line.as_slice())?;
    let todo = perform_known(alloc, &command, ws, wsid, user, shelf);
    drop(command);
    todo
}

// What is to be done for a command, where there is one.
fn perform_known<K: Shelf>(
    alloc: Global,
    command: &Option<Command>,
    ws: &Workspace,
    wsid: Option<&Name>,
    user: u32,
    shelf: &mut K,
) -> Result<Todo, WantOfMemory>
    requires frames { ws.now.frames ≡ [] }
    ensures ok { IfOk result (λ todo. TakesStep K.told K.faults user (step_of_command (option_map plain_command command.now) ws.now (option_copied wsid.entry)) shelf.old (plain_todo todo) shelf.new) }
    ensures kept { OnErr result (KeepsEntries (K.told shelf.old) (K.told shelf.new)) }
    ensures counted { K.faults shelf.old ≤ K.faults shelf.new }
{
    match command {
        None => incorrect(alloc),
        Some(command) => perform(alloc, command, ws, wsid, user, shelf),
    }
}

// What is to be done for a command: the arm of its word is the code of its row.
fn perform<K: Shelf>(
    alloc: Global,
    command: &Command,
    ws: &Workspace,
    wsid: Option<&Name>,
    user: u32,
    shelf: &mut K,
) -> Result<Todo, WantOfMemory>
    requires frames { ws.now.frames ≡ [] }
    ensures ok { IfOk result (λ todo. TakesStep K.told K.faults user ((row_of_word command.now.word).step (plain_command command.now) ws.now (option_copied wsid.entry)) shelf.old (plain_todo todo) shelf.new) }
    ensures kept { OnErr result (KeepsEntries (K.told shelf.old) (K.told shelf.new)) }
    ensures counted { K.faults shelf.old ≤ K.faults shelf.new }
{
    match command.word {
        CommandWord::Clear => clear(alloc, ws),
        CommandWord::Save => save(alloc, name_or(command.workspace, wsid), ws, user, shelf),
        CommandWord::Load => load(alloc, command, ws, user, shelf),
        CommandWord::CopyFrom => copy(alloc, command, ws, user, shelf),
        CommandWord::Remove => remove(alloc, command, user, shelf),
        CommandWord::Lib => list_library(alloc, user, shelf),
        CommandWord::Fns => list_names(alloc, What::Functions, ws),
        CommandWord::Vars => list_names(alloc, What::Variables, ws),
        CommandWord::Erase => erase(alloc, &command.objects, ws),
        CommandWord::Wsid => identify(alloc, command.workspace, wsid),
        CommandWord::Off => Ok(leave(alloc)),
    }
}

// The name that is given, else the id.
fn name_or(given: Option<Name>, wsid: Option<&Name>) -> Option<Name>
    ensures { result ≡ option_or given (option_copied wsid.entry) }
{
    match given {
        Some(name) => Some(name),
        None => wsid.copied(),
    }
}

// `)CLEAR`.
fn clear(alloc: Global, ws: &Workspace) -> Result<Todo, WantOfMemory>
    ensures { IfOk result (λ todo. plain_todo todo ≡ clearing ws.now) }
{
    let retract = ws.names(What::Shares)?;
    let lines = text_line(alloc, "CLEAR WS")?;
    Ok(Todo::retracting(alloc, retract, Change::Clear, lines))
}

// `)OFF`.
fn leave(alloc: Global) -> Todo
    ensures { plain_todo result ≡ ending_session }
{
    Todo::changing(alloc, Change::Off, LineList::new(alloc))
}

// `)LOAD`, of the name that is given.
fn load<K: Shelf>(
    alloc: Global,
    command: &Command,
    ws: &Workspace,
    user: u32,
    shelf: &mut K,
) -> Result<Todo, WantOfMemory>
    ensures ok { IfOk result (λ todo. TakesStep K.told K.faults user (named command.now.workspace (λ name. loading name ws.now)) shelf.old (plain_todo todo) shelf.new) }
    ensures kept { OnErr result (KeepsEntries (K.told shelf.old) (K.told shelf.new)) }
    ensures counted { K.faults shelf.old ≤ K.faults shelf.new }
{
    match &command.workspace {
        None => incorrect(alloc),
        Some(name) => load_named(alloc, name, ws, user, shelf),
    }
}

// The shelf is asked for the bytes under a name, for `)LOAD`.
fn load_named<K: Shelf>(
    alloc: Global,
    name: &Name,
    ws: &Workspace,
    user: u32,
    shelf: &mut K,
) -> Result<Todo, WantOfMemory>
    ensures ok { IfOk result (λ todo. TakesStep K.told K.faults user (loading name.now ws.now) shelf.old (plain_todo todo) shelf.new) }
    ensures kept { OnErr result (KeepsEntries (K.told shelf.old) (K.told shelf.new)) }
    ensures counted { K.faults shelf.old ≤ K.faults shelf.new }
{
    loaded(alloc, name, ws, shelf.read(user, name))
}

// `)COPY`, of the name that is given.
fn copy<K: Shelf>(
    alloc: Global,
    command: &Command,
    ws: &Workspace,
    user: u32,
    shelf: &mut K,
) -> Result<Todo, WantOfMemory>
    requires frames { ws.now.frames ≡ [] }
    ensures ok { IfOk result (λ todo. TakesStep K.told K.faults user (named command.now.workspace (λ name. copying name command.now.objects.items ws.now)) shelf.old (plain_todo todo) shelf.new) }
    ensures kept { OnErr result (KeepsEntries (K.told shelf.old) (K.told shelf.new)) }
    ensures counted { K.faults shelf.old ≤ K.faults shelf.new }
{
    match &command.workspace {
        None => incorrect(alloc),
        Some(name) => copy_named(alloc, name, &command.objects, ws, user, shelf),
    }
}

// The shelf is asked for the bytes under a name, for `)COPY`.
fn copy_named<K: Shelf>(
    alloc: Global,
    name: &Name,
    objects: &NameList,
    ws: &Workspace,
    user: u32,
    shelf: &mut K,
) -> Result<Todo, WantOfMemory>
    requires frames { ws.now.frames ≡ [] }
    ensures ok { IfOk result (λ todo. TakesStep K.told K.faults user (copying name.now objects.now.items ws.now) shelf.old (plain_todo todo) shelf.new) }
    ensures kept { OnErr result (KeepsEntries (K.told shelf.old) (K.told shelf.new)) }
    ensures counted { K.faults shelf.old ≤ K.faults shelf.new }
{
    copied(alloc, name, objects, ws, shelf.read(user, name))
}

// `)DROP`: the shelf is asked to take away what it has under a name.
fn remove<K: Shelf>(
    alloc: Global,
    command: &Command,
    user: u32,
    shelf: &mut K,
) -> Result<Todo, WantOfMemory>
    ensures ok { IfOk result (λ todo. TakesStep K.told K.faults user (named command.now.workspace dropping) shelf.old (plain_todo todo) shelf.new) }
    ensures kept { OnErr result (KeepsEntries (K.told shelf.old) (K.told shelf.new)) }
    ensures counted { K.faults shelf.old ≤ K.faults shelf.new }
{
    match &command.workspace {
        None => incorrect(alloc),
        Some(name) => drop_saved(alloc, name, user, shelf),
    }
}

// `)LIB`: the shelf is asked for its names.
fn list_library<K: Shelf>(alloc: Global, user: u32, shelf: &mut K) -> Result<Todo, WantOfMemory>
    ensures ok { IfOk result (λ todo. TakesStep K.told K.faults user listing_library shelf.old (plain_todo todo) shelf.new) }
    ensures kept { OnErr result (KeepsEntries (K.told shelf.old) (K.told shelf.new)) }
    ensures counted { K.faults shelf.old ≤ K.faults shelf.new }
{
    library_listed(alloc, shelf.names(user))
}
