ghost use Rattle.std.specs.Prelude.{◌≡◌, ◌≤◌, ◌∷◌, ◌++◌, [], false, true, None, if◌then◌else◌, All, IfErr, IfOk, OnErr, OnOk, filter, is_some};
ghost use Rattle.std.specs.Option.{option_map};
ghost use Rattle.apl_workspace.specs.Limits.{most_weight};
ghost use Rattle.apl_workspace.specs.Meaning.{meaning_in};
ghost use Rattle.apl_execute.specs.Copying.{MayCome};
ghost use Rattle.apl_workspace.specs.Names.{all_differ};
ghost use Rattle.apl_workspace.specs.Seen.{plain_seen};
ghost use Rattle.apl_workspace.specs.Workspace.{IsFull, is_shared, workspace_weight};
ghost use Rattle.apl_execute.specs.Merge.{IsNotMerged, asked, copied_as, copy_in, each_once, is_copied, is_kept, is_missing, merged, with_copies, with_name_copied, with_names};

use crate::weighing::fits;
use apl_arrays::{Fail, List, Name, NameList, Report, WantOfMemory};
use apl_workspace::{Seen, Workspace};
use std::alloc::Global;
use std::collections::BTreeSet;

/// A workspace with names copied into it, and of those asked for the names that the other lacks and the others that are
/// shared, which stay as they were.
#[derive(Drop)]
pub struct Merged {
    pub workspace: Workspace,
    pub missing: NameList,
    pub shared: NameList,
}

/// Copies names of one workspace into another: those asked for, each once, or all. `WsFull` where the workspace would weigh
/// more than it may with all of them, also where there is no memory. Marks, offers and all other names are as they were. It
/// takes memory for the workspace and the lists of names.
#[tactic(auto, using(crate::proofs::Weights::wants_memory))]
pub fn merge(
    alloc: Global,
    into: &Workspace,
    from: &Workspace,
    names: Option<&NameList>,
) -> Result<Merged, Fail>
    requires into { into.now.frames ≡ [] }
    requires from { from.now.frames ≡ [] }
    ensures workspace { IfOk result (λ done. done.workspace ≡ merged into.now from.now (option_map (λ asked. asked.now.items) names.entry)) }
    ensures fits { OnOk result (workspace_weight (merged into.now from.now (option_map (λ asked. asked.now.items) names.entry)) ≤ most_weight) }
    ensures missing { IfOk result (λ done. done.missing.items ≡ filter (is_missing from.now) (asked from.now (option_map (λ asked. asked.now.items) names.entry))) }
    ensures shared { IfOk result (λ done. done.shared.items ≡ filter (is_kept into.now from.now) (asked from.now (option_map (λ asked. asked.now.items) names.entry))) }
    ensures full { IfErr result (IsFull (merged into.now from.now (option_map (λ asked. asked.now.items) names.entry))) }
{
    if !fits(into, from, names) {
        return Err(Fail::Report(Report::WsFull));
    }
    let asked = asked(alloc, from, names)?;
    let copied = copied(alloc, into, from, asked.as_slice())?;
    Ok(Merged {
        workspace: with_names(alloc, into, from, copied.as_slice())?,
        missing: missing(alloc, from, asked.as_slice())?,
        shared: kept(alloc, into, from, asked.as_slice())?,
    })
}

// The names that are asked for: these, each once, or all of a workspace.
#[tactic(auto, using(apl_workspace::proofs::NameLaw::ascending_differ))]
fn asked(
    alloc: Global,
    from: &Workspace,
    names: Option<&NameList>,
) -> Result<NameList, WantOfMemory>
    ensures value { IfOk result (λ list. list.items ≡ asked from.now (option_map (λ asked. asked.now.items) names.entry)) }
    ensures differ { IfOk result (λ list. all_differ list.items ≡ true) }
{
    match names {
        None => from.all_names(),
        Some(names) => each_once(alloc, names.as_slice()),
    }
}

// The names, each once, where it is first mentioned.
#[tactic(auto, using(crate::proofs::MergeLaw::mentioned_once))]
fn each_once(alloc: Global, names: &[Name]) -> Result<NameList, WantOfMemory>
    ensures value { IfOk result (λ list. list.items ≡ each_once names.now) }
    ensures differ { all_differ (each_once names.now) ≡ true }
{
    let mut mentioned = BTreeSet::new(alloc);
    let mut list = List::new(alloc);
    for name in names {
        let new = mentioned.insert(*name)?;
        mention(&mut list, new, *name)?;
    }
    Ok(list)
}

// Adds a name that is mentioned for the first time.
fn mention(list: &mut NameList, new: bool, name: Name) -> Result<(), WantOfMemory>
    ensures { OnOk result (list.new.items ≡ (if new then list.old.items ++ name ∷ [] else list.old.items)) }
{
    if new {
        list.push(name)?;
    }
    Ok(())
}

/// Whether something is copied of a global.
pub fn has_copy(seen: Seen<'_>) -> bool
    ensures { result ≡ is_some (copied_as (plain_seen seen.entry)) }
{
    match seen {
        Seen::Value(_) | Seen::Function(_) | Seen::Shared(Some(_)) => true,
        Seen::Nothing | Seen::Label(_) | Seen::Shared(None) => false,
    }
}

// The names that a workspace lacks.
fn missing(alloc: Global, from: &Workspace, asked: &[Name]) -> Result<NameList, WantOfMemory>
    ensures { IfOk result (λ list. list.items ≡ filter (is_missing from.now) asked.now) }
{
    let mut list = List::new(alloc);
    for name in asked {
        if !has_copy(from.global(name)) {
            list.push(*name)?;
        }
    }
    Ok(list)
}

// The names that are there, and stay as they are because they are shared.
fn kept(
    alloc: Global,
    into: &Workspace,
    from: &Workspace,
    asked: &[Name],
) -> Result<NameList, WantOfMemory>
    ensures { IfOk result (λ list. list.items ≡ filter (is_kept into.now from.now) asked.now) }
{
    let mut list = List::new(alloc);
    for name in asked {
        if has_copy(from.global(name)) && into.is_shared(name) {
            list.push(*name)?;
        }
    }
    Ok(list)
}

// The names that are copied.
#[tactic(auto, using(apl_workspace::proofs::NameLaw::differ_picked))]
fn copied(
    alloc: Global,
    into: &Workspace,
    from: &Workspace,
    asked: &[Name],
) -> Result<NameList, WantOfMemory>
    requires { all_differ asked.now ≡ true }
    ensures value { IfOk result (λ list. list.items ≡ filter (is_copied into.now from.now) asked.now) }
    ensures differ { all_differ (filter (is_copied into.now from.now) asked.now) ≡ true }
    ensures unshared { All (λ name. is_shared into.now name ≡ false) (filter (is_copied into.now from.now) asked.now) }
{
    let mut list = List::new(alloc);
    for name in asked {
        if has_copy(from.global(name)) && !into.is_shared(name) {
            list.push(*name)?;
        }
    }
    Ok(list)
}

// The workspace with names as another has them: all others are copied, and these come from there.
fn with_names(
    alloc: Global,
    into: &Workspace,
    from: &Workspace,
    names: &[Name],
) -> Result<Workspace, Fail>
    requires into { into.now.frames ≡ [] }
    requires unshared { All (λ name. is_shared into.now name ≡ false) names.now }
    requires differ { all_differ names.now ≡ true }
    ensures ok { IfOk result (λ workspace. workspace ≡ with_names into.now from.now names.now) }
    ensures fits { OnOk result (workspace_weight (with_names into.now from.now names.now) ≤ most_weight) }
    ensures full { IfErr result (IsNotMerged (with_names into.now from.now names.now)) }
{
    let mut workspace = into.copy_without(names)?;
    put_all(alloc, &mut workspace, from, names)?;
    let _ = workspace.weight();
    Ok(workspace)
}

// Puts names in that are not there, as another workspace has them. A refusal leaves some of them in.
fn put_all(alloc: Global, ws: &mut Workspace, from: &Workspace, names: &[Name]) -> Result<(), Fail>
    requires frames { ws.old.frames ≡ [] }
    requires may { MayCome ws.old.globals names.now }
    ensures ok { OnOk result (ws.new ≡ record ws.old { globals = with_copies from.now ws.old.globals names.now }) }
    ensures full { IfErr result (IsNotMerged (record ws.old { globals = with_copies from.now ws.old.globals names.now })) }
{
    for name in names {
        match put_copy(alloc, ws, from, name) {
            Ok(()) => {}
            Err(fail) => return Err(fail),
        }
    }
    Ok(())
}

// Puts a name in that is not there, as another workspace has it. `WsFull` also where there is no memory.
fn put_copy(alloc: Global, ws: &mut Workspace, from: &Workspace, name: &Name) -> Result<(), Fail>
    requires frames { ws.old.frames ≡ [] }
    requires absent { meaning_in ws.old.globals name.now ≡ None }
    ensures ok { OnOk result (ws.new ≡ record ws.old { globals = with_name_copied ws.old.globals name.now (copy_in from.now name.now) }) }
    ensures err { OnErr result (ws.new ≡ ws.old) }
    ensures full { IfErr result (IsFull (record ws.old { globals = with_name_copied ws.old.globals name.now (copy_in from.now name.now) })) }
{
    match from.global(name) {
        Seen::Value(value) | Seen::Shared(Some(value)) => match value.copy(alloc) {
            Ok(copy) => ws.assign(name, copy),
            Err(WantOfMemory) => Err(no_copy(ws.takes(name, value))),
        },
        Seen::Function(function) => match function.copy(alloc) {
            Ok(copy) => ws.define(copy),
            Err(WantOfMemory) => Err(no_copy(ws.has_room(name, function.weight()))),
        },
        Seen::Nothing | Seen::Label(_) | Seen::Shared(None) => Ok(()),
    }
}

// Why there is no copy of what would fit, or would not.
fn no_copy(fits: bool) -> Fail
    ensures { result ≡ (if fits then Fail.WantOfMemory else Fail.Report Report.WsFull) }
{
    if fits {
        Fail::WantOfMemory
    } else {
        Fail::Report(Report::WsFull)
    }
}
