ghost use Rattle.std.specs.Prelude.{◌≡◌, ◌++◌, IfOk, IfSome, IsTrue, OnOk};
ghost use Rattle.std.specs.List.Sorted.{IsStrictlySortedBy};
ghost use Rattle.std.specs.Option.{option_to_list};
ghost use Rattle.apl_arrays.specs.Name.{name_order};
ghost use Rattle.apl_workspace.specs.Seen.{plain_seen};
ghost use Rattle.line_trees.specs.Classes.{come_before};
ghost use Rattle.apl_meaning.specs.Reading.{argument_count, class_by, classes_among, classes_of};

use apl_arrays::{Name, WantOfMemory};
use apl_workspace::{Function, Seen, Workspace};
use line_trees::{Class, Classes};
use std::alloc::Global;

/// The classes of a workspace: of each name that is a function where it is seen innermost. It takes memory for them.
pub fn classes_of(alloc: Global, ws: &Workspace) -> Result<Classes, WantOfMemory>
    ensures { IfOk result (λ classes. classes.items ≡ classes_of ws.now) }
{
    let names = ws.all_names()?;
    classes_among(alloc, ws, names.as_slice())
}

// The classes of those of these names that are functions.
fn classes_among(alloc: Global, ws: &Workspace, names: &[Name]) -> Result<Classes, WantOfMemory>
    requires { IsStrictlySortedBy name_order names.now }
    ensures { IfOk result (λ classes. classes.items ≡ classes_among ws.now names.now) }
{
    let mut classes = Classes::new(alloc);
    for name in names {
        push_where(&mut classes, class_seen(*name, ws.look(name)))?;
    }
    Ok(classes)
}

// Adds a class, where there is one; its name comes behind all the others.
fn push_where(classes: &mut Classes, class: Option<Class>) -> Result<(), WantOfMemory>
    requires { IfSome class (λ last. IsTrue (come_before classes.old.items last.name)) }
    ensures { OnOk result (classes.new.items ≡ classes.old.items ++ option_to_list class) }
{
    match class {
        Some(class) => classes.push(class),
        None => Ok(()),
    }
}

// The class of a name that is seen as this, where it is a function.
fn class_seen(name: Name, seen: Seen<'_>) -> Option<Class>
    ensures { result ≡ class_by name (plain_seen seen.entry) }
{
    match seen {
        Seen::Function(function) => Some(Class {
            name,
            arguments: argument_count(function),
        }),
        _ => None,
    }
}

/// How many arguments a function takes.
pub fn argument_count(function: &Function) -> u8
    ensures { result ≡ argument_count function.now.header }
{
    let header = function.header();
    if header.left.is_some() {
        2
    } else if header.right.is_some() {
        1
    } else {
        0
    }
}
