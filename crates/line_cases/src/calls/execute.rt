use crate::calls::granting::{given, is_granted, kept, lent};
use crate::calls::letters::letter;
use anyhow::Result;
use apl_arrays::{Array, Fail, Items, Name, NameList};
use apl_execute::{Merged, merge, text_of};
use apl_workspace::{Seen, Workspace};
use case_fields::line_of;
use case_tables::{Calls, Looks};
use std::alloc::Global;

/// Characters that are executed as text, and names that one workspace takes over from another.
#[derive(Clone, Copy, Debug)]
pub struct Execute;

impl Calls for Execute {
    fn make(&self, alloc: Global, looks: &mut Looks) -> Result<()> {
        let names = Names {
            x: letter(b'X')?,
            y: letter(b'Y')?,
            s: letter(b'S')?,
            z: letter(b'Z')?,
        };
        take_text(alloc, looks)?;
        take_names_over(alloc, &names, looks)
    }
}

// Names of workspaces.
#[derive(Clone, Copy, Debug)]
struct Names {
    x: Name,
    y: Name,
    s: Name,
    z: Name,
}

fn take_text(alloc: Global, looks: &mut Looks) -> Result<()> {
    let a = letter(b'A')?;
    let line = line_of(alloc, "A")?;
    if line.as_slice().len() != 1 {
        looks.holds(false);
        return Ok(());
    }
    let value = Array::shaped(alloc, &[1], Items::Chars(line))?;
    let text = text_of(alloc, &value);
    drop(value);
    looks.holds(given(text)?.is_some_and(|text| text.as_slice() == a.glyphs()));
    Ok(())
}

// Whether these names were given numbers.
fn are_assigned(ws: &mut Workspace, numbers: &[(Name, i64)]) -> Result<bool> {
    for (name, number) in numbers {
        if matches!(ws.look(name), Seen::Shared(_)) {
            return Ok(false);
        }
        if !is_granted(ws.assign(name, Array::of_number(*number)))? {
            return Ok(false);
        }
    }
    Ok(true)
}

// A workspace in which names have numbers, or nothing where one is not granted.
fn with_numbers(alloc: Global, numbers: &[(Name, i64)]) -> Result<Option<Workspace>> {
    let mut ws = Workspace::new(alloc);
    let are_assigned = are_assigned(&mut ws, numbers);
    kept(ws, are_assigned)
}

// Whether a name is shared, with a number as its copy.
fn is_marked(ws: &mut Workspace, name: Name, number: i64) -> Result<bool> {
    if matches!(ws.global(&name), Seen::Function(_)) {
        return Ok(false);
    }
    is_granted(ws.mark(&name, Some(Array::of_number(number)), name, 0))
}

// A workspace that has X 8, and shares S with the copy 5, or nothing where that is not granted.
fn sharing(alloc: Global, names: &Names) -> Result<Option<Workspace>> {
    let Some(mut ws) = with_numbers(alloc, &[(names.x, 8)])? else {
        return Ok(None);
    };
    let is_shared = is_marked(&mut ws, names.s, 5);
    kept(ws, is_shared)
}

fn first_is(value: &Array, number: i64) -> bool {
    value.numbers().first() == Some(&number)
}

fn has_number(ws: &Workspace, name: &Name, number: i64) -> bool {
    match ws.look(name) {
        Seen::Value(value) => first_is(value, number),
        _ => false,
    }
}

fn shares_number(ws: &Workspace, name: &Name, number: i64) -> bool {
    match ws.look(name) {
        Seen::Shared(Some(copy)) => first_is(copy, number),
        _ => false,
    }
}

fn listed(alloc: Global, names: &[Name]) -> Result<NameList> {
    let mut list = NameList::new(alloc);
    for name in names {
        list.push(*name)?;
    }
    Ok(list)
}

// Whether a workspace has X 8, and shares S with the copy 5 and one offer.
fn is_as_made(ws: &Workspace, names: &Names) -> bool {
    has_number(ws, &names.x, 8) && shares_number(ws, &names.s, 5) && ws.weight() == 4
}

// What a merge gives, at the second time where memory was refused at the first and the workspace was then as it was made.
fn merged(
    alloc: Global,
    names: &Names,
    into: &Workspace,
    from: &Workspace,
    asked: Option<&NameList>,
) -> Option<Merged> {
    if into.depth() > 0 || from.depth() > 0 {
        return None;
    }
    match merge(alloc, into, from, asked) {
        Ok(done) => Some(done),
        Err(Fail::Report(_)) => None,
        Err(Fail::WantOfMemory) => {
            if !is_as_made(into, names) {
                return None;
            }
            merge(alloc, into, from, asked).ok()
        }
    }
}

// X, Z, S and once more X are taken over.
fn take_named(
    alloc: Global,
    names: &Names,
    into: &Workspace,
    from: &Workspace,
    looks: &mut Looks,
) -> Result<()> {
    let Names { x, s, z, .. } = *names;
    let asked = listed(alloc, &[x, z, s, x])?;
    let done = merged(alloc, names, into, from, Some(&asked));
    drop(asked);
    looks.holds(done.is_some());
    lent(done, looks, |done, looks| look_at_named(done, names, looks))
}

fn look_at_named(done: &Merged, names: &Names, looks: &mut Looks) -> Result<()> {
    let Names { x, y, s, z } = *names;
    let ws = &done.workspace;
    looks.holds(has_number(ws, &x, 3) && shares_number(ws, &s, 5));
    looks.holds(matches!(ws.look(&y), Seen::Nothing));
    looks.holds(ws.remakes()?.as_slice().len() == 1 && ws.weight() == 4);
    looks.holds(done.missing.as_slice() == [z].as_slice());
    looks.holds(done.shared.as_slice() == [s].as_slice());
    Ok(())
}

// All names are taken over.
fn take_all(
    alloc: Global,
    names: &Names,
    into: &Workspace,
    from: &Workspace,
    looks: &mut Looks,
) -> Result<()> {
    let done = merged(alloc, names, into, from, None);
    looks.holds(done.is_some());
    lent(done, looks, |done, looks| {
        look_at_all(done, names, looks);
        Ok(())
    })
}

fn look_at_all(done: &Merged, names: &Names, looks: &mut Looks) {
    let Names { x, y, s, .. } = *names;
    let ws = &done.workspace;
    looks.holds(has_number(ws, &x, 3) && has_number(ws, &y, 4));
    looks.holds(shares_number(ws, &s, 5) && ws.weight() == 6);
    looks.holds(done.missing.as_slice().is_empty());
    looks.holds(done.shared.as_slice() == [s].as_slice());
}

fn take_names_over(alloc: Global, names: &Names, looks: &mut Looks) -> Result<()> {
    let into = sharing(alloc, names)?;
    lent(
        into,
        looks,
        |into, looks| take_over(alloc, names, into, looks),
    )
}

fn take_over(alloc: Global, names: &Names, into: &Workspace, looks: &mut Looks) -> Result<()> {
    let from = with_numbers(alloc, &[(names.x, 3), (names.y, 4), (names.s, 6)])?;
    lent(from, looks, |from, looks| {
        take_named(alloc, names, into, from, looks)?;
        take_all(alloc, names, into, from, looks)
    })?;
    looks.holds(is_as_made(into, names) && into.remakes()?.as_slice().len() == 1);
    Ok(())
}
