use crate::calls::letters::letter;
use anyhow::Result;
use apl_arrays::{Array, Name, NameList};
use apl_workspace::{RemakeList, Seen, What, Workspace};

/// What a name stands for: a value by its first number, a function by how many lines it has.
#[derive(Clone, Copy, Debug, PartialEq, Eq)]
pub enum Meant {
    Nothing,
    Value(i64),
    Function(usize),
    Label(u32),
    Shared(i64),
}

// What a workspace tells of a name.
#[derive(Clone, Copy, Debug, PartialEq, Eq)]
struct Told {
    looked: Meant,
    global: Meant,
    is_local: bool,
    is_shared: bool,
}

/// All that a workspace tells, where X, F, B and L are its names.
#[derive(Debug, Drop, PartialEq)]
pub struct Account {
    told: [Told; 4],
    all_names: NameList,
    functions: NameList,
    variables: NameList,
    shares: NameList,
    offers: RemakeList,
    weight: usize,
    depth: usize,
    printed: u64,
}

fn first_of(value: &Array) -> i64 {
    value.numbers().first().copied().unwrap_or(0)
}

/// What a name stands for.
pub fn meant_by(seen: Seen<'_>) -> Meant {
    match seen {
        Seen::Nothing | Seen::Shared(None) => Meant::Nothing,
        Seen::Value(value) => Meant::Value(first_of(value)),
        Seen::Function(function) => Meant::Function(function.lines().len()),
        Seen::Label(line) => Meant::Label(line),
        Seen::Shared(Some(value)) => Meant::Shared(first_of(value)),
    }
}

fn told_of(ws: &Workspace, name: &Name) -> Told {
    Told {
        looked: meant_by(ws.look(name)),
        global: meant_by(ws.global(name)),
        is_local: ws.is_local(name),
        is_shared: ws.is_shared(name),
    }
}

fn account_of(ws: &Workspace) -> Result<Account> {
    Ok(Account {
        told: [
            told_of(ws, &letter(b'X')?),
            told_of(ws, &letter(b'F')?),
            told_of(ws, &letter(b'B')?),
            told_of(ws, &letter(b'L')?),
        ],
        all_names: ws.all_names()?,
        functions: ws.names(What::Functions)?,
        variables: ws.names(What::Variables)?,
        shares: ws.names(What::Shares)?,
        offers: ws.remakes()?,
        weight: ws.weight(),
        depth: ws.depth(),
        printed: ws.printed(),
    })
}

/// All that a workspace tells, at the second time where memory was refused at the first, or nothing where it tells it at
/// neither.
pub fn account_at_last(ws: &Workspace) -> Option<Account> {
    account_of(ws).or_else(|_| account_of(ws)).ok()
}

/// Whether a workspace tells what it told before.
pub fn tells(ws: &Workspace, before: &Account) -> bool {
    match account_at_last(ws) {
        None => false,
        Some(account) => {
            let is_same = account == *before;
            drop(account);
            is_same
        }
    }
}
