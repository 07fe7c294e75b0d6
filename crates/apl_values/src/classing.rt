ghost use Rattle.std.specs.Prelude.{◌≡◌, IfOk, map};
ghost use Rattle.std.specs.List.{list_all};
ghost use Rattle.apl_meaning.specs.Reading.{classes_of};
ghost use Rattle.line_scanner.specs.Token.{plain_kind, plain_token};
ghost use Rattle.apl_workspace.specs.Seen.{plain_seen};
ghost use Rattle.apl_values.specs.Classing.{AreEnough, counted, is_told, is_token_told, same_count};

use apl_arrays::{Name, WantOfMemory};
use apl_meaning::{argument_count, classes_of};
use apl_workspace::{Seen, Workspace};
use line_scanner::{Token, TokenKind, Tokens};
use line_trees::{Class, Classes};
use std::alloc::Global;

/// Classes that tell of each name among tokens what those of the workspace tell: none where no such name is a function, as
/// in most lines, else those of the names that are. It takes memory for them.
pub fn classes_for(
    alloc: Global,
    workspace: &Workspace,
    tokens: &Tokens,
) -> Result<Classes, WantOfMemory>
    ensures { IfOk result (λ classes. AreEnough classes.items (classes_of workspace.now) tokens.now.tokens.items) }
{
    let _weight = workspace.weight();
    let tokens = tokens.tokens.as_slice();
    let none = Classes::new(alloc);
    if tells_all(&none, workspace, tokens) {
        Ok(none)
    } else {
        classes_or_all(alloc, workspace, tokens)
    }
}

// The classes of the names among tokens, or of the workspace where these do not tell all.
fn classes_or_all(
    alloc: Global,
    workspace: &Workspace,
    tokens: &[Token],
) -> Result<Classes, WantOfMemory>
    ensures { IfOk result (λ classes. AreEnough classes.items (classes_of workspace.now) (map plain_token tokens.now)) }
{
    let _weight = workspace.weight();
    let few = classes_named(alloc, workspace, tokens)?;
    if tells_all(&few, workspace, tokens) {
        Ok(few)
    } else {
        classes_of(alloc, workspace)
    }
}

// The classes of those names among tokens that are functions.
fn classes_named(
    alloc: Global,
    workspace: &Workspace,
    tokens: &[Token],
) -> Result<Classes, WantOfMemory> {
    let mut names = Vec::new(alloc);
    for token in tokens {
        if let TokenKind::Name(name) = &token.kind {
            names.push(*name)?;
        }
    }
    names.sort()?;
    let mut classes = Classes::new(alloc);
    for name in names {
        add_class(&mut classes, workspace, name)?;
    }
    Ok(classes)
}

// Adds the class of a name that is a function, unless it is there.
fn add_class(classes: &mut Classes, workspace: &Workspace, name: Name) -> Result<(), WantOfMemory> {
    match workspace.look(&name) {
        Seen::Function(function) => add_behind(classes, name, argument_count(function)),
        _ => Ok(()),
    }
}

// Adds a class whose name comes behind all the others.
fn add_behind(classes: &mut Classes, name: Name, arguments: u8) -> Result<(), WantOfMemory> {
    if classes.come_before(&name) {
        classes.push(Class { name, arguments })
    } else {
        Ok(())
    }
}

/// Whether classes tell of each name among tokens what the workspace shows.
pub fn tells_all(classes: &Classes, workspace: &Workspace, tokens: &[Token]) -> bool
    ensures { result ≡ list_all (is_token_told workspace.now classes.now.items) (map plain_token tokens.now) }
{
    tokens
        .iter()
        .all(|token| tells_token(classes, workspace, token))
}

// Whether classes tell of a token what the workspace shows.
fn tells_token(classes: &Classes, workspace: &Workspace, token: &Token) -> bool
    ensures { result ≡ is_token_told workspace.now classes.now.items (plain_token token.now) }
{
    tells(classes, workspace, &token.kind)
}

// Whether classes tell of a token, where it is a name, what the workspace shows.
fn tells(classes: &Classes, workspace: &Workspace, kind: &TokenKind) -> bool
    ensures { result ≡ is_told workspace.now classes.now.items (plain_kind kind.now) }
{
    match kind {
        TokenKind::Name(name) => same_count(
            classes.arguments_of(name),
            count_seen(workspace.look(name)),
        ),
        _ => true,
    }
}

// How many arguments what is seen takes, where it is a function.
fn count_seen(seen: Seen<'_>) -> Option<u8>
    ensures { result ≡ counted (plain_seen seen.entry) }
{
    match seen {
        Seen::Function(function) => Some(argument_count(function)),
        _ => None,
    }
}

// Whether two counts of arguments are one.
fn same_count(one: Option<u8>, other: Option<u8>) -> bool
    ensures { result ≡ same_count one other }
{
    match (one, other) {
        (None, None) => true,
        (Some(one), Some(other)) => one == other,
        _ => false,
    }
}
