ghost use Rattle.std.specs.Prelude.{◌≡◌, None, Some, IfOk, MatchOption};
ghost use Rattle.std.specs.List.{list_any};
ghost use Rattle.std.specs.Option.{option_map};
ghost use Rattle.ws_commands.specs.Command.{is_delta, names_in, objects_in, with_words, workspace_in, workspace_name};
ghost use Rattle.ws_commands.specs.Words.{words_in};

use crate::word::Need;
use crate::words::first_word;
use apl_arrays::{Glyph, Name, NameList, WantOfMemory};
use std::alloc::Global;

// Whether a ∆ is among glyphs.
fn has_delta(glyphs: &[Glyph]) -> bool
    ensures { result ≡ list_any is_delta glyphs.now }
{
    glyphs.iter().any(|glyph| *glyph == Glyph::DELTA)
}

// The name of a workspace that a word is.
fn workspace_name(word: &[Glyph]) -> Option<Name>
    ensures { result ≡ workspace_name word.now }
{
    let name = Name::of(word)?;
    if has_delta(word) {
        return None;
    }
    Some(name)
}

// The name of a workspace, and what stands behind it, where the word in front is one.
fn with_rest<'a>(name: Option<Name>, rest: &'a [Glyph]) -> Option<(Option<Name>, &'a [Glyph])>
    ensures { MatchOption result (with_words name (words_in rest.now) ≡ None) (λ found. with_words name (words_in rest.now) ≡ Some (found.0, words_in found.1.now)) }
{
    match name {
        None => None,
        Some(name) => Some((Some(name), rest)),
    }
}

/// The name of a workspace in front of a line, where one may or must stand, and what stands behind it. `None` where the
/// line begins otherwise.
pub(crate) fn workspace_in(need: Need, line: &[Glyph]) -> Option<(Option<Name>, &[Glyph])>
    ensures { MatchOption result (workspace_in need (words_in line.now) ≡ None) (λ found. workspace_in need (words_in line.now) ≡ Some (found.0, words_in found.1.now)) }
{
    match need {
        Need::No => Some((None, line)),
        Need::May => match first_word(line) {
            None => Some((None, line)),
            Some((word, rest)) => with_rest(workspace_name(word), rest),
        },
        Need::Must => match first_word(line) {
            None => None,
            Some((word, rest)) => with_rest(workspace_name(word), rest),
        },
    }
}

// The names that a line is, or `None` where a word of it is no name.
fn names_in(alloc: Global, line: &[Glyph]) -> Result<Option<NameList>, WantOfMemory>
    ensures { IfOk result (λ names. option_map (λ list. list.items) names ≡ names_in (words_in line.now)) }
{
    let mut names = NameList::new(alloc);
    let mut rest = line;
    while let Some((word, behind)) = first_word(rest) {
        match Name::of(word) {
            None => return Ok(None),
            Some(name) => names.push(name)?,
        }
        rest = behind;
    }
    Ok(Some(names))
}

// No names, where a line has no word.
fn no_objects(alloc: Global, line: &[Glyph]) -> Option<NameList>
    ensures { option_map (λ list. list.items) result ≡ objects_in Need.No (words_in line.now) }
{
    match first_word(line) {
        None => Some(NameList::new(alloc)),
        Some(_) => None,
    }
}

// The names that a line is, where it has a word.
fn some_objects(alloc: Global, line: &[Glyph]) -> Result<Option<NameList>, WantOfMemory>
    ensures { IfOk result (λ names. option_map (λ list. list.items) names ≡ objects_in Need.Must (words_in line.now)) }
{
    match first_word(line) {
        None => Ok(None),
        Some(_) => names_in(alloc, line),
    }
}

/// The names of objects that a line is, where some may or must stand. `None` where it is something else. It takes memory
/// for the names.
pub(crate) fn objects_in(
    alloc: Global,
    need: Need,
    line: &[Glyph],
) -> Result<Option<NameList>, WantOfMemory>
    ensures { IfOk result (λ names. option_map (λ list. list.items) names ≡ objects_in need (words_in line.now)) }
{
    match need {
        Need::No => Ok(no_objects(alloc, line)),
        Need::May => names_in(alloc, line),
        Need::Must => some_objects(alloc, line),
    }
}
