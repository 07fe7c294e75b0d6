ghost use Rattle.std.specs.Prelude.{◌≡◌, Some, IfOk};
ghost use Rattle.std.specs.Option.{option_map};
ghost use Rattle.ws_commands.specs.Command.{plain_command};
ghost use Rattle.ws_commands.specs.Reading.{command_in, with_arguments, with_objects};
ghost use Rattle.ws_commands.specs.Words.{words_in};

use crate::arguments::{objects_in, workspace_in};
use crate::word::{CommandWord, word_of};
use crate::words::first_word;
use apl_arrays::{Glyph, Name, NameList, WantOfMemory};
use std::alloc::Global;

/// A command with what stands behind its word: the name of a workspace, where one is given, and the names of objects.
#[derive(Debug, Drop)]
pub(crate) struct Command {
    pub word: CommandWord,
    pub workspace: Option<Name>,
    pub objects: NameList,
}

/// The command that a line is, or `None` where it is none, or has something else behind its word than its row takes. It
/// takes memory for the names of objects.
pub(crate) fn command_of(alloc: Global, line: &[Glyph]) -> Result<Option<Command>, WantOfMemory>
    ensures { IfOk result (λ command. option_map plain_command command ≡ command_in (words_in line.now)) }
{
    match first_word(line) {
        None => Ok(None),
        Some((text, rest)) => match word_of(text) {
            None => Ok(None),
            Some(word) => with_arguments(alloc, word, rest),
        },
    }
}

// The command of this word and what stands behind it.
fn with_arguments(
    alloc: Global,
    word: CommandWord,
    line: &[Glyph],
) -> Result<Option<Command>, WantOfMemory>
    ensures { IfOk result (λ command. option_map plain_command command ≡ with_arguments (Some word) (words_in line.now)) }
{
    let row = word.row();
    match workspace_in(row.workspace, line) {
        None => Ok(None),
        Some((workspace, rest)) => {
            Ok(with_objects(word, workspace, objects_in(alloc, row.objects, rest)?))
        }
    }
}

// The command of this word, with these objects, where they are ones.
fn with_objects(
    word: CommandWord,
    workspace: Option<Name>,
    objects: Option<NameList>,
) -> Option<Command>
    ensures { option_map plain_command result ≡ with_objects word workspace (option_map (λ list. list.items) objects) }
{
    match objects {
        None => None,
        Some(objects) => Some(Command {
            word,
            workspace,
            objects,
        }),
    }
}
