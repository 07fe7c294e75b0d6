ghost use Rattle.std.specs.Prelude.{◌≡◌, false, codes, IfOk, IsErrOf, MatchResult, map, option_map, string_bytes};
ghost use Rattle.std.specs.List.{list_any};
ghost use Rattle.clap.specs.Words.{app_of, first_value, found_of, one_text};
ghost use Rattle.aplsv_words.specs.CommandLine.{IsFlagOf, command_of};
ghost use Rattle.aplsv_words.specs.Looks.{LookSaid, SayToLook, look_said_in};
ghost use Rattle.aplsv_words.specs.Stray.{is_stray};
ghost use Rattle.aplsv_words.specs.Table.{look_table};

use crate::command_line::{flag, flag_in, refusal, valued};
use crate::look_written::LookWritten;
use crate::stray::has_stray;
use crate::words::WordsRefused;
use clap::{ArgMatches, Command};
use std::alloc::{AllocError, Global};

/// What the words behind the program's name say of a look. `Usage` exactly where they say nothing: where a word is none of the
/// table, stands twice, or has a value that it does not take, lacks one, or has one that is empty or that begins with a hyphen
/// in a word of its own. The values are those in the words. It takes memory to read them.
pub(crate) fn look_written_in<'a>(
    alloc: Global,
    args: &'a [String],
) -> Result<LookWritten<'a>, WordsRefused>
    ensures says { IfOk result (λ written. SayToLook (map string_bytes args.entry.now) (look_said_in written)) }
    ensures usage { IsErrOf result WordsRefused.Usage → (said : LookSaid) → ¬ SayToLook (map string_bytes args.entry.now) said }
    ensures only { (said : LookSaid) → SayToLook (map string_bytes args.entry.now) said →
        MatchResult result (λ written. look_said_in written ≡ said) (λ why. why ≡ WordsRefused.WantOfMemory) }
{
    if has_stray(args) {
        Err(WordsRefused::Usage)
    } else {
        look_parsed(alloc, args)
    }
}

// The same, where each word that begins with a hyphen goes on as a name behind two.
fn look_parsed<'a>(alloc: Global, args: &'a [String]) -> Result<LookWritten<'a>, WordsRefused>
    requires { list_any (λ arg. is_stray (string_bytes arg)) args.now ≡ false }
    ensures says { IfOk result (λ written. SayToLook (map string_bytes args.entry.now) (look_said_in written)) }
    ensures usage { IsErrOf result WordsRefused.Usage → (said : LookSaid) → ¬ SayToLook (map string_bytes args.entry.now) said }
    ensures only { (said : LookSaid) → SayToLook (map string_bytes args.entry.now) said →
        MatchResult result (λ written. look_said_in written ≡ said) (λ why. why ≡ WordsRefused.WantOfMemory) }
{
    let command = look_command(alloc)?;
    match command.try_get_matches_from(args) {
        Ok(matches) => Ok(look_in(matches)),
        Err(error) => Err(refusal(error)),
    }
}

// A command with a row for each word of the table, and no other: none for help.
fn look_command<'a>(alloc: Global) -> Result<Command<'a>, AllocError>
    ensures { IfOk result (λ command. app_of command ≡ command_of look_table) }
{
    let bare = Command::new(alloc, "aplsv")
        .no_binary_name(true)
        .disable_help_flag(true);
    let with_picture = bare.arg(flag(alloc, "picture"))?;
    let with_from = with_picture.arg(valued(alloc, "from"))?;
    let with_to = with_from.arg(valued(alloc, "to"))?;
    let whole = with_to.arg(valued(alloc, "why"))?;
    Ok(whole)
}

// What a parse found.
fn look_in<'a>(matches: ArgMatches<'a>) -> LookWritten<'a>
    ensures picture { IsFlagOf (one_text (found_of matches.entry) (codes "picture")) result.picture }
    ensures from { option_map (λ place. place.now) result.from ≡ first_value (found_of matches.entry) (codes "from") }
    ensures to { option_map (λ place. place.now) result.to ≡ first_value (found_of matches.entry) (codes "to") }
    ensures why { option_map (λ place. place.now) result.why ≡ first_value (found_of matches.entry) (codes "why") }
{
    LookWritten {
        picture: flag_in(&matches, "picture"),
        from: matches.get_str("from"),
        to: matches.get_str("to"),
        why: matches.get_str("why"),
    }
}
