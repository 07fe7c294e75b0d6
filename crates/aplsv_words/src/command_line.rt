ghost use Rattle.std.specs.Prelude.{◌≡◌, false, codes, IfOk, IsErrOf, MatchResult, map, option_map, string_bytes};
ghost use Rattle.std.specs.List.{list_any};
ghost use Rattle.clap.specs.Words.{app_of, first_value, found_of, kind_of, one_text, rule_of};
ghost use Rattle.aplsv_words.specs.CommandLine.{IsFlagOf, command_of, flag_rule, refusal_of, value_rule};
ghost use Rattle.aplsv_words.specs.Meaning.{Said, Say, said_in};
ghost use Rattle.aplsv_words.specs.Stray.{is_stray};
ghost use Rattle.aplsv_words.specs.Table.{table};

use crate::stray::has_stray;
use crate::words::WordsRefused;
use crate::written::Written;
use clap::builder::ValueParser;
use clap::error::ErrorKind;
use clap::{Arg, ArgAction, ArgMatches, Command, Error};
use std::alloc::{AllocError, Global};

/// What the words behind the program's name say. `Usage` exactly where they say nothing: where a word is none of the table,
/// stands twice, or has a value that it does not take, lacks one, or has one that is empty or that begins with a hyphen in a
/// word of its own. The values are those in the words. It takes memory to read them.
pub(crate) fn written_in<'a>(alloc: Global, args: &'a [String]) -> Result<Written<'a>, WordsRefused>
    ensures says { IfOk result (λ written. Say (map string_bytes args.entry.now) (said_in written)) }
    ensures usage { IsErrOf result WordsRefused.Usage → (said : Said) → ¬ Say (map string_bytes args.entry.now) said }
    ensures only { (said : Said) → Say (map string_bytes args.entry.now) said →
        MatchResult result (λ written. said_in written ≡ said) (λ why. why ≡ WordsRefused.WantOfMemory) }
{
    if has_stray(args) {
        Err(WordsRefused::Usage)
    } else {
        parsed(alloc, args)
    }
}

// The same, where each word that begins with a hyphen goes on as a name behind two.
fn parsed<'a>(alloc: Global, args: &'a [String]) -> Result<Written<'a>, WordsRefused>
    requires { list_any (λ arg. is_stray (string_bytes arg)) args.now ≡ false }
    ensures says { IfOk result (λ written. Say (map string_bytes args.entry.now) (said_in written)) }
    ensures usage { IsErrOf result WordsRefused.Usage → (said : Said) → ¬ Say (map string_bytes args.entry.now) said }
    ensures only { (said : Said) → Say (map string_bytes args.entry.now) said →
        MatchResult result (λ written. said_in written ≡ said) (λ why. why ≡ WordsRefused.WantOfMemory) }
{
    let command = command_line(alloc)?;
    match command.try_get_matches_from(args) {
        Ok(matches) => Ok(words_in(matches)),
        Err(error) => Err(refusal(error)),
    }
}

// A command with a row for each word of the table, and no other: none for help.
fn command_line<'a>(alloc: Global) -> Result<Command<'a>, AllocError>
    ensures { IfOk result (λ command. app_of command ≡ command_of table) }
{
    let bare = Command::new(alloc, "aplsv")
        .no_binary_name(true)
        .disable_help_flag(true);
    let with_replay = bare.arg(flag(alloc, "replay"))?;
    let with_workers = with_replay.arg(valued(alloc, "workers"))?;
    let with_library = with_workers.arg(valued(alloc, "library"))?;
    let with_text = with_library.arg(valued(alloc, "text"))?;
    let with_clock = with_text.arg(flag(alloc, "clock"))?;
    let with_load = with_clock.arg(valued(alloc, "load"))?;
    let with_components = with_load.arg(flag(alloc, "components"))?;
    let whole = with_components.arg(flag(alloc, "relay"))?;
    Ok(whole)
}

/// A word without a value.
pub(crate) fn flag<'a>(alloc: Global, name: &'a str) -> Arg<'a>
    ensures rule { rule_of result ≡ flag_rule name.entry.now }
    ensures local { result.global ≡ false }
{
    Arg::new(alloc, name).long(name).action(ArgAction::SetTrue)
}

/// A word with a value, which is not empty.
pub(crate) fn valued<'a>(alloc: Global, name: &'a str) -> Arg<'a>
    ensures rule { rule_of result ≡ value_rule name.entry.now }
    ensures local { result.global ≡ false }
{
    Arg::new(alloc, name)
        .long(name)
        .value_parser(ValueParser::NonEmptyString)
}

// What a parse found.
fn words_in<'a>(matches: ArgMatches<'a>) -> Written<'a>
    ensures replay { IsFlagOf (one_text (found_of matches.entry) (codes "replay")) result.replay }
    ensures workers { option_map (λ count. count.now) result.workers ≡ first_value (found_of matches.entry) (codes "workers") }
    ensures library { option_map (λ place. place.now) result.library ≡ first_value (found_of matches.entry) (codes "library") }
    ensures text { option_map (λ place. place.now) result.text ≡ first_value (found_of matches.entry) (codes "text") }
    ensures clock { IsFlagOf (one_text (found_of matches.entry) (codes "clock")) result.clock }
    ensures load { option_map (λ count. count.now) result.load ≡ first_value (found_of matches.entry) (codes "load") }
    ensures components { IsFlagOf (one_text (found_of matches.entry) (codes "components")) result.components }
    ensures relay { IsFlagOf (one_text (found_of matches.entry) (codes "relay")) result.relay }
{
    Written {
        replay: flag_in(&matches, "replay"),
        workers: matches.get_str("workers"),
        library: matches.get_str("library"),
        text: matches.get_str("text"),
        clock: flag_in(&matches, "clock"),
        load: matches.get_str("load"),
        components: flag_in(&matches, "components"),
        relay: flag_in(&matches, "relay"),
    }
}

/// Whether a word without a value was written.
pub(crate) fn flag_in<'a>(matches: &ArgMatches<'a>, name: &str) -> bool
    ensures { IsFlagOf (one_text (found_of matches.now) name.now) result }
{
    matches.get_flag(name)
}

/// Why a parse failed: memory, or the words.
pub(crate) fn refusal(error: Error) -> WordsRefused
    ensures { result ≡ refusal_of (kind_of error) }
{
    match error.kind() {
        ErrorKind::OutOfMemory => WordsRefused::WantOfMemory,
        _ => WordsRefused::Usage,
    }
}
