ghost use Rattle.std.specs.Prelude.{◌≡◌, ◌<◌, IfErr, IfOk, IsErrOf, MatchOption, MatchResult, None, Some, map, option_map, slice_index, string_bytes};
ghost use Rattle.aplsv_words.specs.Looks.{AsksToLook, MeanToLook, greatest_place, look_said_in};
ghost use Rattle.aplsv_words.specs.Meaning.{CountsAs, IsCount, NoCount, NothingCounts};
ghost use Rattle.aplsv_words.specs.declared.look.Look.{Look as OneLook};

use crate::look::Look;
use crate::look_line::look_written_in;
use crate::look_written::LookWritten;
use crate::words::WordsRefused;
use std::alloc::Global;

/// The look that the words behind the program's name ask for. `Usage` exactly where they mean none: they are `--picture`, with
/// `--from N` and `--to N` or without, in any order and each once, or `--why N` alone; N is from 1 to 18446744073709551615,
/// without a sign or a 0 in front. It takes memory to read them.
pub fn look_of(alloc: Global, args: &[String]) -> Result<Look, WordsRefused>
    ensures means { IfOk result (λ look. MeanToLook (map string_bytes args.now) look) }
    ensures usage { IsErrOf result WordsRefused.Usage → (look : OneLook) → ¬ MeanToLook (map string_bytes args.now) look }
    ensures only { (look : OneLook) → MeanToLook (map string_bytes args.now) look →
        MatchResult result (λ read. read ≡ look) (λ why. why ≡ WordsRefused.WantOfMemory) }
{
    match look_written_in(alloc, args) {
        Ok(written) => look_by(&written),
        Err(refused) => Err(refused),
    }
}

// The look that is asked for by what was written.
fn look_by(written: &LookWritten<'_>) -> Result<Look, WordsRefused>
    ensures asks { IfOk result (λ look. AsksToLook (look_said_in written.now) look) }
    ensures none { IfErr result (λ why. (look : OneLook) → ¬ AsksToLook (look_said_in written.now) look) }
    ensures usage { IfErr result (λ why. why ≡ WordsRefused.Usage) }
{
    match written.why {
        Some(text) => why_by(written, text),
        None => picture_by(written),
    }
}

// Why an entry is what it is, where nothing else is asked for.
fn why_by(written: &LookWritten<'_>, text: &str) -> Result<Look, WordsRefused>
    requires { option_map (λ place. place.now) written.now.why ≡ Some text.now }
    ensures asks { IfOk result (λ look. AsksToLook (look_said_in written.now) look) }
    ensures none { IfErr result (λ why. (look : OneLook) → ¬ AsksToLook (look_said_in written.now) look) }
    ensures usage { IfErr result (λ why. why ≡ WordsRefused.Usage) }
{
    if written.picture || written.from.is_some() || written.to.is_some() {
        return Err(WordsRefused::Usage);
    }
    match place_of(text) {
        Some(place) => Ok(Look::Why(place)),
        None => Err(WordsRefused::Usage),
    }
}

// A picture, where it is asked for.
fn picture_by(written: &LookWritten<'_>) -> Result<Look, WordsRefused>
    requires { written.now.why ≡ None }
    ensures asks { IfOk result (λ look. AsksToLook (look_said_in written.now) look) }
    ensures none { IfErr result (λ why. (look : OneLook) → ¬ AsksToLook (look_said_in written.now) look) }
    ensures usage { IfErr result (λ why. why ≡ WordsRefused.Usage) }
{
    if !written.picture {
        return Err(WordsRefused::Usage);
    }
    let from = place_in(written.from)?;
    let to = place_in(written.to)?;
    Ok(Look::Picture { from, to })
}

// The place that was written, if one was.
fn place_in(written: Option<&str>) -> Result<Option<u64>, WordsRefused>
    ensures counts { IfOk result (λ place. CountsAs greatest_place (option_map (λ text. text.now) written.entry) place) }
    ensures none { IfErr result (λ why. NothingCounts greatest_place (option_map (λ text. text.now) written.entry)) }
    ensures usage { IfErr result (λ why. why ≡ WordsRefused.Usage) }
{
    match written {
        None => Ok(None),
        Some(text) => match place_of(text) {
            Some(place) => Ok(Some(place)),
            None => Err(WordsRefused::Usage),
        },
    }
}

// The place that a text is.
fn place_of(text: &str) -> Option<u64>
    ensures { MatchOption result (NoCount greatest_place text.now) (IsCount greatest_place text.now) }
{
    match text.as_bytes().first() {
        Some(first) => {
            if *first > b'0' {
                place_number(text)
            } else {
                None
            }
        }
        None => None,
    }
}

// The place that a text is which begins neither with a sign nor with a zero.
fn place_number(text: &str) -> Option<u64>
    requires { 48 < slice_index text.now 0 }
    ensures { MatchOption result (NoCount greatest_place text.now) (IsCount greatest_place text.now) }
{
    match text.parse::<u64>() {
        Ok(place) => Some(place),
        Err(_) => None,
    }
}
