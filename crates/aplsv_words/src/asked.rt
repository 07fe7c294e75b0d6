ghost use Rattle.std.specs.Prelude.{◌≡◌, ◌<◌, ◌≤◌, IfOk, IfErr, IsErrOf, MatchOption, MatchResult, map, option_map, slice_index, string_bytes};
ghost use Rattle.aplsv_words.specs.Meaning.{Asked, AsksFor, CountsAs, IsCount, Means, NoCount, NothingCounts, asked_by, said_in, two_of};

use crate::command_line::written_in;
use crate::words::{Words, WordsRefused};
use crate::written::Written;
use std::alloc::Global;

/// The most numbers of a load.
const MOST_NUMBERS: u32 = 100_000;

/// The most workers: one for each party that there may be.
const MOST_WORKERS: u32 = 34;

/// What the words behind the program's name ask for. `Usage` exactly where they have no meaning: where a word is none of
/// the table, stands twice, or has a value that it does not take, lacks one, or has one that is empty or that begins with a
/// hyphen in a word of its own; where the value of `--workers` or of `--load` is no count, or too large a one; and where two of `--replay`, `--workers` and `--load`
/// stand together. The places are those in the words. It takes memory to read them.
pub fn words_of<'a>(alloc: Global, args: &'a [String]) -> Result<Words<'a>, WordsRefused>
    ensures means { IfOk result (λ words. Means (map string_bytes args.entry.now) (asked_by words)) }
    ensures usage { IsErrOf result WordsRefused.Usage → (asked : Asked) → ¬ Means (map string_bytes args.entry.now) asked }
    ensures only { (asked : Asked) → Means (map string_bytes args.entry.now) asked →
        MatchResult result (λ words. asked_by words ≡ asked) (λ why. why ≡ WordsRefused.WantOfMemory) }
{
    match written_in(alloc, args) {
        Ok(written) => words_by(written),
        Err(refused) => Err(refused),
    }
}

// What is asked for by what was written.
fn words_by<'a>(written: Written<'a>) -> Result<Words<'a>, WordsRefused>
    ensures asks { IfOk result (λ words. AsksFor (said_in written.entry) (asked_by words)) }
    ensures none { IfErr result (λ why. (asked : Asked) → ¬ AsksFor (said_in written.entry) asked) }
    ensures usage { IfErr result (λ why. why ≡ WordsRefused.Usage) }
{
    let workers = count_in(written.workers, MOST_WORKERS)?;
    let load = count_in(written.load, MOST_NUMBERS)?;
    if are_two(written.replay, workers.is_some(), load.is_some()) {
        return Err(WordsRefused::Usage);
    }
    Ok(Words {
        replay: written.replay,
        workers,
        library: written.library,
        text: written.text,
        clock: written.clock,
        load,
        components: written.components,
        relay: written.relay,
    })
}

// Whether two of these hold.
fn are_two(first: bool, second: bool, third: bool) -> bool
    ensures { result ≡ two_of first second third }
{
    (first && second) || (first && third) || (second && third)
}

// The count that was written, if one was, up to a most.
fn count_in(written: Option<&str>, most: u32) -> Result<Option<u32>, WordsRefused>
    requires { most ≤ 100000 }
    ensures counts { IfOk result (λ count. CountsAs most (option_map (λ text. text.now) written.entry) count) }
    ensures none { IfErr result (λ why. NothingCounts most (option_map (λ text. text.now) written.entry)) }
    ensures usage { IfErr result (λ why. why ≡ WordsRefused.Usage) }
{
    match written {
        None => Ok(None),
        Some(text) => match count_of(text, most) {
            Some(count) => Ok(Some(count)),
            None => Err(WordsRefused::Usage),
        },
    }
}

// The count that a text is.
fn count_of(text: &str, most: u32) -> Option<u32>
    requires { most ≤ 100000 }
    ensures { MatchOption result (NoCount most text.now) (IsCount most text.now) }
{
    match text.as_bytes().first() {
        Some(first) => {
            if *first > b'0' {
                number_of(text, most)
            } else {
                None
            }
        }
        None => None,
    }
}

// The count that a text is which begins neither with a sign nor with a zero.
fn number_of(text: &str, most: u32) -> Option<u32>
    requires first { 48 < slice_index text.now 0 }
    requires small { most ≤ 100000 }
    ensures { MatchOption result (NoCount most text.now) (IsCount most text.now) }
{
    match text.parse::<u32>() {
        Ok(count) => { if count <= most { Some(count) } else { None } }
        Err(_) => None,
    }
}
