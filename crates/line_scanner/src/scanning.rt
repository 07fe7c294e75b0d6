ghost use Rattle.std.specs.Prelude.{◌≡◌, ◌≤◌, ◌<◌, All, Ok, IfOk, IfErr, length};
ghost use Rattle.line_scanner.specs.Scanning.{reading_of, IsErrorFound, IsRefusal};
ghost use Rattle.line_scanner.specs.Grammar.{AreInOrder, IsSliceOf};

use crate::first_fault::first_fault;
use crate::front::{Front, front_of};
use crate::{ScanRefused, Token, TokenList, Tokens};
use apl_arrays::{Glyph, Line};
use std::alloc::Global;

/// The tokens of a line, each with its place. Outside quotes and comments a glyph without a role is a
/// `CharacterError`. An open quote, a number past 64 bits, a `¯` without a digit, a name longer than 32 and a `⎕`
/// without the rest of a system name are a `SyntaxError`, each at its first glyph. Of several errors the one of the
/// lowest place is answered, also where there is no memory. It takes memory for the tokens.
pub fn scan(alloc: Global, line: &Line) -> Result<Tokens, ScanRefused>
    ensures tokens { IfOk result (λ found. reading_of line.now.items ≡ Ok found.tokens.items) }
    ensures length { IfOk result (λ found. found.length ≡ length line.now.items) }
    ensures refused { IfErr result (λ refused. IsRefusal refused (reading_of line.now.items)) }

    ensures in_order { IfOk result (λ found. AreInOrder 0 found.tokens.items (length line.now.items)) }
    ensures slices { IfOk result (λ found. All (IsSliceOf line.now.items) found.tokens.items) }
{
    match scan_tokens(alloc, line.as_slice()) {
        Ok(tokens) => Ok(tokens),
        Err(refused) => Err(first_refusal(line.as_slice(), refused)),
    }
}

// Why a line is refused; where memory ran out, the line is looked at once more for an error, without memory.
#[tactic(auto, using(crate::proofs::Passed::no_error, crate::proofs::Passed::is_error, crate::proofs::Passed::was_error))]
fn first_refusal(glyphs: &[Glyph], refused: ScanRefused) -> ScanRefused
    requires { IsErrorFound refused (reading_of glyphs.now) }
    ensures { IsRefusal result (reading_of glyphs.now) }
{
    match refused {
        ScanRefused::WantOfMemory => match first_fault(glyphs) {
            None => ScanRefused::WantOfMemory,
            Some(error) => error,
        },
        error => error,
    }
}

// The tokens of a line, or its first error, unless memory runs out before.
#[tactic(auto, using(crate::proofs::Steps::scans))]
fn scan_tokens(alloc: Global, glyphs: &[Glyph]) -> Result<Tokens, ScanRefused>
    ensures tokens { IfOk result (λ found. reading_of glyphs.now ≡ Ok found.tokens.items) }
    ensures length { IfOk result (λ found. found.length ≡ length glyphs.now) }
    ensures refused { IfErr result (λ refused. IsErrorFound refused (reading_of glyphs.now)) }

    ensures in_order { IfOk result (λ found. AreInOrder 0 found.tokens.items (length glyphs.now)) }
    ensures slices { IfOk result (λ found. All (IsSliceOf glyphs.now) found.tokens.items) }
{
    let mut tokens = TokenList::new(alloc);
    let mut at = 0;
    loop {
        match front_of(alloc, &glyphs[at..])? {
            Front::Nothing => {
                return Ok(Tokens {
                    tokens,
                    length: glyphs.len() as u64,
                });
            }
            Front::Blank => at += 1,
            Front::Token(kind, length) => {
                let after = at + length;
                tokens.push(Token {
                    kind,
                    at: at as u64,
                    after: after as u64,
                })?;
                at = after;
            }
            Front::Unused => return Err(ScanRefused::CharacterError(at as u64)),
            Front::Malformed => return Err(ScanRefused::SyntaxError(at as u64)),
        }
    }
}
