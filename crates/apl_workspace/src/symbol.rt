ghost use Rattle.std.specs.Prelude.{◌≡◌, IfOk, map};
ghost use Rattle.line_scanner.specs.Token.{plain_kind, plain_token};
ghost use Rattle.apl_workspace.specs.Header.{header_symbol, symbols_of};

use apl_arrays::{Glyph, Name, WantOfMemory};
use line_scanner::{Token, TokenKind};
use std::alloc::Global;

/// What a token is in a header.
#[derive(Clone, Copy, Debug, PartialEq, Eq)]
pub enum HeaderSymbol {
    Word(Name),
    Arrow,
    Semicolon,
    Other,
}

/// A function between its arguments.
#[derive(Clone, Copy, Debug)]
pub struct Syntax {
    pub left: Option<Name>,
    pub name: Name,
    pub right: Option<Name>,
}

/// What a token is in a header.
fn header_symbol(kind: &TokenKind) -> HeaderSymbol
    ensures { result ≡ header_symbol (plain_kind kind.now) }
{
    match kind {
        TokenKind::Name(name) => HeaderSymbol::Word(*name),
        TokenKind::Sign(glyph) if *glyph == Glyph::LEFT_ARROW => HeaderSymbol::Arrow,
        TokenKind::Sign(glyph) if *glyph == Glyph::SEMICOLON => HeaderSymbol::Semicolon,
        _ => HeaderSymbol::Other,
    }
}

/// The symbols of tokens, in order. It takes memory for them.
pub fn symbols_of(alloc: Global, tokens: &[Token]) -> Result<Vec<HeaderSymbol>, WantOfMemory>
    ensures { IfOk result (λ symbols. symbols.items ≡ symbols_of (map plain_token tokens.now)) }
{
    let mut symbols = Vec::new(alloc);
    for token in tokens {
        symbols.push(header_symbol(&token.kind))?;
    }
    Ok(symbols)
}
