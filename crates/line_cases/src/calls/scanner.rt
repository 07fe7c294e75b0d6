use crate::calls::granting::lent;
use crate::calls::refusals::look_at_text;
use anyhow::{Result, bail};
use apl_arrays::{Glyph, SystemName, WantOfMemory};
use case_fields::line_of;
use case_tables::{Calls, Looks};
use line_scanner::{ScanRefused, Token, TokenKind, TokenList, Tokens, scan};
use std::alloc::Global;

/// A line that is cut into tokens, tokens that are put into a list, and the texts of refusals.
#[derive(Clone, Copy, Debug)]
pub struct Scanner;

impl Calls for Scanner {
    fn make(&self, alloc: Global, looks: &mut Looks) -> Result<()> {
        cut_line(alloc, looks)?;
        list_tokens(alloc, looks)?;
        name_refusals(alloc, looks)
    }
}

/// The tokens of a line, or nothing where it has none. An `Err` says that memory was refused.
pub fn tokens_of(alloc: Global, text: &str) -> Result<Option<Tokens>> {
    let line = line_of(alloc, text)?;
    let scanned = scan(alloc, &line);
    drop(line);
    match scanned {
        Ok(tokens) => Ok(Some(tokens)),
        Err(ScanRefused::WantOfMemory) => bail!("out of memory"),
        Err(_) => Ok(None),
    }
}

fn cut_line(alloc: Global, looks: &mut Looks) -> Result<()> {
    let cut = tokens_of(alloc, "X←1 ¯2,'A'⎕SVO⍎")?;
    lent(cut, looks, |Tokens { tokens, length }, looks| {
        looks.holds(*length == 15);
        look_at_tokens(tokens.as_slice(), looks);
        Ok(())
    })
}

fn look_at_tokens(all: &[Token], looks: &mut Looks) {
    looks.holds(all.len() == 7);
    look_at_kinds(all, looks);
    looks.holds(all.get(6).is_some_and(|token| token.at == 14));
    looks.holds(all.get(6).is_some_and(|token| token.after == 15));
}

fn look_at_kinds(all: &[Token], looks: &mut Looks) {
    looks.holds(matches!(kind_at(all, 0), Some(TokenKind::Name(name)) if name.glyphs().len() == 1));
    looks.holds(
        matches!(kind_at(all, 2), Some(TokenKind::Numbers(list)) if list.as_slice() == [1, -2].as_slice()),
    );
    looks.holds(
        matches!(kind_at(all, 4), Some(TokenKind::Chars(chars)) if chars.as_slice().len() == 1),
    );
    looks.holds(matches!(kind_at(all, 5), Some(TokenKind::System(SystemName::Svo))));
    looks.holds(
        matches!(kind_at(all, 6), Some(TokenKind::Sign(glyph)) if *glyph == Glyph::EXECUTE),
    );
}

// What the token at a place is.
fn kind_at(all: &[Token], place: usize) -> Option<&TokenKind> {
    all.get(place).map(|token| &token.kind)
}

fn sign(at: u64) -> Token {
    Token {
        kind: TokenKind::Sign(Glyph::PLUS),
        at,
        after: at.saturating_add(1),
    }
}

// Whether a push is granted, at the second time where memory was refused at the first and left the tokens as they were.
fn is_pushed(tokens: &mut TokenList, at: u64) -> bool {
    let before = tokens.as_slice().len();
    tokens.push(sign(at)).is_ok()
        || (tokens.as_slice().len() == before && tokens.push(sign(at)).is_ok())
}

// A list with room for one token.
fn with_room(alloc: Global) -> Result<TokenList, WantOfMemory> {
    let mut tokens = TokenList::new(alloc);
    match tokens.reserve(1) {
        Ok(()) => Ok(tokens),
        Err(WantOfMemory) => {
            drop(tokens);
            Err(WantOfMemory)
        }
    }
}

fn list_tokens(alloc: Global, looks: &mut Looks) -> Result<()> {
    let mut tokens = with_room(alloc)?;
    looks.holds(is_pushed(&mut tokens, 0));
    looks.holds(is_pushed(&mut tokens, 1));
    let all = tokens.into_vec();
    looks.holds(all.len() == 2);
    looks.holds(all.get(0).is_some_and(|token| token.at == 0));
    looks.holds(all.get(1).is_some_and(|token| token.at == 1));
    drop(all);
    Ok(())
}

fn name_refusals(alloc: Global, looks: &mut Looks) -> Result<()> {
    let character = ScanRefused::CharacterError(3);
    look_at_text(alloc, &character, "character error at 3", looks)?;
    let syntax = ScanRefused::SyntaxError(12);
    look_at_text(alloc, &syntax, "syntax error at 12", looks)?;
    let memory = ScanRefused::from(WantOfMemory);
    look_at_text(alloc, &memory, "out of memory", looks)
}
