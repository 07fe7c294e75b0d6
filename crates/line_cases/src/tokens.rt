use crate::system_names::system_text;
use anyhow::{Context, Result, bail};
use apl_arrays::Glyph;
use case_fields::{line_of, push_glyphs, push_numbers, unescaped};
use case_tables::Trial;
use line_scanner::{ScanRefused, TokenKind, scan};
use std::alloc::Global;

/// The tokens of a line: the line; its glyphs and tokens, or its error.
#[derive(Clone, Copy, Debug)]
pub struct Tokens;

fn push_chars(alloc: Global, text: &mut String, chars: &[Glyph]) -> Result<()> {
    text.push_str("chars |")?;
    push_glyphs(alloc, text, chars)?;
    text.push('|')?;
    Ok(())
}

fn push_kind(alloc: Global, text: &mut String, kind: &TokenKind) -> Result<()> {
    match kind {
        TokenKind::Numbers(numbers) => {
            text.push_str("numbers ")?;
            push_numbers(text, numbers.as_slice())?;
            Ok(())
        }
        TokenKind::Chars(chars) => push_chars(alloc, text, chars.as_slice()),
        TokenKind::Name(name) => {
            text.push_str("name ")?;
            push_glyphs(alloc, text, name.glyphs())
        }
        TokenKind::System(name) => {
            let name = system_text(*name);
            write!(text, "system {name}")?;
            Ok(())
        }
        TokenKind::Sign(glyph) => {
            text.push_str("sign ")?;
            push_glyphs(alloc, text, &[*glyph])
        }
    }
}

fn tokens_text(alloc: Global, tokens: &line_scanner::Tokens) -> Result<String> {
    let length = tokens.length;
    let mut text = format!(in alloc; "{length} glyphs")?;
    for token in tokens.tokens.as_slice() {
        let (at, after) = (token.at, token.after);
        write!(text, "; {at}-{after} ")?;
        push_kind(alloc, &mut text, &token.kind)?;
    }
    Ok(text)
}

impl Trial for Tokens {
    fn given(&self) -> usize {
        1
    }

    fn found(&self, alloc: Global, fields: &[&str]) -> Result<String> {
        let field = *fields.first().context("a line is wanted")?;
        let line = line_of(alloc, unescaped(alloc, field)?.as_str())?;
        match scan(alloc, &line) {
            Ok(tokens) => {
                let text = tokens_text(alloc, &tokens);
                drop(tokens);
                text
            }
            Err(ScanRefused::CharacterError(at)) => Ok(format!(in alloc; "character {at}")?),
            Err(ScanRefused::SyntaxError(at)) => Ok(format!(in alloc; "syntax {at}")?),
            Err(ScanRefused::WantOfMemory) => bail!("out of memory"),
        }
    }
}
