ghost use Rattle.std.specs.Prelude.{◌≡◌, ◌<◌, ◌++◌, Some, None, Ok, IfOk, IfSome, OnOk, IsErr, MatchOption, length};
ghost use Rattle.std.specs.List.{list_any};
ghost use Rattle.std.specs.Option.{option_map, option_to_list};
ghost use Rattle.line_scanner.specs.Scanning.{reading_of};
ghost use Rattle.apl_workspace.specs.Header.{header_behind, header_in, header_of, is_lamp, local_in, locals_in, names_of, result_in, symbols_of, syntax_in, syntax_of_one, syntax_of_two, with_names_apart, word_in};
ghost use Rattle.apl_workspace.specs.Names.{all_differ};

use crate::symbol::{HeaderSymbol, Syntax, symbols_of};
use apl_arrays::{Glyph, Line, List, Name, NameList, WantOfMemory};
use line_scanner::{ScanRefused, Tokens, scan};
use std::alloc::Global;
use std::collections::BTreeSet;
use std::marker::Model;

/// The header of a function: its name, the names of its arguments and of its result, where it has them, and its other
/// local names. It is seen as plain data.
#[derive(Debug, Drop)]
pub struct Header {
    pub name: Name,
    pub left: Option<Name>,
    pub right: Option<Name>,
    pub result: Option<Name>,
    pub locals: NameList,
}

impl Model for Header {
    ghost use Rattle.apl_workspace.specs.Header.{PlainHeader};

    ghost Value = { PlainHeader };

    ghost view = { λ h. record { name = h.name; left = h.left; right = h.right; result = h.result; locals = h.locals.items } };
}

impl Header {
    /// The header that a line is, or `None` where it is none. The function's name stands alone, before an argument or
    /// between two; a result and `←` may come first, and local names, each behind a semicolon, last. No name comes
    /// twice, and no comment is there. It takes memory for tokens and names.
    #[tactic(auto, unfolding(crate::specs::Header::header_of))]
    pub fn read(alloc: Global, line: &Line) -> Result<Option<Header>, WantOfMemory>
        ensures { IfOk result (λ header. header ≡ header_of line.now.items) }
    {
        if has_comment(line.as_slice()) {
            return Ok(None);
        }
        match tokens_of(alloc, line)? {
            None => Ok(None),
            Some(tokens) => read_tokens(alloc, &tokens),
        }
    }

    /// An equal header. It takes memory for the local names.
    pub fn copy(&self, alloc: Global) -> Result<Header, WantOfMemory>
        ensures { IfOk result (λ header. header ≡ self.now) }
    {
        Ok(Header {
            name: self.name,
            left: self.left,
            right: self.right,
            result: self.result,
            locals: self.locals.copy(alloc)?,
        })
    }

    /// All its names: its own, the arguments, the result and the local ones. It takes memory for them.
    pub fn names(&self, alloc: Global) -> Result<NameList, WantOfMemory>
        ensures { IfOk result (λ names. names.items ≡ names_of self.now) }
    {
        let mut names = List::new(alloc);
        names.push(self.name)?;
        push_name(&mut names, self.left)?;
        push_name(&mut names, self.right)?;
        push_name(&mut names, self.result)?;
        push_names(&mut names, self.locals.as_slice())?;
        Ok(names)
    }
}

fn has_comment(glyphs: &[Glyph]) -> bool
    ensures { result ≡ list_any is_lamp glyphs.now }
{
    glyphs.iter().any(|glyph| *glyph == Glyph::LAMP)
}

/// The tokens of a line, or `None` where it has an error.
fn tokens_of(alloc: Global, line: &Line) -> Result<Option<Tokens>, WantOfMemory>
    ensures { IfOk result (λ found. MatchOption found (IsErr (reading_of line.now.items)) (λ tokens. reading_of line.now.items ≡ Ok tokens.tokens.items)) }
{
    match scan(alloc, line) {
        Ok(tokens) => Ok(Some(tokens)),
        Err(ScanRefused::WantOfMemory) => Err(WantOfMemory),
        Err(_) => Ok(None),
    }
}

/// The header of tokens, where its names differ.
fn read_tokens(alloc: Global, tokens: &Tokens) -> Result<Option<Header>, WantOfMemory>
    ensures { IfOk result (λ header. header ≡ with_names_apart (header_in (symbols_of tokens.now.tokens.items))) }
{
    let symbols = symbols_of(alloc, tokens.tokens.as_slice())?;
    match header_in(alloc, &symbols)? {
        None => Ok(None),
        Some(header) => with_names_apart(alloc, header),
    }
}

/// The header, where its names differ.
fn with_names_apart(alloc: Global, header: Header) -> Result<Option<Header>, WantOfMemory>
    ensures { IfOk result (λ found. found ≡ with_names_apart (Some header)) }
{
    let names = header.names(alloc)?;
    if all_differ(alloc, names.as_slice())? {
        Ok(Some(header))
    } else {
        Ok(None)
    }
}

/// The header that symbols spell, whether or not its names differ.
fn header_in(alloc: Global, symbols: &[HeaderSymbol]) -> Result<Option<Header>, WantOfMemory>
    ensures { IfOk result (λ header. header ≡ header_in symbols.now) }
{
    let (outcome, behind) = result_in(symbols);
    match syntax_in(behind) {
        None => Ok(None),
        Some((syntax, rest)) => header_with(alloc, outcome, syntax, rest),
    }
}

/// The header of these parts and of the local names that symbols spell.
fn header_with(
    alloc: Global,
    outcome: Option<Name>,
    syntax: Syntax,
    symbols: &[HeaderSymbol],
) -> Result<Option<Header>, WantOfMemory>
    ensures { IfOk result (λ header. header ≡ header_behind outcome (Some (syntax, symbols.now))) }
{
    match locals_in(alloc, symbols)? {
        None => Ok(None),
        Some(locals) => Ok(Some(Header {
            name: syntax.name,
            left: syntax.left,
            right: syntax.right,
            result: outcome,
            locals,
        })),
    }
}

/// The name of a result before an arrow, where there is one, and what follows.
fn result_in(symbols: &[HeaderSymbol]) -> (Option<Name>, &[HeaderSymbol])
    ensures { (result.0, result.1.now) ≡ result_in symbols.now }
{
    match symbols {
        [HeaderSymbol::Word(name), HeaderSymbol::Arrow, rest @ ..] => (Some(*name), rest),
        _ => (None, symbols),
    }
}

/// The name at the front, where there is one, and what follows.
fn word_in(symbols: &[HeaderSymbol]) -> Option<(Name, &[HeaderSymbol])>
    ensures { option_map (λ found. (found.0, found.1.now)) result ≡ word_in symbols.now }
{
    match symbols {
        [HeaderSymbol::Word(name), rest @ ..] => Some((*name, rest)),
        _ => None,
    }
}

/// A function of two names, or of three where one more follows.
fn syntax_of_two(first: Name, second: Name, rest: &[HeaderSymbol]) -> (Syntax, &[HeaderSymbol])
    ensures { (result.0, result.1.now) ≡ syntax_of_two first second rest.now (word_in rest.now) }
{
    match word_in(rest) {
        None => (
            Syntax {
                left: None,
                name: first,
                right: Some(second),
            },
            rest,
        ),
        Some((third, rest)) => (
            Syntax {
                left: Some(first),
                name: second,
                right: Some(third),
            },
            rest,
        ),
    }
}

/// A function of one name, or of more where they follow.
fn syntax_of_one(first: Name, rest: &[HeaderSymbol]) -> (Syntax, &[HeaderSymbol])
    ensures { (result.0, result.1.now) ≡ syntax_of_one first rest.now (word_in rest.now) }
{
    match word_in(rest) {
        None => (
            Syntax {
                left: None,
                name: first,
                right: None,
            },
            rest,
        ),
        Some((second, rest)) => syntax_of_two(first, second, rest),
    }
}

/// The function and its arguments, and what follows.
fn syntax_in(symbols: &[HeaderSymbol]) -> Option<(Syntax, &[HeaderSymbol])>
    ensures { option_map (λ found. (found.0, found.1.now)) result ≡ syntax_in symbols.now }
{
    match word_in(symbols) {
        None => None,
        Some((first, rest)) => Some(syntax_of_one(first, rest)),
    }
}

/// The local name behind a semicolon at the front, where there is one, and what follows.
fn local_in(symbols: &[HeaderSymbol]) -> Option<(Name, &[HeaderSymbol])>
    ensures value { option_map (λ found. (found.0, found.1.now)) result ≡ local_in symbols.now }
    ensures shorter { IfSome result (λ found. length found.1.now < length symbols.now) }
{
    match symbols {
        [HeaderSymbol::Semicolon, HeaderSymbol::Word(name), rest @ ..] => Some((*name, rest)),
        _ => None,
    }
}

/// The local names, each behind a semicolon.
#[tactic(auto, using(crate::proofs::Locals::locals_stop, crate::proofs::Locals::locals_go_on, crate::proofs::Locals::locals_end))]
fn locals_in(alloc: Global, symbols: &[HeaderSymbol]) -> Result<Option<NameList>, WantOfMemory>
    ensures { IfOk result (λ locals. option_map (λ list. list.items) locals ≡ locals_in symbols.now) }
{
    let mut locals = List::new(alloc);
    let mut rest = symbols;
    while !rest.is_empty() {
        match local_in(rest) {
            None => return Ok(None),
            Some((local, more)) => {
                locals.push(local)?;
                rest = more;
            }
        }
    }
    Ok(Some(locals))
}

fn push_name(names: &mut NameList, name: Option<Name>) -> Result<(), WantOfMemory>
    ensures { OnOk result (names.new.items ≡ names.old.items ++ option_to_list name) }
{
    match name {
        None => Ok(()),
        Some(name) => names.push(name),
    }
}

fn push_names(names: &mut NameList, more: &[Name]) -> Result<(), WantOfMemory>
    ensures { OnOk result (names.new.items ≡ names.old.items ++ more.now) }
{
    for name in more {
        names.push(*name)?;
    }
    Ok(())
}

/// Whether no name stands twice.
fn all_differ(alloc: Global, names: &[Name]) -> Result<bool, WantOfMemory>
    ensures { IfOk result (λ differ. differ ≡ all_differ names.now) }
{
    let mut seen = BTreeSet::new(alloc);
    for name in names {
        if !seen.insert(*name)? {
            return Ok(false);
        }
    }
    Ok(true)
}
