ghost use Rattle.std.specs.Prelude.{◌≡◌};
ghost use Rattle.line_scanner.specs.Token.{plain_kind};
ghost use Rattle.line_trees.specs.Signs.{fold_of};
ghost use Rattle.line_trees.specs.Symbols.{name_symbol, system_symbol, other_sign, sign_symbol, symbol_of, slash_or_other};

use crate::signs::{dyad_of, fold_of, mix1_of, mix2_of, monad_of};
use crate::{Classes, Fun};
use apl_arrays::{Glyph, Name, SystemName, Way};
use apl_verbs::{Dyad, Monad, Verb};
use line_scanner::TokenKind;

/// The operator that a slash is behind a scalar function.
#[derive(Clone, Copy, Debug, PartialEq, Eq)]
pub enum Fold {
    Reduce(Way),
    Scan(Way),
}

/// What a token is in the grammar of statements.
#[derive(Clone, Copy, Debug, PartialEq, Eq)]
pub enum Symbol {
    Constant,
    Value(Name),
    Niladic(Name),
    /// The scalar functions of a sign.
    Scalar(Option<Monad>, Option<Dyad>),
    Slash(Fold),
    /// The monadic and the dyadic function of another sign or of a name.
    Function(Option<Fun>, Option<Fun>),
    LeftParenthesis,
    RightParenthesis,
    LeftBracket,
    RightBracket,
    Semicolon,
    Colon,
    Dot,
    Jot,
    LeftArrow,
    RightArrow,
    Execute,
    /// A sign that stands in no statement.
    Unused,
}

pub fn name_symbol(arguments: Option<u8>, name: Name) -> Symbol
    ensures { result ≡ name_symbol arguments name }
{
    match arguments {
        None => Symbol::Value(name),
        Some(0) => Symbol::Niladic(name),
        Some(1) => Symbol::Function(Some(Fun::Defined(name)), None),
        Some(_) => Symbol::Function(None, Some(Fun::Defined(name))),
    }
}

pub fn system_symbol(name: SystemName) -> Symbol
    ensures { result ≡ system_symbol name }
{
    let monadic = Some(Fun::System(name));
    match name {
        SystemName::Svo | SystemName::Svc => { Symbol::Function(monadic, Some(Fun::System(name))) }
        SystemName::Svr | SystemName::Svq | SystemName::Svs => Symbol::Function(monadic, None),
    }
}

#[tactic(auto, unfolding(crate::specs::Symbols::other_sign))]
fn other_sign(glyph: Glyph) -> Symbol
    ensures { result ≡ other_sign glyph }
{
    match glyph {
        Glyph::LEFT_PARENTHESIS => Symbol::LeftParenthesis,
        Glyph::RIGHT_PARENTHESIS => Symbol::RightParenthesis,
        Glyph::LEFT_BRACKET => Symbol::LeftBracket,
        Glyph::RIGHT_BRACKET => Symbol::RightBracket,
        Glyph::SEMICOLON => Symbol::Semicolon,
        Glyph::COLON => Symbol::Colon,
        Glyph::PERIOD => Symbol::Dot,
        Glyph::JOT => Symbol::Jot,
        Glyph::LEFT_ARROW => Symbol::LeftArrow,
        Glyph::RIGHT_ARROW => Symbol::RightArrow,
        Glyph::EXECUTE => Symbol::Execute,
        _ => Symbol::Unused,
    }
}

fn slash_or_other(glyph: Glyph) -> Symbol
    ensures { result ≡ slash_or_other (fold_of glyph) glyph }
{
    match fold_of(glyph) {
        Some(fold) => Symbol::Slash(fold),
        None => other_sign(glyph),
    }
}

#[tactic(auto, unfolding(crate::specs::Symbols::sign_symbol))]
pub fn sign_symbol(glyph: Glyph) -> Symbol
    ensures { result ≡ sign_symbol glyph }
{
    let (monad, dyad) = (monad_of(glyph), dyad_of(glyph));
    if monad.is_some() || dyad.is_some() {
        return Symbol::Scalar(monad, dyad);
    }
    let (mix1, mix2) = (mix1_of(glyph), mix2_of(glyph));
    if mix1.is_some() || mix2.is_some() {
        return Symbol::Function(
            mix1.map(|mixed| Fun::Verb(Verb::Mixed1(mixed))),
            mix2.map(|mixed| Fun::Verb(Verb::Mixed2(mixed))),
        );
    }
    slash_or_other(glyph)
}

/// What a token of this kind is, by the classes of names.
pub fn symbol_of(classes: &Classes, kind: &TokenKind) -> Symbol
    ensures { result ≡ symbol_of classes.now.items (plain_kind kind.now) }
{
    match kind {
        TokenKind::Numbers(_) | TokenKind::Chars(_) => Symbol::Constant,
        TokenKind::Name(name) => name_symbol(classes.arguments_of(name), *name),
        TokenKind::System(name) => system_symbol(*name),
        TokenKind::Sign(glyph) => sign_symbol(*glyph),
    }
}
