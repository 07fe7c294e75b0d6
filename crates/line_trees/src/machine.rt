//! What a token does, by what stands before it.

ghost use Rattle.std.specs.Prelude.{◌≡◌};
ghost use Rattle.line_trees.specs.Marks.{takes_axis, after_function, goes, opens, closes, monadic_move, dyadic_move, begin, begin_statement, begin_line, close_bracket, close_parenthesis, next_subscript, begin_subscript, begin_axis, begin_product, begin_lead, begin_by, is_bare_name, is_target, is_first, scalar_move, go_on, jot_dot, factor_move, factor, step, may_be_nothing, may_end};

use crate::Fun;
use crate::symbol::Symbol;
use crate::tree::Mark;
use apl_verbs::{Dyad, Monad, verb_takes_axis};

/// Where an expression may begin: what else may stand there.
#[derive(Clone, Copy, Debug, PartialEq, Eq)]
pub enum Before {
    /// The line begins.
    Line,
    /// A label stands before.
    Statement,
    /// An expression must begin.
    Plain,
    /// A subscript, which may be omitted.
    Subscript,
    /// A function stands before that takes an axis.
    Axis,
    /// A dyadic scalar function stands before.
    Product,
    /// A sign of these scalar functions stands before, with which an expression begins.
    Lead(Option<Monad>, Option<Dyad>),
}

/// The operand that has ended.
#[derive(Clone, Copy, Debug, PartialEq, Eq)]
pub enum Operand {
    /// A name at the front of the line.
    First,
    Name,
    /// A name with one list of subscripts.
    Target,
    Other,
}

/// What stands before the next token.
#[derive(Clone, Copy, Debug, PartialEq, Eq)]
pub enum Mode {
    Begins(Before),
    Ends(Operand),
    Jot,
    /// A dot.
    Factor,
}

/// What is open.
#[derive(Clone, Copy, Debug, PartialEq, Eq)]
pub enum OpenBracket {
    Parenthesis,
    /// Subscripts of a name of which nothing else stands yet.
    OfName,
    /// Subscripts of another operand.
    OfOther,
    Axis,
}

/// How what is open changes.
#[derive(Clone, Copy, Debug, PartialEq, Eq)]
pub enum NestingChange {
    Keep,
    Open(OpenBracket),
    Close,
}

/// A token's mark, and what comes after it.
#[derive(Clone, Copy, Debug, PartialEq, Eq)]
pub struct Move {
    pub mark: Mark,
    pub mode: Mode,
    pub change: NestingChange,
}

fn takes_axis(function: Fun) -> bool
    ensures { result ≡ takes_axis function }
{
    match function {
        Fun::Verb(verb) => verb_takes_axis(verb),
        Fun::Defined(_) | Fun::System(_) => false,
    }
}

fn after_function(function: Fun) -> Mode
    ensures { result ≡ after_function function }
{
    if takes_axis(function) {
        Mode::Begins(Before::Axis)
    } else {
        Mode::Begins(Before::Plain)
    }
}

fn goes(mark: Mark, mode: Mode) -> Option<Move>
    ensures { result ≡ goes mark mode }
{
    Some(Move {
        mark,
        mode,
        change: NestingChange::Keep,
    })
}

fn opens(mark: Mark, mode: Mode, bracket: OpenBracket) -> Option<Move>
    ensures { result ≡ opens mark mode bracket }
{
    Some(Move {
        mark,
        mode,
        change: NestingChange::Open(bracket),
    })
}

fn closes(mark: Mark, mode: Mode) -> Option<Move>
    ensures { result ≡ closes mark mode }
{
    Some(Move {
        mark,
        mode,
        change: NestingChange::Close,
    })
}

fn monadic_move(function: Option<Fun>) -> Option<Move>
    ensures { result ≡ monadic_move function }
{
    let mode = after_function(function?);
    goes(Mark::Monadic, mode)
}

fn dyadic_move(function: Option<Fun>) -> Option<Move>
    ensures { result ≡ dyadic_move function }
{
    let mode = after_function(function?);
    goes(Mark::Dyadic, mode)
}

fn begin(symbol: Symbol) -> Option<Move>
    ensures { result ≡ begin symbol }
{
    match symbol {
        Symbol::Constant => goes(Mark::Constant, Mode::Ends(Operand::Other)),
        Symbol::Value(_) => goes(Mark::Name, Mode::Ends(Operand::Name)),
        Symbol::Niladic(_) => goes(Mark::Niladic, Mode::Ends(Operand::Other)),
        Symbol::Scalar(monad, dyad) => goes(Mark::Lead, Mode::Begins(Before::Lead(monad, dyad))),
        Symbol::Function(monadic, _) => monadic_move(monadic),
        Symbol::LeftParenthesis => opens(
            Mark::LeftParenthesis,
            Mode::Begins(Before::Plain),
            OpenBracket::Parenthesis,
        ),
        _ => None,
    }
}

fn begin_statement(symbol: Symbol) -> Option<Move>
    ensures { result ≡ begin_statement symbol }
{
    match symbol {
        Symbol::RightArrow => goes(Mark::Branch, Mode::Begins(Before::Plain)),
        Symbol::Execute => goes(Mark::Execute, Mode::Begins(Before::Plain)),
        other => begin(other),
    }
}

fn begin_line(symbol: Symbol) -> Option<Move>
    ensures { result ≡ begin_line symbol }
{
    match symbol {
        Symbol::Value(_) => goes(Mark::Name, Mode::Ends(Operand::First)),
        other => begin_statement(other),
    }
}

fn close_bracket(top: Option<OpenBracket>) -> Option<Move>
    ensures { result ≡ close_bracket top }
{
    match top? {
        OpenBracket::Parenthesis => None,
        OpenBracket::OfName => closes(Mark::CloseSubscripts, Mode::Ends(Operand::Target)),
        OpenBracket::OfOther => closes(Mark::CloseSubscripts, Mode::Ends(Operand::Other)),
        OpenBracket::Axis => closes(Mark::CloseAxis, Mode::Begins(Before::Plain)),
    }
}

fn close_parenthesis(top: Option<OpenBracket>) -> Option<Move>
    ensures { result ≡ close_parenthesis top }
{
    match top? {
        OpenBracket::Parenthesis => closes(Mark::RightParenthesis, Mode::Ends(Operand::Other)),
        OpenBracket::OfName | OpenBracket::OfOther | OpenBracket::Axis => None,
    }
}

fn next_subscript(top: Option<OpenBracket>) -> Option<Move>
    ensures { result ≡ next_subscript top }
{
    match top? {
        OpenBracket::OfName | OpenBracket::OfOther => {
            goes(Mark::Semicolon, Mode::Begins(Before::Subscript))
        }
        OpenBracket::Parenthesis | OpenBracket::Axis => None,
    }
}

fn begin_subscript(top: Option<OpenBracket>, symbol: Symbol) -> Option<Move>
    ensures { result ≡ begin_subscript top symbol }
{
    match symbol {
        Symbol::Semicolon => next_subscript(top),
        Symbol::RightBracket => close_bracket(top),
        other => begin(other),
    }
}

fn begin_axis(symbol: Symbol) -> Option<Move>
    ensures { result ≡ begin_axis symbol }
{
    match symbol {
        Symbol::LeftBracket => opens(
            Mark::OpenAxis,
            Mode::Begins(Before::Plain),
            OpenBracket::Axis,
        ),
        other => begin(other),
    }
}

fn begin_product(symbol: Symbol) -> Option<Move>
    ensures { result ≡ begin_product symbol }
{
    match symbol {
        Symbol::Dot => goes(Mark::Dot, Mode::Factor),
        other => begin(other),
    }
}

fn begin_lead(monad: Option<Monad>, dyad: Option<Dyad>, symbol: Symbol) -> Option<Move>
    ensures { result ≡ begin_lead monad dyad symbol }
{
    match symbol {
        Symbol::Slash(_) if dyad.is_some() => { goes(Mark::Slash, Mode::Begins(Before::Axis)) }
        Symbol::Slash(_) => None,
        other if monad.is_some() => begin(other),
        _ => None,
    }
}

fn begin_by(before: Before, top: Option<OpenBracket>, symbol: Symbol) -> Option<Move>
    ensures { result ≡ begin_by before top symbol }
{
    match before {
        Before::Line => begin_line(symbol),
        Before::Statement => begin_statement(symbol),
        Before::Plain => begin(symbol),
        Before::Subscript => begin_subscript(top, symbol),
        Before::Axis => begin_axis(symbol),
        Before::Product => begin_product(symbol),
        Before::Lead(monad, dyad) => begin_lead(monad, dyad, symbol),
    }
}

fn is_bare_name(operand: Operand) -> bool
    ensures { result ≡ is_bare_name operand }
{
    matches!(operand, Operand::First | Operand::Name)
}

fn is_target(operand: Operand) -> bool
    ensures { result ≡ is_target operand }
{
    !matches!(operand, Operand::Other)
}

fn is_first(operand: Operand) -> bool
    ensures { result ≡ is_first operand }
{
    matches!(operand, Operand::First)
}

fn scalar_move(dyad: Option<Dyad>) -> Option<Move>
    ensures { result ≡ scalar_move dyad }
{
    dyad?;
    goes(Mark::Scalar, Mode::Begins(Before::Product))
}

fn go_on(operand: Operand, top: Option<OpenBracket>, symbol: Symbol) -> Option<Move>
    ensures { result ≡ go_on operand top symbol }
{
    match symbol {
        Symbol::Scalar(_, dyad) => scalar_move(dyad),
        Symbol::Slash(_) => goes(Mark::Dyadic, Mode::Begins(Before::Axis)),
        Symbol::Function(_, dyadic) => dyadic_move(dyadic),
        Symbol::Jot => goes(Mark::Jot, Mode::Jot),
        Symbol::LeftBracket => {
            let bracket = if is_bare_name(operand) {
                OpenBracket::OfName
            } else {
                OpenBracket::OfOther
            };
            opens(
                Mark::OpenSubscripts,
                Mode::Begins(Before::Subscript),
                bracket,
            )
        }
        Symbol::LeftArrow if is_target(operand) => goes(Mark::Gets, Mode::Begins(Before::Plain)),
        Symbol::Colon if is_first(operand) => goes(Mark::Colon, Mode::Begins(Before::Statement)),
        Symbol::RightParenthesis => close_parenthesis(top),
        Symbol::RightBracket => close_bracket(top),
        Symbol::Semicolon => next_subscript(top),
        _ => None,
    }
}

fn jot_dot(symbol: Symbol) -> Option<Move>
    ensures { result ≡ jot_dot symbol }
{
    match symbol {
        Symbol::Dot => goes(Mark::Dot, Mode::Factor),
        _ => None,
    }
}

fn factor_move(dyad: Option<Dyad>) -> Option<Move>
    ensures { result ≡ factor_move dyad }
{
    dyad?;
    goes(Mark::Factor, Mode::Begins(Before::Plain))
}

fn factor(symbol: Symbol) -> Option<Move>
    ensures { result ≡ factor symbol }
{
    match symbol {
        Symbol::Scalar(_, dyad) => factor_move(dyad),
        _ => None,
    }
}

/// What a token does, by what stands before it and by the bracket that was opened last, or `None` where no line goes on
/// with it.
#[tactic(auto, unfolding(crate::specs::Marks::step))]
pub fn step(mode: Mode, top: Option<OpenBracket>, symbol: Symbol) -> Option<Move>
    ensures { result ≡ step mode top symbol }
{
    match mode {
        Mode::Begins(before) => begin_by(before, top, symbol),
        Mode::Ends(operand) => go_on(operand, top, symbol),
        Mode::Jot => jot_dot(symbol),
        Mode::Factor => factor(symbol),
    }
}

fn may_be_nothing(before: Before) -> bool
    ensures { result ≡ may_be_nothing before }
{
    matches!(before, Before::Line | Before::Statement)
}

/// Whether the line may end.
#[tactic(auto, unfolding(crate::specs::Marks::may_end))]
pub fn may_end(mode: Mode, top: Option<OpenBracket>) -> bool
    ensures { result ≡ may_end mode top }
{
    match mode {
        Mode::Begins(before) => may_be_nothing(before),
        Mode::Ends(_) => top.is_none(),
        Mode::Jot | Mode::Factor => false,
    }
}
