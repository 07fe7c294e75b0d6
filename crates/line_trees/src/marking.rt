ghost use Rattle.std.specs.Prelude.{◌≡◌, Ok, Err, [], ◌∷◌, ◌++◌, IfOk, IfErr, OnOk, List};
ghost use Rattle.line_scanner.specs.Token.{plain_kind, plain_token};
ghost use Rattle.line_trees.specs.Marks.{marks_from, open_after, step};
ghost use Rattle.line_trees.specs.Symbols.{symbol_of};
ghost use Rattle.line_trees.specs.Marks.{IsMarkRefusal};

use crate::machine::{Before, Mode, Move, NestingChange, OpenBracket, may_end, step};
use crate::stack::Stack;
use crate::symbol::{Symbol, name_symbol, sign_symbol, system_symbol};
use crate::tree::Mark;
use crate::{Classes, ParseRefused};
use apl_arrays::WantOfMemory;
use line_scanner::{TokenKind, Tokens};
use smallvec::SmallVec;
use std::alloc::Global;

fn make_change(brackets: &mut Stack<OpenBracket>, change: NestingChange) -> Result<(), WantOfMemory>
    ensures { OnOk result (brackets.new ≡ open_after change brackets.old) }
{
    match change {
        NestingChange::Keep => Ok(()),
        NestingChange::Open(bracket) => brackets.push(bracket),
        NestingChange::Close => {
            brackets.pop();
            Ok(())
        }
    }
}

/// What a token of this kind does.
fn step_of(
    classes: &Classes,
    mode: Mode,
    top: Option<OpenBracket>,
    kind: &TokenKind,
) -> Option<Move>
    ensures { result ≡ step mode top (symbol_of classes.now.items (plain_kind kind.now)) }
{
    match kind {
        TokenKind::Numbers(_) | TokenKind::Chars(_) => step(mode, top, Symbol::Constant),
        TokenKind::Name(name) => step(mode, top, name_symbol(classes.arguments_of(name), *name)),
        TokenKind::System(name) => step(mode, top, system_symbol(*name)),
        TokenKind::Sign(glyph) => step(mode, top, sign_symbol(*glyph)),
    }
}

/// Marks, of which those of a short line take no memory.
pub type Marks = SmallVec<Mark, 24>;

// Adds a mark. It takes memory where there is no room.
fn add_mark(marks: &mut Marks, mark: Mark) -> Result<(), WantOfMemory>
    ensures { OnOk result (marks.new.items ≡ marks.old.items ++ mark ∷ []) }
{
    marks.push(mark)?;
    Ok(())
}

/// What each token does in its line. It takes memory for the marks of a long line.
#[tactic(auto, using(crate::proofs::Loops::marking))]
pub fn marks_of(alloc: Global, tokens: &Tokens, classes: &Classes) -> Result<Marks, ParseRefused>
    ensures marks { IfOk result (λ marks. marks_from classes.now.items tokens.now.length (Mode.Begins Before.Line) [] tokens.now.tokens.items ≡ Ok marks.items) }
    ensures refused { IfErr result (λ refused. IsMarkRefusal refused (marks_from classes.now.items tokens.now.length (Mode.Begins Before.Line) [] tokens.now.tokens.items)) }
{
    let mut marks = Marks::new(alloc);
    let mut brackets = Stack::new(alloc);
    let mut mode = Mode::Begins(Before::Line);
    for token in tokens.tokens.as_slice() {
        let Some(next) = step_of(classes, mode, brackets.top(), &token.kind) else {
            return Err(ParseRefused::SyntaxError(token.at));
        };
        add_mark(&mut marks, next.mark)?;
        make_change(&mut brackets, next.change)?;
        mode = next.mode;
    }
    if may_end(mode, brackets.top()) {
        Ok(marks)
    } else {
        Err(ParseRefused::SyntaxError(tokens.length))
    }
}
