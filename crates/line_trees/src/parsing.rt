ghost use Rattle.std.specs.Prelude.{◌≡◌, ◌-◌, Ok, IfOk, IfErr, length, map};
ghost use Rattle.line_trees.specs.Parsing.{parsed, plain_tree, IsRefusal, tree_of};
ghost use Rattle.line_trees.specs.Building.{built_from};
ghost use Rattle.line_trees.specs.Builders.{plain_builder};
ghost use Rattle.line_scanner.specs.Token.{plain_token};

use crate::builder::Builder;
use crate::marking::marks_of;
use crate::tree::Mark;
use crate::{Classes, ParseRefused, Tree};
use apl_arrays::WantOfMemory;
use line_scanner::{Token, Tokens};
use std::alloc::Global;

/// What the marks of tokens build, from right to left.
#[tactic(auto, using(crate::proofs::Loops::building))]
fn built_from(
    alloc: Global,
    classes: &Classes,
    marks: &[Mark],
    tokens: &[Token],
) -> Result<Builder, WantOfMemory>
    requires { length marks.now ≡ length tokens.now }
    ensures { IfOk result (λ b. plain_builder b ≡ built_from classes.now.items marks.now (map plain_token tokens.now)) }
{
    let mut builder = Builder::new(alloc);
    let mut at = tokens.len();
    while at > 0 {
        at -= 1;
        let kind = &tokens[at].kind;
        builder.read(alloc, marks[at], classes, kind)?;
    }
    Ok(builder)
}

/// The tree that the grammar gives to a line's tokens, where the names have these classes. `SyntaxError` tells the first
/// token that cannot stand where it does, by its place, or the line's length where the line stops short. It takes memory
/// for the nodes, and for each token while it works.
#[tactic(auto, using(crate::proofs::Loops::same_length))]
pub fn parse(alloc: Global, tokens: &Tokens, names: &Classes) -> Result<Tree, ParseRefused>
    ensures tree { IfOk result (λ tree. parsed names.now.items tokens.now.tokens.items tokens.now.length ≡ Ok (plain_tree tree)) }
    ensures refused { IfErr result (λ refused. IsRefusal refused (parsed names.now.items tokens.now.tokens.items tokens.now.length)) }
{
    let marks = marks_of(alloc, tokens, names)?;
    let builder = built_from(alloc, names, marks.as_slice(), tokens.tokens.as_slice())?;
    Ok(builder.into_tree())
}
