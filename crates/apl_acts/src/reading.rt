ghost use Rattle.std.specs.Prelude.{IfErr, IfOk};
ghost use Rattle.apl_meaning.specs.Reading.{read_with};
ghost use Rattle.apl_values.specs.Parts.{IsNotRead};
ghost use Rattle.apl_acts.specs.Alone.{IsLineRead};

use crate::alone::act_alone;
use apl_arrays::{Fail, Line};
use apl_values::{scanned, tree_of_tokens};
use apl_workspace::Workspace;
use line_trees::Tree;
use std::alloc::Global;
use sv_events::Act;

/// A line that was read: one act alone, or a tree.
#[derive(Debug, Drop)]
pub enum LineRead {
    Alone(Act),
    Tree(Tree),
}

/// A line as it is read, with the classes of this moment: one act alone, or its tree; CHARACTER ERROR where a glyph stands
/// that no token has, else SYNTAX ERROR where the line is no statement. It takes memory for tokens, classes and nodes.
pub fn read_line(alloc: Global, workspace: &Workspace, line: &Line) -> Result<LineRead, Fail>
    ensures read { IfOk result (IsLineRead workspace.now line.now.items) }
    ensures refused { IfErr result (IsNotRead (read_with workspace.now line.now.items)) }
{
    let _weight = workspace.weight();
    let tokens = scanned(alloc, line)?;
    match act_alone(alloc, workspace, tokens.tokens.as_slice())? {
        Some(act) => Ok(LineRead::Alone(act)),
        None => Ok(LineRead::Tree(tree_of_tokens(alloc, workspace, &tokens)?)),
    }
}
