ghost use Rattle.std.specs.Prelude.{◌≡◌, ◌+◌, ◌≤◌, ◌++◌, ◌∷◌, [], IfErr, OnErr, OnOk, length, map};
ghost use Rattle.apl_arrays.specs.List.{glyphs_in};
ghost use Rattle.apl_items.specs.Places.{OnWantOfMemory};
ghost use Rattle.apl_workspace.specs.Limits.{most_printed};
ghost use Rattle.apl_workspace.specs.Workspace.{with_printed};
ghost use Rattle.apl_meaning.specs.Printing.{lines_printed};
ghost use Rattle.apl_statements.specs.Led.{HasLed};
ghost use Rattle.apl_statements.specs.Moves.{HasDone, IsNotPrinted};
ghost use Rattle.apl_statements.specs.Wants.{StopsAtLine};

use crate::interpreter::Interpreter;
use apl_arrays::{Fail, Line, LineList, Report};
use apl_workspace::{PRINTED_LIMIT, Workspace};

impl Interpreter {
    /// Prints lines, one after another, whose glyphs are counted. INTERRUPT at the line that would pass the limit, also where
    /// there is no memory. It takes memory for the output.
    pub fn print_lines(&mut self, lines: Vec<Line>) -> Result<(), Fail>
        ensures printed { HasDone self.old (lines_printed (map glyphs_in lines.items)) self.new result }
        ensures memory { OnWantOfMemory result (StopsAtLine (map glyphs_in lines.items) self.old.workspace.printed self.new.workspace.printed) }
        ensures beside { self.new ≡ record self.old { output = self.new.output; workspace = record self.old.workspace { printed = self.new.workspace.printed } } }
    {
        print_lines(&mut self.workspace, &mut self.output, lines)
    }
}

/// Prints lines, one after another, whose glyphs are counted. INTERRUPT at the line that would pass the limit, also where
/// there is no memory. It takes memory for the output.
pub fn print_lines(
    workspace: &mut Workspace,
    output: &mut LineList,
    lines: Vec<Line>,
) -> Result<(), Fail>
    ensures led { HasLed workspace.old output.old.items (lines_printed (map glyphs_in lines.items)) workspace.new output.new.items result }
    ensures memory { OnWantOfMemory result (StopsAtLine (map glyphs_in lines.items) workspace.old.printed workspace.new.printed) }
    ensures beside { workspace.new ≡ record workspace.old { printed = workspace.new.printed } }
{
    for line in lines {
        print_line(workspace, output, line)?;
    }
    Ok(())
}

// Prints a line, and counts its glyphs. INTERRUPT where they would pass the limit. It takes memory for the output.
fn print_line(workspace: &mut Workspace, output: &mut LineList, line: Line) -> Result<(), Fail>
    ensures counted { OnOk result (workspace.new ≡ with_printed workspace.old (length line.items)) }
    ensures printed { OnOk result (output.new.items ≡ output.old.items ++ line.items ∷ []) }
    ensures fits { OnOk result (workspace.old.printed + length line.items ≤ most_printed) }
    ensures same { OnErr result (workspace.new ≡ workspace.old) }
    ensures left { OnErr result (output.new ≡ output.old) }
    ensures refused { IfErr result (IsNotPrinted (workspace.old.printed + length line.items)) }
{
    let glyphs = line.as_slice().len() as u64;
    if workspace.printed() + glyphs > PRINTED_LIMIT {
        return Err(Fail::Report(Report::Interrupt));
    }
    output.push(line)?;
    workspace.count_printed(glyphs);
    Ok(())
}
