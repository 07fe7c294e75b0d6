ghost use Rattle.std.specs.Prelude.{◌≡◌, All, IfErr, IfOk, Ok, length, true};
ghost use Rattle.line_scanner.specs.Scanning.{reading_of};
ghost use Rattle.line_trees.specs.Parsing.{parsed};
ghost use Rattle.apl_meaning.specs.Reading.{read_with};
ghost use Rattle.apl_values.specs.Parts.{IsNotRead, IsPart, IsReadFrom, reading_tree};

use crate::classing::{classes_for, tells_all};
use crate::reading::{LineReading, parsed, scanned};
use apl_arrays::{Fail, Line, WantOfMemory};
use apl_workspace::Workspace;
use line_scanner::Tokens;
use line_trees::Classes;
use std::alloc::Global;
use std::marker::Model;
use std::sync::Arc;

/// A text that was read once: its tokens, the classes by which it was read, and its reading, which any workspace gives it that
/// tells the same of the names among its tokens. It is seen as its reading.
#[derive(Drop)]
pub struct KnownLine {
    text: Line,
    tokens: Tokens,
    classes: Classes,
    reading: Arc<LineReading>,
}

impl Model for KnownLine {
    ghost use Rattle.std.specs.Arc.{arc_value};
    ghost use Rattle.apl_values.specs.Known.{IsKnown};
    ghost use Rattle.apl_values.specs.declared.reading.LineReading.{LineReading as Read};

    ghost Value = { Read };

    ghost view = { λ k. arc_value k.reading };

    ghost invariant = { λ k. IsKnown k.text.items k.tokens k.classes.items (arc_value k.reading) };
}

impl KnownLine {
    ghost use Rattle.std.specs.Arc.{arc_value};

    /// Reads a text, with the classes of this moment: CHARACTER ERROR where a glyph stands that no token has, else SYNTAX ERROR
    /// where the text is no statement. It takes memory for the text, its tokens, classes and parts.
    pub fn read(alloc: Global, workspace: &Workspace, text: &Line) -> Result<KnownLine, Fail>
        ensures read { IfOk result (IsReadFrom workspace.now text.now.items) }
        ensures refused { IfErr result (IsNotRead (read_with workspace.now text.now.items)) }
    {
        let tokens = scanned(alloc, text)?;
        let classes = classes_for(alloc, workspace, &tokens)?;
        let tree = parsed(alloc, &tokens, &classes)?;
        let reading = LineReading::of(alloc, tree)?;
        Ok(KnownLine::of(alloc, text, tokens, classes, reading)?)
    }

    // A text with what was read of it. It takes memory for the text.
    fn of(
        alloc: Global,
        text: &Line,
        tokens: Tokens,
        classes: Classes,
        reading: LineReading,
    ) -> Result<KnownLine, WantOfMemory>
        requires scanned { reading_of text.now.items ≡ Ok tokens.tokens.items }
        requires long { tokens.length ≡ length text.now.items }
        requires tree { parsed classes.items tokens.tokens.items tokens.length ≡ Ok (reading_tree reading) }
        requires parts { All IsPart reading.parts.items }
        ensures { IfOk result (λ known. known ≡ reading) }
    {
        let text = text.copy(alloc)?;
        let reading = Arc::new(alloc, reading)?;
        Ok(KnownLine {
            text,
            tokens,
            classes,
            reading,
        })
    }

    /// The text.
    pub fn text(&self) -> &Line {
        &self.text
    }

    /// Its reading.
    pub fn reading(&self) -> &Arc<LineReading>
        ensures { arc_value result.now ≡ self.now }
    {
        &self.reading
    }

    /// Whether this is the text, and the workspace tells the same of the names among its tokens: then it reads the text so.
    pub fn is_read_on(&self, workspace: &Workspace, text: &Line) -> bool
        ensures { result ≡ true → IsReadFrom workspace.now text.now.items self.now }
    {
        let _weight = workspace.weight();
        self.text.as_slice() == text.as_slice()
            && tells_all(&self.classes, workspace, self.tokens.tokens.as_slice())
    }
}
