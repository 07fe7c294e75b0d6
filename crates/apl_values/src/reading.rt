ghost use Rattle.std.specs.Prelude.{◌≡◌, All, IfErr, IfOk, Ok, length, map};
ghost use Rattle.line_scanner.specs.Scanning.{reading_of};
ghost use Rattle.line_trees.specs.Nodes.{plain_node};
ghost use Rattle.line_trees.specs.Parsing.{parsed, plain_tree};
ghost use Rattle.line_trees.specs.Trees.{line_tree_of};
ghost use Rattle.apl_meaning.specs.Reading.{classes_of, read_with};
ghost use Rattle.apl_meaning.specs.Statements.{is_misplaced};
ghost use Rattle.apl_values.specs.Places.{plain_place};
ghost use Rattle.apl_values.specs.Parts.{IsTreeOf, IsNotParsed, IsNotRead, IsNotScanned, IsPart, IsReadFrom, IsLineReading, begins_silent, is_assignment_node, parse_failure, plain_part, plain_parts, reading_statement, reading_tree, scan_failure};

use crate::classing::classes_for;
use crate::part::Part;
use crate::place::Place;
use apl_arrays::{Fail, Line, Name, Report, WantOfMemory};
use apl_workspace::Workspace;
use line_scanner::{ScanRefused, Tokens, scan};
use line_trees::{Classes, Form, Node, ParseRefused, Tree, parse};
use std::alloc::Global;

/// A line that was read: its label, its form, and the parts of its expression in the order of evaluation.
#[derive(Debug, Drop)]
pub struct LineReading {
    pub label: Option<Name>,
    pub form: Form,
    pub parts: Vec<Part>,
}

impl LineReading {
    /// The reading of a tree. It takes memory for the parts.
    pub fn of(alloc: Global, tree: Tree) -> Result<LineReading, WantOfMemory>
        ensures tree { IfOk result (λ reading. reading_tree reading ≡ plain_tree tree) }
        ensures parts { IfOk result (λ reading. All IsPart reading.parts.items) }
    {
        let Tree { label, form, nodes } = tree;
        Ok(LineReading {
            label,
            form,
            parts: parts_of(alloc, nodes.into_vec())?,
        })
    }

    /// Whether the line may not stand at the place.
    pub fn is_misplaced(&self, place: Place) -> bool
        ensures { result ≡ is_misplaced (plain_place place) (line_tree_of (reading_tree self.now)) }
    {
        (self.label.is_some() && !place.may_be_labelled())
            || (matches!(self.form, Form::Branch(_)) && !place.may_branch())
    }

    /// Whether the expression begins with a target and an arrow.
    pub fn is_silent(&self) -> bool
        requires { IsLineReading self.now }
        ensures { result ≡ begins_silent (reading_statement self.now) }
    {
        match self.parts.last() {
            None => false,
            Some(part) => is_assignment(part),
        }
    }
}

// Whether a part is an assignment.
fn is_assignment(part: &Part) -> bool
    ensures { result ≡ is_assignment_node (plain_part part.now) }
{
    match part {
        Part::Constant(_) => false,
        Part::Other(node) => matches!(node, Node::Assign { .. }),
    }
}

// The parts that nodes are. It takes memory for them.
fn parts_of(alloc: Global, nodes: Vec<Node>) -> Result<Vec<Part>, WantOfMemory>
    ensures nodes { IfOk result (λ parts. plain_parts parts.items ≡ map plain_node nodes.items) }
    ensures parts { IfOk result (λ parts. All IsPart parts.items) }
{
    let mut parts = Vec::new(alloc);
    parts.reserve(nodes.len())?;
    for node in nodes {
        parts.push_reserved(Part::of(alloc, node)?);
    }
    Ok(parts)
}

/// The reading of a text, with the classes of this moment: CHARACTER ERROR where a glyph stands that no token has, else
/// SYNTAX ERROR where the text is no statement. It takes memory for tokens, classes and parts.
pub fn read(alloc: Global, workspace: &Workspace, text: &Line) -> Result<LineReading, Fail>
    ensures read { IfOk result (IsReadFrom workspace.now text.now.items) }
    ensures refused { IfErr result (IsNotRead (read_with workspace.now text.now.items)) }
{
    let tree = tree_of(alloc, workspace, text)?;
    Ok(LineReading::of(alloc, tree)?)
}

// The tree of a text, with the classes of this moment: CHARACTER ERROR where a glyph stands that no token has, else SYNTAX
// ERROR where the text is no statement. It takes memory for tokens, classes and nodes.
fn tree_of(alloc: Global, workspace: &Workspace, text: &Line) -> Result<Tree, Fail>
    ensures tree { IfOk result (λ tree. IsTreeOf workspace.now text.now.items (plain_tree tree)) }
    ensures refused { IfErr result (IsNotRead (read_with workspace.now text.now.items)) }
{
    let tokens = scanned(alloc, text)?;
    tree_of_tokens(alloc, workspace, &tokens)
}

/// The tokens of a text: CHARACTER ERROR where a glyph stands that no token has, else SYNTAX ERROR where no token ends, each
/// also where there is no memory. It takes memory for them.
pub fn scanned(alloc: Global, text: &Line) -> Result<Tokens, Fail>
    ensures tokens { IfOk result (λ found. reading_of text.now.items ≡ Ok found.tokens.items) }
    ensures length { IfOk result (λ found. found.length ≡ length text.now.items) }
    ensures refused { IfErr result (IsNotScanned (reading_of text.now.items)) }
{
    match scan(alloc, text) {
        Ok(tokens) => Ok(tokens),
        Err(refused) => Err(scan_failure(refused)),
    }
}

// Why a text has no tokens, as the answer of a call.
fn scan_failure(refused: ScanRefused) -> Fail
    ensures { result ≡ scan_failure refused }
{
    match refused {
        ScanRefused::CharacterError(_) => Fail::Report(Report::Character),
        ScanRefused::SyntaxError(_) => Fail::Report(Report::Syntax),
        ScanRefused::WantOfMemory => Fail::WantOfMemory,
    }
}

/// The tree of tokens, with the classes of this moment: SYNTAX ERROR where they are no statement. It takes memory for
/// classes and nodes.
pub fn tree_of_tokens(alloc: Global, workspace: &Workspace, tokens: &Tokens) -> Result<Tree, Fail>
    ensures tree { IfOk result (λ tree. parsed (classes_of workspace.now) tokens.now.tokens.items tokens.now.length ≡ Ok (plain_tree tree)) }
    ensures refused { IfErr result (IsNotParsed (parsed (classes_of workspace.now) tokens.now.tokens.items tokens.now.length)) }
{
    let classes = classes_for(alloc, workspace, tokens)?;
    parsed(alloc, tokens, &classes)
}

/// The tree of tokens, or SYNTAX ERROR.
pub fn parsed(alloc: Global, tokens: &Tokens, classes: &Classes) -> Result<Tree, Fail>
    ensures tree { IfOk result (λ tree. parsed classes.now.items tokens.now.tokens.items tokens.now.length ≡ Ok (plain_tree tree)) }
    ensures refused { IfErr result (IsNotParsed (parsed classes.now.items tokens.now.tokens.items tokens.now.length)) }
{
    match parse(alloc, tokens, classes) {
        Ok(tree) => Ok(tree),
        Err(refused) => Err(parse_failure(refused)),
    }
}

// Why tokens are no tree, as the answer of a call.
fn parse_failure(refused: ParseRefused) -> Fail
    ensures { result ≡ parse_failure refused }
{
    match refused {
        ParseRefused::SyntaxError(_) => Fail::Report(Report::Syntax),
        ParseRefused::WantOfMemory => Fail::WantOfMemory,
    }
}
