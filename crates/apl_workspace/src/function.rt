ghost use Rattle.std.specs.Prelude.{◌≡◌, ◌+◌, IfOk, IfSome, length, map, min};
ghost use Rattle.std.specs.List.{list_all};
ghost use Rattle.apl_arrays.specs.List.{glyphs_in};
ghost use Rattle.apl_workspace.specs.Function.{IsFunction, function_of, function_weight, function_with, is_short, keeps_limits, lines_weight};
ghost use Rattle.apl_workspace.specs.Label.{AreLabels};
ghost use Rattle.apl_workspace.specs.Limits.{most_weight};

use crate::Header;
use crate::label::{LabelledLine, labelled_lines};
use crate::limits::{FUNCTION_LINE_LIMIT, WEIGHT_LIMIT};
use apl_arrays::{LINE_GLYPH_LIMIT, Line, LineList, Name, WantOfMemory};
use std::alloc::Global;
use std::marker::Model;

/// A function: its header as it was entered, what that header is, and its lines. It is seen as plain data, and keeps its
/// labels and its weight beside that.
#[derive(Debug, Drop)]
pub struct Function {
    text: Line,
    header: Header,
    lines: LineList,
    labels: Vec<LabelledLine>,
    weight: usize,
}

impl Model for Function {
    ghost use Rattle.apl_workspace.specs.Function.{KeepsLabelsAndWeight, PlainFunction};

    ghost Value = { PlainFunction };

    ghost view = { λ f. record { text = f.text.items; header = f.header; lines = f.lines.items } };

    ghost invariant = { λ f. KeepsLabelsAndWeight (record { text = f.text.items; header = f.header; lines = f.lines.items }) f.labels.items f.weight };
}

impl Function {
    /// The function of a header as it is entered and of lines, or `None` where that is no header, or a limit is passed:
    /// 200 lines, 1,000 glyphs of the header and of each line. It takes memory for the tokens of the header and its
    /// names, and for the labels of the lines.
    #[tactic(auto, using(crate::proofs::Whole::is_function))]
    pub fn of(alloc: Global, text: Line, lines: LineList) -> Result<Option<Function>, WantOfMemory>
        ensures value { IfOk result (λ made. made ≡ function_of text.items lines.items) }
        ensures whole { IfOk result (λ made. IfSome made IsFunction) }
    {
        if !keeps_limits(&text, &lines) {
            drop(text);
            drop(lines);
            return Ok(None);
        }
        match Header::read(alloc, &text)? {
            None => Ok(None),
            Some(header) => Ok(Some(Function::from_parts(alloc, text, header, lines)?)),
        }
    }

    /// The function of a header that was read, and of lines. It takes memory for the labels of the lines.
    pub fn from_parts(
        alloc: Global,
        text: Line,
        header: Header,
        lines: LineList,
    ) -> Result<Function, WantOfMemory>
        requires { IsFunction (function_with text.items lines.items header) }
        ensures value { IfOk result (λ function. function ≡ function_with text.items lines.items header) }
        ensures whole { IfOk result (λ function. IsFunction function) }
    {
        let labels = labelled_lines(alloc, lines.as_slice())?;
        let weight = weight_of(&text, lines.as_slice());
        Ok(Function {
            text,
            header,
            lines,
            labels,
            weight,
        })
    }

    /// Its header as it was entered.
    pub fn text(&self) -> &Line
        ensures { result.now.items ≡ self.now.text }
    {
        &self.text
    }

    /// What its header is.
    pub fn header(&self) -> &Header
        ensures { result.now ≡ self.now.header }
    {
        &self.header
    }

    /// Its lines, in order.
    pub fn lines(&self) -> &[Line]
        ensures { map glyphs_in result.now ≡ self.now.lines }
    {
        self.lines.as_slice()
    }

    /// The labels of its lines, each once, with the first line that has it.
    pub(crate) fn labels(&self) -> &[LabelledLine]
        ensures { AreLabels self.now.lines result.now }
    {
        &self.labels
    }

    /// Its name.
    pub fn name(&self) -> Name
        ensures { result ≡ self.now.header.name }
    {
        let header = &self.header;
        header.name
    }

    /// An equal function. It takes memory for its texts, names and labels.
    pub fn copy(&self, alloc: Global) -> Result<Function, WantOfMemory>
        ensures { IfOk result (λ function. function ≡ self.now) }
    {
        Ok(Function {
            text: self.text.copy(alloc)?,
            header: self.header.copy(alloc)?,
            lines: self.lines.copy(alloc)?,
            labels: Vec::from_slice(alloc, &self.labels)?,
            weight: self.weight,
        })
    }

    /// What it weighs, or one more than a workspace may weigh where that is less.
    pub fn weight(&self) -> usize
        ensures { result ≡ min (function_weight self.now) (most_weight + 1) }
    {
        self.weight
    }
}

/// One, the glyphs of a header, and one for each line and each of its glyphs, or one more than a workspace may weigh where
/// that is less.
fn weight_of(text: &Line, lines: &[Line]) -> usize
    ensures { result ≡ min (1 + length text.now.items + lines_weight (map glyphs_in lines.now)) (most_weight + 1) }
{
    let text = text.as_slice().len().min(WEIGHT_LIMIT);
    (text + 1 + lines_weight(lines)).min(WEIGHT_LIMIT + 1)
}

/// One for each line and each of its glyphs, or one more than a workspace may weigh where that is less.
fn lines_weight(lines: &[Line]) -> usize
    ensures { result ≡ min (lines_weight (map glyphs_in lines.now)) (most_weight + 1) }
{
    let mut weight = 0;
    for line in lines {
        let glyphs = line.as_slice().len().min(WEIGHT_LIMIT);
        weight = (weight + glyphs + 1).min(WEIGHT_LIMIT + 1);
    }
    weight
}

/// Whether a header and lines are within their limits.
fn keeps_limits(text: &Line, lines: &LineList) -> bool
    ensures { result ≡ keeps_limits text.now.items lines.now.items }
{
    let lines = lines.as_slice();
    is_short(text) && lines.len() <= FUNCTION_LINE_LIMIT && all_short(lines)
}

fn is_short(line: &Line) -> bool
    ensures { result ≡ is_short line.now.items }
{
    line.as_slice().len() <= LINE_GLYPH_LIMIT
}

fn all_short(lines: &[Line]) -> bool
    ensures { result ≡ list_all is_short (map glyphs_in lines.now) }
{
    lines.iter().all(|line| is_short(line))
}
