ghost use Rattle.std.specs.Prelude.{◌≡◌, ◌≤◌, ◌↔◌, ℕ, List, Some, IfOk, OnOk, is_some, length, map};
ghost use Rattle.apl_arrays.specs.List.{glyphs_in};
ghost use Rattle.apl_arrays.specs.Run.{begins};
ghost use Rattle.apl_workspace.specs.Label.{AreLabels, HasLabel, is_colon, label_in, label_of, line_among, with_label};
ghost use Rattle.apl_workspace.specs.Limits.{most_function_lines};

use crate::blanks::without_blanks;
use apl_arrays::{Glyph, Line, Name, WantOfMemory};
use std::alloc::Global;

/// A label, and the number of the first line that has it.
#[derive(Clone, Copy, Debug)]
pub struct LabelledLine {
    pub label: Name,
    pub line: u32,
}

/// The label of a line: the name with which it begins behind blanks, where a colon follows it behind blanks. What stands
/// behind the colon may be anything.
pub fn label_of(line: &[Glyph]) -> Option<Name>
    ensures { result ≡ label_of line.now }
{
    let line = without_blanks(line);
    let (label, count) = Name::longest(line)?;
    if begins_with_colon(without_blanks(&line[count..])) {
        Some(label)
    } else {
        None
    }
}

/// The labels of lines, each once, with the first line that has it. It takes memory for them.
#[tactic(auto, using(crate::proofs::Labelled::no_labels))]
pub fn labelled_lines(alloc: Global, lines: &[Line]) -> Result<Vec<LabelledLine>, WantOfMemory>
    requires { length lines.now ≤ most_function_lines }
    ensures { IfOk result (λ labels. AreLabels (map glyphs_in lines.now) labels.items) }
{
    let mut labels = Vec::new(alloc);
    let mut number = 0;
    for line in lines {
        number += 1;
        add_line(&mut labels, label_of(line.as_slice()), number)?;
    }
    Ok(labels)
}

/// Adds a line with a label, where no line before it has that label.
fn add_line(
    labels: &mut Vec<LabelledLine>,
    label: Option<Name>,
    line: u32,
) -> Result<(), WantOfMemory>
    ensures { OnOk result (labels.new.items ≡ with_label labels.old.items label line) }
{
    match label {
        Some(label) if !has_label(labels, &label) => {
            labels.push(LabelledLine { label, line })?;
            Ok(())
        }
        _ => Ok(()),
    }
}

/// Whether a label is one of these.
pub fn has_label(labels: &[LabelledLine], label: &Name) -> bool
    ensures { result ≡ is_some (line_among labels.now label.now) }
{
    labels.iter().any(|labelled| labelled.label == *label)
}

fn begins_with_colon(glyphs: &[Glyph]) -> bool
    ensures { result ≡ begins is_colon glyphs.now }
{
    match glyphs.first() {
        Some(first) => *first == Glyph::COLON,
        None => false,
    }
}

/// A line's label is the name that stands at its front, with blanks around it or none, and a colon behind. The call does
/// nothing.
pub fn labels_stand_before_colons()
    ensures { (line label : List ℕ) → (label_of line ≡ Some label) ↔ HasLabel line label }
{}
