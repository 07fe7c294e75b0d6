ghost use Rattle.std.specs.Prelude.{◌≡◌, ◌≤◌, ◌+◌, IfOk, map, min, pos};
ghost use Rattle.std.specs.List.{flat_map};
ghost use Rattle.apl_arrays.specs.Limits.{most_elements};
ghost use Rattle.apl_meaning.specs.Expressions.{valued};
ghost use Rattle.apl_meaning.specs.Queries.{filled, list_outcome, longest, name_matrix, party_vector};
ghost use Rattle.apl_items.specs.Answers.{AnswersFirst, answer_of, shape_faults};
ghost use Rattle.apl_items.specs.Places.{OnWantOfMemory};
ghost use Rattle.apl_statements.specs.Moves.{Comes, part_gives};
ghost use Rattle.apl_statements.specs.Sound.{IsCaller, IsFlow};
ghost use Rattle.apl_statements.specs.Wants.{NoReportIsDue};
ghost use Rattle.apl_statements.specs.Work.{StaysWithin};

use apl_arrays::{
    Array, ELEMENT_LIMIT, Fail, Items, Line, List, Name, NumberList, Report, WantOfMemory,
    shape_fault,
};
use apl_statements::{Evaluation, Flow, Interpreter};
use apl_values::StackValue;
use line_text::{add_blanks, add_glyphs};
use std::alloc::Global;

/// The parties that are listed are the value, as a vector; WS FULL where they are too many, also where there is no memory.
pub fn list_parties(interpreter: &Interpreter, e: Evaluation, parties: &[u32]) -> Result<Flow, Fail>
    requires sound { IsCaller interpreter.now.workspace e }
    ensures comes { Comes interpreter.now (part_gives interpreter.now e (λ s. valued (list_outcome (party_vector parties.now) s))) 0 interpreter.now result }
    ensures memory { OnWantOfMemory result (NoReportIsDue interpreter.now (list_outcome (party_vector parties.now))) }
    ensures sound { IfOk result (IsFlow interpreter.now) }
    ensures within { IfOk result (StaysWithin interpreter.now e interpreter.now) }
{
    let array = party_vector(interpreter.alloc, parties)?;
    interpreter.give(e, StackValue::Made(array))
}

// The parties in a vector; WS FULL where they are too many, also where there is no memory.
fn party_vector(alloc: Global, parties: &[u32]) -> Result<Array, Fail>
    ensures { AnswersFirst result (answer_of (shape_faults (party_vector parties.now).shape) (party_vector parties.now)) }
{
    let shape = [capped(parties.len())];
    if shape_fault(&shape).is_some() {
        return Err(Fail::Report(Report::WsFull));
    }
    let numbers = party_numbers(alloc, parties)?;
    Ok(Array::shaped(alloc, &shape, Items::Numbers(numbers))?)
}

// The parties as numbers.
fn party_numbers(alloc: Global, parties: &[u32]) -> Result<NumberList, WantOfMemory>
    ensures { IfOk result (λ numbers. numbers.items ≡ map (λ party. pos party) parties.now) }
{
    let mut numbers = List::new(alloc);
    for party in parties {
        numbers.push(i64::from(*party))?;
    }
    Ok(NumberList::from(numbers))
}

/// The names that are listed are the value, a row each, filled with blanks to the longest; WS FULL where the matrix would be too
/// large, also where there is no memory.
pub fn list_names(interpreter: &Interpreter, e: Evaluation, names: &[Name]) -> Result<Flow, Fail>
    requires sound { IsCaller interpreter.now.workspace e }
    ensures comes { Comes interpreter.now (part_gives interpreter.now e (λ s. valued (list_outcome (name_matrix names.now) s))) 0 interpreter.now result }
    ensures memory { OnWantOfMemory result (NoReportIsDue interpreter.now (list_outcome (name_matrix names.now))) }
    ensures sound { IfOk result (IsFlow interpreter.now) }
    ensures within { IfOk result (StaysWithin interpreter.now e interpreter.now) }
{
    let array = name_matrix(interpreter.alloc, names)?;
    interpreter.give(e, StackValue::Made(array))
}

// The names in a matrix; WS FULL where it would be too large, also where there is no memory.
fn name_matrix(alloc: Global, names: &[Name]) -> Result<Array, Fail>
    ensures { AnswersFirst result (answer_of (shape_faults (name_matrix names.now).shape) (name_matrix names.now)) }
{
    let width = longest(names);
    let shape = [capped(names.len()), capped(width)];
    if shape_fault(&shape).is_some() {
        return Err(Fail::Report(Report::WsFull));
    }
    let glyphs = filled_names(alloc, names, width)?;
    Ok(Array::shaped(alloc, &shape, Items::Chars(glyphs))?)
}

// The length of the longest of names.
fn longest(names: &[Name]) -> usize
    ensures { result ≡ longest names.now }
{
    let mut width = 0;
    for name in names {
        width = width.max(name.glyphs().len());
    }
    width
}

// The glyphs of names, each filled with blanks.
fn filled_names(alloc: Global, names: &[Name], width: usize) -> Result<Line, WantOfMemory>
    requires { longest names.now ≤ width }
    ensures { IfOk result (λ glyphs. glyphs.items ≡ flat_map (filled width) names.now) }
{
    let mut glyphs = List::new(alloc);
    for name in names {
        add_glyphs(&mut glyphs, name.glyphs())?;
        add_blanks(&mut glyphs, width - name.glyphs().len())?;
    }
    Ok(glyphs)
}

// The length of an axis; one that is over the limit of all elements stays over it.
fn capped(length: usize) -> u32
    ensures { result ≡ min length (most_elements + 1) }
{
    length.min(ELEMENT_LIMIT + 1) as u32
}
