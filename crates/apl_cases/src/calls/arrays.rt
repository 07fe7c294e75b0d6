ghost use Rattle.std.specs.Prelude.{IsTrue, OnOk};

use crate::calls::given::lent;
use anyhow::{Result, ensure};
use apl_arrays::{
    Array, ArrayRefused, Bytes, Fail, File, FileList, FileName, GlyphRefused, Items, Line,
    LineList, List, NumberList, Report, WantOfMemory, utf8_of,
};
use case_fields::line_of;
use case_tables::{Calls, Looks};
use std::alloc::Global;
use std::fmt;

/// Lists, lines, files, arrays and texts: what allocates, and the texts of refusals.
#[derive(Clone, Copy, Debug)]
pub struct ArrayCalls;

impl Calls for ArrayCalls {
    fn make(&self, alloc: Global, looks: &mut Looks) -> Result<()> {
        lists_are_edited(alloc, looks)?;
        numbers_are_kept(alloc, looks)?;
        lines_are_edited(alloc, looks)?;
        lines_are_taken_out(alloc, looks)?;
        files_are_listed(alloc, looks)?;
        arrays_are_copied(alloc, looks)?;
        lone_numbers_have_shapes(alloc, looks)?;
        lines_are_spelled(alloc, looks)?;
        refusals_are_named(alloc, looks)
    }
}

// Counts a case that the calls behind it need.
fn needed(looks: &mut Looks, is_so: bool) -> Result<()>
    ensures { OnOk result (IsTrue is_so) }
{
    looks.holds(is_so);
    ensure!(is_so, "a case differs that the next calls need");
    Ok(())
}

// Lines of no glyph, of one and of two.
fn three_lines(alloc: Global) -> Result<LineList> {
    let mut lines = LineList::new(alloc);
    lines.reserve(1)?;
    lines.push(Line::new(alloc))?;
    lines.push(line_of(alloc, "A")?)?;
    lines.push(line_of(alloc, "AB")?)?;
    Ok(lines)
}

// Whether the lines are these.
fn are(alloc: Global, lines: &LineList, texts: &[&str]) -> Result<bool> {
    for (line, text) in lines.as_slice().iter().zip(texts) {
        if *line != line_of(alloc, *text)? {
            return Ok(false);
        }
    }
    Ok(lines.as_slice().len() == texts.len())
}

fn lists_are_edited(alloc: Global, looks: &mut Looks) -> Result<()> {
    let mut list = List::new(alloc);
    list.reserve(2)?;
    list.push_reserved(5);
    list.push(i64::MIN)?;
    list.push(8)?;
    looks.holds(list.as_slice() == [5, i64::MIN, 8].as_slice());
    list.insert(1, 6)?;
    needed(looks, list.as_slice().len() == 4)?;
    looks.holds(list.replace(2, 7) == i64::MIN);
    looks.holds(list.remove(0) == 5);
    looks.holds(list.as_slice() == [6, 7, 8].as_slice());
    let copy = list.copy(alloc)?;
    looks.holds(List::from(list.into_vec()) == copy);
    Ok(())
}

fn numbers_are_kept(alloc: Global, looks: &mut Looks) -> Result<(), WantOfMemory> {
    let mut list = NumberList::one(i64::MIN);
    let made = numbers_are_added(alloc, &mut list, looks);
    drop(list);
    made
}

// Numbers behind one number, which is in a copy too.
fn numbers_are_added(
    alloc: Global,
    list: &mut NumberList,
    looks: &mut Looks,
) -> Result<(), WantOfMemory> {
    lent(list.copy(alloc), |copy| {
        looks.holds(copy.as_slice() == [i64::MIN].as_slice());
        Ok(())
    })?;
    list.push(alloc, 5)?;
    list.push(alloc, 6)?;
    looks.holds(list.as_slice() == [i64::MIN, 5, 6].as_slice());
    lent(
        list.copy(alloc),
        |copy| numbers_are_renewed(alloc, list, copy, looks),
    )
}

// One number in place of more, and these once more from their copy.
fn numbers_are_renewed(
    alloc: Global,
    list: &mut NumberList,
    copy: &NumberList,
    looks: &mut Looks,
) -> Result<(), WantOfMemory> {
    lent(Ok(NumberList::one(7)), |seven| list.renew(alloc, seven))?;
    looks.holds(list.as_slice() == [7].as_slice());
    list.renew(alloc, copy)?;
    looks.holds(list.as_slice() == copy.as_slice());
    Ok(())
}

fn lines_are_edited(alloc: Global, looks: &mut Looks) -> Result<()> {
    let mut lines = three_lines(alloc)?;
    looks.holds(are(alloc, &lines, &["", "A", "AB"])?);
    needed(looks, lines.as_slice().len() == 3)?;
    lines.insert(3, line_of(alloc, "ABC")?)?;
    lines.insert(0, line_of(alloc, "Z")?)?;
    looks.holds(are(alloc, &lines, &["Z", "", "A", "AB", "ABC"])?);
    Ok(())
}

fn lines_are_taken_out(alloc: Global, looks: &mut Looks) -> Result<()> {
    let mut lines = three_lines(alloc)?;
    let made = lines_are_replaced(alloc, &mut lines, looks);
    drop(lines);
    made
}

// Three lines, of which one is replaced and one removed, and a copy of what is left.
fn lines_are_replaced(alloc: Global, lines: &mut LineList, looks: &mut Looks) -> Result<()> {
    needed(looks, lines.as_slice().len() == 3)?;
    let replaced = lines.replace(1, line_of(alloc, "X")?);
    looks.holds(is_line(alloc, replaced, "A")?);
    needed(looks, lines.as_slice().len() == 3)?;
    looks.holds(lines.remove(0).as_slice().is_empty());
    looks.holds(are(alloc, lines, &["X", "AB"])?);
    let copy = LineList::from(lines.copy(alloc)?.into_vec());
    let are_there = are(alloc, &copy, &["X", "AB"]);
    drop(copy);
    looks.holds(are_there?);
    Ok(())
}

// Whether a line is this text.
fn is_line(alloc: Global, line: Line, text: &str) -> Result<bool> {
    match line_of(alloc, text) {
        Ok(wanted) => {
            let is_so = line == wanted;
            drop(line);
            drop(wanted);
            Ok(is_so)
        }
        Err(error) => {
            drop(line);
            Err(error)
        }
    }
}

fn files_are_listed(alloc: Global, looks: &mut Looks) -> Result<()> {
    let Some(name) = FileName::of("a.txt") else {
        looks.holds(false);
        return Ok(());
    };
    let mut files = FileList::new(alloc);
    files.reserve(1)?;
    let bytes = Bytes::from(Vec::from_slice(alloc, b"hello")?);
    files.push(File { name, bytes })?;
    let all = files.into_vec();
    look_at_files(&all, looks);
    drop(all);
    Ok(())
}

fn look_at_files(all: &[File], looks: &mut Looks) {
    looks.holds(all.len() == 1);
    if let [file, ..] = all {
        looks.holds(file.name.as_bytes() == b"a.txt".as_slice());
        looks.holds(file.bytes.as_slice() == b"hello".as_slice());
    }
}

fn arrays_are_copied(alloc: Global, looks: &mut Looks) -> Result<()> {
    lent(
        Array::scalar(alloc, -3),
        |scalar| look_at_copy(alloc, scalar, looks),
    )?;
    let line = line_of(alloc, "∆←")?;
    needed(looks, line.as_slice().len() == 2)?;
    let chars = Array::shaped(alloc, &[2], Items::Chars(line));
    Ok(lent(chars, |chars| look_at_copy(alloc, chars, looks))?)
}

// Counts a case, which differs where an array is not equal to its copy.
fn look_at_copy(alloc: Global, array: &Array, looks: &mut Looks) -> Result<(), WantOfMemory> {
    lent(array.copy(alloc), |copy| {
        looks.holds(*copy == *array);
        Ok(())
    })
}

fn lone_numbers_have_shapes(alloc: Global, looks: &mut Looks) -> Result<(), WantOfMemory> {
    lent(Array::scalar(alloc, -3), |scalar| {
        let mut array = Array::shaped(alloc, &[1], Items::Numbers(NumberList::one(-3)))?;
        let made = vector_becomes_scalar(alloc, &mut array, scalar, looks);
        drop(array);
        made?;
        let same = Array::shaped(alloc, &[], Items::Numbers(NumberList::one(-3)));
        lent(same, |same| {
            looks.holds(*same == *scalar);
            Ok(())
        })
    })
}

fn vector_becomes_scalar(
    alloc: Global,
    array: &mut Array,
    scalar: &Array,
    looks: &mut Looks,
) -> Result<(), WantOfMemory> {
    looks.holds(*array != *scalar);
    looks.holds(array.shape() == [1].as_slice());
    array.renew(alloc, scalar)?;
    looks.holds(*array == *scalar);
    looks.holds(array.shape().is_empty());
    Ok(())
}

fn lines_are_spelled(alloc: Global, looks: &mut Looks) -> Result<()> {
    for text in ["", "1001 set X", "∆←", "X←'∆'"] {
        let bytes = utf8_of(alloc, &line_of(alloc, text)?)?;
        looks.holds(bytes.as_slice() == text.as_bytes());
    }
    Ok(())
}

fn refusals_are_named(alloc: Global, looks: &mut Looks) -> Result<()> {
    look_at_text(alloc, &Fail::from(Report::Syntax), "SYNTAX ERROR", looks)?;
    look_at_text(alloc, &Fail::from(WantOfMemory), "out of memory", looks)?;
    look_at_text(alloc, &WantOfMemory, "out of memory", looks)?;
    look_at_text(alloc, &ArrayRefused::TooLarge, "array too large", looks)?;
    look_at_text(
        alloc,
        &ArrayRefused::BadShape,
        "shape and items differ",
        looks,
    )?;
    look_at_text(
        alloc,
        &GlyphRefused::BadGlyph(3),
        "no glyph at byte 3",
        looks,
    )?;
    look_at_text(
        alloc,
        &GlyphRefused::from(WantOfMemory),
        "out of memory",
        looks,
    )
}

// Counts a case, which differs where a refusal has another text.
fn look_at_text<T: fmt::Display>(
    alloc: Global,
    refusal: &T,
    text: &str,
    looks: &mut Looks,
) -> Result<()> {
    looks.holds(refusal.to_string(alloc)?.as_str() == text);
    Ok(())
}
