mod grades;
mod indexing;
mod of_two;
mod operators;
mod scalar;
mod signs;
mod structure;

use self::grades::Grades;
use self::indexing::{Assignments, Indexings};
use self::of_two::OfTwo;
use self::operators::{AlongLines, InnerProducts, OuterProducts};
use self::scalar::{Dyads, Monads};
use self::structure::{AlongAxis, Joins, OfOne, Reversals};
use anyhow::Result;
use case_tables::{Tally, run_table, run_tables};

fn scalar_functions(rt: &HostRuntime) -> Result<Tally> {
    let mut tally = run_table(rt, "monads.txt", &Monads)?;
    tally.add(run_table(rt, "dyads.txt", &Dyads)?);
    Ok(tally)
}

fn structures(rt: &HostRuntime) -> Result<Tally> {
    let of_one = [
        ("shape_of.txt", OfOne::ShapeOf),
        ("ravel.txt", OfOne::Ravel),
        ("iota.txt", OfOne::Iota),
        ("transpose.txt", OfOne::Transpose),
    ];
    let of_two = [
        ("take.txt", OfTwo::Take),
        ("drop.txt", OfTwo::Drop),
        ("reshape.txt", OfTwo::Reshape),
        ("transpose_by.txt", OfTwo::TransposeBy),
    ];
    let along_axis = [
        ("rotate.txt", AlongAxis::Rotate),
        ("compress.txt", AlongAxis::Compress),
        ("expand.txt", AlongAxis::Expand),
    ];
    let mut tally = run_tables(rt, &of_one)?;
    tally.add(run_tables(rt, &of_two)?);
    tally.add(run_tables(rt, &along_axis)?);
    tally.add(run_table(rt, "reverse.txt", &Reversals)?);
    tally.add(run_table(rt, "catenate.txt", &Joins)?);
    Ok(tally)
}

fn selections(rt: &HostRuntime) -> Result<Tally> {
    let mut tally = run_table(rt, "index.txt", &Indexings)?;
    tally.add(run_table(rt, "index_assign.txt", &Assignments)?);
    Ok(tally)
}

fn searches(rt: &HostRuntime) -> Result<Tally> {
    let of_two = [
        ("index_of.txt", OfTwo::IndexOf),
        ("member.txt", OfTwo::Member),
        ("encode.txt", OfTwo::Encode),
        ("decode.txt", OfTwo::Decode),
    ];
    let mut tally = run_tables(rt, &of_two)?;
    tally.add(run_table(rt, "grade.txt", &Grades)?);
    Ok(tally)
}

fn by_operators(rt: &HostRuntime) -> Result<Tally> {
    let along_lines = [
        ("reduce.txt", AlongLines::Reduce),
        ("scan.txt", AlongLines::Scan),
    ];
    let mut tally = run_tables(rt, &along_lines)?;
    tally.add(run_table(rt, "inner.txt", &InnerProducts)?);
    tally.add(run_table(rt, "outer.txt", &OuterProducts)?);
    Ok(tally)
}

/// Runs the tables of functions and operators.
pub fn function_tables(rt: &HostRuntime) -> Result<Tally> {
    let mut tally = scalar_functions(rt)?;
    tally.add(structures(rt)?);
    tally.add(selections(rt)?);
    tally.add(searches(rt)?);
    tally.add(by_operators(rt)?);
    Ok(tally)
}
