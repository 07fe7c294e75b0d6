use crate::functions::signs::dyad_of;
use anyhow::{Result, bail};
use apl_operators::{inner, outer, reduce, scan};
use case_fields::{array_of, axis_of, outcome_text, way_of};
use case_tables::Trial;
use std::alloc::Global;

/// Reductions and scans: the function, `/` or `⌿`, or `\` or `⍀`, the axis or `-`, and the argument; the result.
#[derive(Clone, Copy, Debug)]
pub enum AlongLines {
    Reduce,
    Scan,
}

/// Inner products: the left argument, the two functions, and the right argument; the result.
#[derive(Clone, Copy, Debug)]
pub struct InnerProducts;

/// Outer products: the left argument, the function, and the right argument; the result.
#[derive(Clone, Copy, Debug)]
pub struct OuterProducts;

impl Trial for AlongLines {
    fn given(&self) -> usize {
        4
    }

    fn found(&self, alloc: Global, fields: &[&str]) -> Result<String> {
        let [function, sign, axis, argument, ..] = fields else {
            bail!("a function, an operator, an axis and an argument are wanted");
        };
        let function = dyad_of(*function)?;
        let (way, axis) = (way_of(*sign)?, axis_of(alloc, *axis)?);
        let argument = array_of(alloc, *argument)?;
        let outcome = match self {
            AlongLines::Reduce => reduce(alloc, function, &argument, way, axis),
            AlongLines::Scan => scan(alloc, function, &argument, way, axis),
        };
        outcome_text(alloc, outcome)
    }
}

impl Trial for InnerProducts {
    fn given(&self) -> usize {
        4
    }

    fn found(&self, alloc: Global, fields: &[&str]) -> Result<String> {
        let [left, first, second, right, ..] = fields else {
            bail!("an argument, two functions and an argument are wanted");
        };
        let (first, second) = (dyad_of(*first)?, dyad_of(*second)?);
        let (left, right) = (array_of(alloc, *left)?, array_of(alloc, *right)?);
        outcome_text(alloc, inner(alloc, first, second, &left, &right))
    }
}

impl Trial for OuterProducts {
    fn given(&self) -> usize {
        3
    }

    fn found(&self, alloc: Global, fields: &[&str]) -> Result<String> {
        let [left, function, right, ..] = fields else {
            bail!("an argument, a function and an argument are wanted");
        };
        let function = dyad_of(*function)?;
        let (left, right) = (array_of(alloc, *left)?, array_of(alloc, *right)?);
        outcome_text(alloc, outer(alloc, function, &left, &right))
    }
}
