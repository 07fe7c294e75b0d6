use anyhow::{Context, Result, bail};
use apl_arrays::{Array, Fail, Way};
use apl_structure::{
    catenate, compress, expand, iota, ravel, reverse, rotate, shape_of, transpose,
};
use case_fields::{array_of, axis_of, outcome_text, way_of};
use case_tables::Trial;
use std::alloc::Global;

/// Functions of one argument: the argument; the result.
#[derive(Clone, Copy, Debug)]
pub enum OfOne {
    ShapeOf,
    Ravel,
    Iota,
    Transpose,
}

/// Functions of two arguments along an axis: the left argument, the function, the axis or `-`, and the right argument;
/// the result.
#[derive(Clone, Copy, Debug)]
pub enum AlongAxis {
    Rotate,
    Compress,
    Expand,
}

/// Reversals: the function, the axis or `-`, and the argument; the result.
#[derive(Clone, Copy, Debug)]
pub struct Reversals;

/// Joins: an argument, the axis or `-`, and an argument; the result.
#[derive(Clone, Copy, Debug)]
pub struct Joins;

impl OfOne {
    fn outcome(self, alloc: Global, argument: &Array) -> Result<Array, Fail> {
        match self {
            OfOne::ShapeOf => shape_of(alloc, argument),
            OfOne::Ravel => ravel(alloc, argument),
            OfOne::Iota => iota(alloc, argument),
            OfOne::Transpose => transpose(alloc, argument),
        }
    }
}

impl Trial for OfOne {
    fn given(&self) -> usize {
        1
    }

    fn found(&self, alloc: Global, fields: &[&str]) -> Result<String> {
        let argument = array_of(alloc, *fields.first().context("an argument is wanted")?)?;
        outcome_text(alloc, self.outcome(alloc, &argument))
    }
}

impl AlongAxis {
    fn outcome(
        self,
        alloc: Global,
        left: &Array,
        right: &Array,
        way: Way,
        axis: Option<i64>,
    ) -> Result<Array, Fail> {
        match self {
            AlongAxis::Rotate => rotate(alloc, left, right, way, axis),
            AlongAxis::Compress => compress(alloc, left, right, way, axis),
            AlongAxis::Expand => expand(alloc, left, right, way, axis),
        }
    }
}

impl Trial for AlongAxis {
    fn given(&self) -> usize {
        4
    }

    fn found(&self, alloc: Global, fields: &[&str]) -> Result<String> {
        let [left, sign, axis, right, ..] = fields else {
            bail!("an argument, a function, an axis and an argument are wanted");
        };
        let (way, axis) = (way_of(*sign)?, axis_of(alloc, *axis)?);
        let (left, right) = (array_of(alloc, *left)?, array_of(alloc, *right)?);
        outcome_text(alloc, self.outcome(alloc, &left, &right, way, axis))
    }
}

impl Trial for Reversals {
    fn given(&self) -> usize {
        3
    }

    fn found(&self, alloc: Global, fields: &[&str]) -> Result<String> {
        let [sign, axis, argument, ..] = fields else {
            bail!("a function, an axis and an argument are wanted");
        };
        let (way, axis) = (way_of(*sign)?, axis_of(alloc, *axis)?);
        let argument = array_of(alloc, *argument)?;
        outcome_text(alloc, reverse(alloc, &argument, way, axis))
    }
}

impl Trial for Joins {
    fn given(&self) -> usize {
        3
    }

    fn found(&self, alloc: Global, fields: &[&str]) -> Result<String> {
        let [left, axis, right, ..] = fields else {
            bail!("an argument, an axis and an argument are wanted");
        };
        let axis = axis_of(alloc, *axis)?;
        let (left, right) = (array_of(alloc, *left)?, array_of(alloc, *right)?);
        outcome_text(alloc, catenate(alloc, &left, &right, axis))
    }
}
