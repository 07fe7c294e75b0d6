use crate::functions::signs::{dyad_of, monad_of};
use anyhow::{Result, bail};
use apl_scalar::{dyadic, monadic};
use case_fields::{array_of, outcome_text};
use case_tables::Trial;
use std::alloc::Global;

/// Scalar functions of one argument: the function, and the argument; the result.
#[derive(Clone, Copy, Debug)]
pub struct Monads;

/// Scalar functions of two arguments: the left one, the function, and the right one; the result.
#[derive(Clone, Copy, Debug)]
pub struct Dyads;

impl Trial for Monads {
    fn given(&self) -> usize {
        2
    }

    fn found(&self, alloc: Global, fields: &[&str]) -> Result<String> {
        let [sign, argument, ..] = fields else {
            bail!("a function and an argument are wanted");
        };
        let argument = array_of(alloc, *argument)?;
        outcome_text(alloc, monadic(alloc, monad_of(*sign)?, &argument))
    }
}

impl Trial for Dyads {
    fn given(&self) -> usize {
        3
    }

    fn found(&self, alloc: Global, fields: &[&str]) -> Result<String> {
        let [left, sign, right, ..] = fields else {
            bail!("an argument, a function and an argument are wanted");
        };
        let function = dyad_of(*sign)?;
        let (left, right) = (array_of(alloc, *left)?, array_of(alloc, *right)?);
        outcome_text(alloc, dyadic(alloc, function, &left, &right))
    }
}
