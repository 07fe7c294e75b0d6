use anyhow::{Result, bail};
use apl_arrays::{Array, Fail};
use apl_search::{decode, encode, index_of, member};
use apl_structure::{drop_items, reshape, take, transpose_by};
use case_fields::{array_of, outcome_text};
use case_tables::Trial;
use std::alloc::Global;

/// Functions of two arguments without an axis: the arguments; the result.
#[derive(Clone, Copy, Debug)]
pub enum OfTwo {
    Take,
    Drop,
    Reshape,
    TransposeBy,
    IndexOf,
    Member,
    Encode,
    Decode,
}

impl OfTwo {
    fn outcome(self, alloc: Global, left: &Array, right: &Array) -> Result<Array, Fail> {
        match self {
            OfTwo::Take => take(alloc, left, right),
            OfTwo::Drop => drop_items(alloc, left, right),
            OfTwo::Reshape => reshape(alloc, left, right),
            OfTwo::TransposeBy => transpose_by(alloc, left, right),
            OfTwo::IndexOf => index_of(alloc, left, right),
            OfTwo::Member => member(alloc, left, right),
            OfTwo::Encode => encode(alloc, left, right),
            OfTwo::Decode => decode(alloc, left, right),
        }
    }
}

impl Trial for OfTwo {
    fn given(&self) -> usize {
        2
    }

    fn found(&self, alloc: Global, fields: &[&str]) -> Result<String> {
        let [left, right, ..] = fields else {
            bail!("two arguments are wanted");
        };
        let (left, right) = (array_of(alloc, *left)?, array_of(alloc, *right)?);
        outcome_text(alloc, self.outcome(alloc, &left, &right))
    }
}
