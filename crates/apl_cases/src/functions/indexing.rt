use anyhow::{Result, bail};
use apl_arrays::Array;
use apl_structure::{Subs, index, index_assign};
use case_fields::{array_of, optional_of, outcome_text};
use case_tables::Trial;
use std::alloc::Global;

/// Indexing: the array, and the subscripts; the result.
#[derive(Clone, Copy, Debug)]
pub struct Indexings;

/// Indexed assignment: the array, the subscripts, and the items; the array afterwards.
#[derive(Clone, Copy, Debug)]
pub struct Assignments;

// Subscripts with `;` between them, a blank on each side; `-` stands for one that is omitted.
fn subs_of(alloc: Global, field: &str) -> Result<Subs> {
    let mut subs = Subs::new(alloc);
    for part in field.split(" ; ") {
        subs.push(optional_of(alloc, part)?)?;
    }
    Ok(subs)
}

// Subscripts, lent.
fn lent(alloc: Global, subs: &Subs) -> Result<Vec<Option<&Array>>> {
    let mut list = Vec::new(alloc);
    for sub in subs.as_slice() {
        list.push(sub.as_ref())?;
    }
    Ok(list)
}

impl Trial for Indexings {
    fn given(&self) -> usize {
        2
    }

    fn found(&self, alloc: Global, fields: &[&str]) -> Result<String> {
        let [argument, subs, ..] = fields else {
            bail!("an array and subscripts are wanted");
        };
        let argument = array_of(alloc, *argument)?;
        let subs = subs_of(alloc, *subs)?;
        let lent = lent(alloc, &subs)?;
        outcome_text(alloc, index(alloc, &argument, lent.as_slice()))
    }
}

impl Trial for Assignments {
    fn given(&self) -> usize {
        3
    }

    fn found(&self, alloc: Global, fields: &[&str]) -> Result<String> {
        let [argument, subs, items, ..] = fields else {
            bail!("an array, subscripts and items are wanted");
        };
        let (argument, items) = (array_of(alloc, *argument)?, array_of(alloc, *items)?);
        let subs = subs_of(alloc, *subs)?;
        let lent = lent(alloc, &subs)?;
        outcome_text(
            alloc,
            index_assign(alloc, &argument, lent.as_slice(), &items),
        )
    }
}
