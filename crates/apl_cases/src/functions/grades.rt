use anyhow::{Result, bail};
use apl_search::{grade_down, grade_up};
use case_fields::{array_of, outcome_text};
use case_tables::Trial;
use std::alloc::Global;

/// Grades: the function, and the argument; the result.
#[derive(Clone, Copy, Debug)]
pub struct Grades;

impl Trial for Grades {
    fn given(&self) -> usize {
        2
    }

    fn found(&self, alloc: Global, fields: &[&str]) -> Result<String> {
        let [sign, argument, ..] = fields else {
            bail!("a function and an argument are wanted");
        };
        let argument = array_of(alloc, *argument)?;
        let outcome = match *sign {
            "⍋" => grade_up(alloc, &argument),
            "⍒" => grade_down(alloc, &argument),
            _ => bail!("no grade: {sign}"),
        };
        outcome_text(alloc, outcome)
    }
}
