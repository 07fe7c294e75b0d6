use crate::calls::given::{ended, lent, lent_both, look_at, vector};
use anyhow::Result;
use apl_arrays::{Array, Fail, Report};
use apl_search::{decode, encode, grade_down, grade_up, index_of, member};
use case_tables::{Calls, Looks};
use std::alloc::Global;

/// Each call of the functions that look items up, once, and a report that needs no memory.
#[derive(Clone, Copy, Debug)]
pub struct SearchCalls;

impl Calls for SearchCalls {
    fn make(&self, alloc: Global, looks: &mut Looks) -> Result<()> {
        ended(looked_up(alloc, looks), looks)?;
        ended(digits(alloc, looks), looks)?;
        ended(refused(alloc, looks), looks)
    }
}

// Look-ups by a walk and by halves, and grades.
fn looked_up(alloc: Global, looks: &mut Looks) -> Result<(), Fail> {
    let few = vector(alloc, &[3, 1, 4, 1]);
    let many = [9, 2, 6, 2, 0, 5, -1, 8, 7, 9, 3, -4, 6, 2, 1, 1, 0, 5];
    let first = [1, 2, 3, 2, 5, 6, 7, 8, 9, 1, 11, 12, 3, 2, 15, 15, 5, 6];
    lent_both(few, vector(alloc, &many), |few, many| {
        let found = index_of(alloc, few, few);
        look_at(looks, found, vector(alloc, &[1, 2, 3, 2]))?;
        look_at(looks, index_of(alloc, many, many), vector(alloc, &first))?;
        let members = member(alloc, few, many);
        look_at(looks, members, vector(alloc, &[1, 1, 0, 1]))?;
        look_at(looks, grade_up(alloc, few), vector(alloc, &[2, 4, 1, 3]))?;
        look_at(looks, grade_down(alloc, few), vector(alloc, &[3, 1, 2, 4]))
    })
}

// The digits of a number.
fn digits_of(alloc: Global, bases: &Array, number: i64) -> Result<Array, Fail> {
    let number = Array::scalar(alloc, number)?;
    let digits = encode(alloc, bases, &number);
    drop(number);
    digits
}

// Digits and their value.
fn digits(alloc: Global, looks: &mut Looks) -> Result<(), Fail> {
    let (bases, ones) = (vector(alloc, &[24, 60, 60]), vector(alloc, &[1, 1, 1]));
    lent_both(bases, ones, |bases, ones| {
        let digits = digits_of(alloc, bases, 3661);
        look_at(looks, digits, vector(alloc, &[1, 1, 1]))?;
        let seconds = decode(alloc, bases, ones);
        look_at(looks, seconds, Ok(Array::of_number(3661)))
    })
}

// A digit that leaves 64 bits.
fn refused(alloc: Global, looks: &mut Looks) -> Result<(), Fail> {
    lent(vector(alloc, &[0, -1]), |signs| {
        let least = digits_of(alloc, signs, i64::MIN);
        looks.holds(least.err() == Some(Fail::Report(Report::Domain)));
        Ok(())
    })
}
