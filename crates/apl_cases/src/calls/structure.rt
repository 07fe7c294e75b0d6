use crate::calls::given::{array, ended, lent, look_at};
use anyhow::Result;
use apl_arrays::{Array, Fail, Way};
use apl_structure::{
    drop_items, iota, ravel, reshape, reverse, rotate, shape_of, take, transpose, transpose_by,
};
use case_tables::{Calls, Looks};
use std::alloc::Global;

/// Each call of the functions of shapes and axes, once.
#[derive(Clone, Copy, Debug)]
pub struct StructureCalls;

impl Calls for StructureCalls {
    fn make(&self, alloc: Global, looks: &mut Looks) -> Result<()> {
        ended(each_call(alloc, looks), looks)
    }
}

fn each_call(alloc: Global, looks: &mut Looks) -> Result<(), Fail> {
    lent(array(alloc, &[2, 3], &[3, 1, 4, 2, 7, 5]), |b| {
        shaped(alloc, b, looks)?;
        taken(alloc, b, looks)?;
        turned(alloc, b, looks)
    })
}

// Numbers from 1 on, a shape, and items in another shape.
fn shaped(alloc: Global, b: &Array, looks: &mut Looks) -> Result<(), Fail> {
    lent(Ok(Array::of_number(2)), |two| {
        look_at(looks, iota(alloc, two), array(alloc, &[2], &[1, 2]))?;
        look_at(looks, reshape(alloc, two, b), array(alloc, &[2], &[3, 1]))?;
        look_at(looks, shape_of(alloc, b), array(alloc, &[2], &[2, 3]))?;
        let all = ravel(alloc, b);
        look_at(looks, all, array(alloc, &[6], &[3, 1, 4, 2, 7, 5]))
    })
}

// What is taken and dropped along each axis.
fn taken(alloc: Global, b: &Array, looks: &mut Looks) -> Result<(), Fail> {
    lent(array(alloc, &[2], &[1, -2]), |counts| {
        let first = take(alloc, counts, b);
        look_at(looks, first, array(alloc, &[1, 2], &[1, 4]))?;
        let rest = drop_items(alloc, counts, b);
        look_at(looks, rest, array(alloc, &[1, 1], &[2]))
    })
}

// Lines and axes the other way round.
fn turned(alloc: Global, b: &Array, looks: &mut Looks) -> Result<(), Fail> {
    lent(array(alloc, &[2], &[2, 1]), |two_one| {
        let rows = reverse(alloc, b, Way::First, None);
        look_at(looks, rows, array(alloc, &[2, 3], &[2, 7, 5, 3, 1, 4]))?;
        let lines = rotate(alloc, two_one, b, Way::Last, None);
        look_at(looks, lines, array(alloc, &[2, 3], &[4, 3, 1, 7, 5, 2]))?;
        look_at(looks, transpose_by(alloc, two_one, b), transpose(alloc, b))?;
        let across = transpose(alloc, b);
        look_at(looks, across, array(alloc, &[3, 2], &[3, 2, 1, 7, 4, 5]))
    })
}
