use crate::calls::given::{array, ended, lent, lent_both, look_at};
use anyhow::Result;
use apl_arrays::{Array, Fail, Way};
use apl_selection::{catenate, compress, expand, index, index_assign};
use case_tables::{Calls, Looks};
use std::alloc::Global;

/// Each call of the functions that join and select items, once.
#[derive(Clone, Copy, Debug)]
pub struct SelectionCalls;

impl Calls for SelectionCalls {
    fn make(&self, alloc: Global, looks: &mut Looks) -> Result<()> {
        ended(each_call(alloc, looks), looks)
    }
}

fn each_call(alloc: Global, looks: &mut Looks) -> Result<(), Fail> {
    lent(array(alloc, &[2, 2], &[3, 1, 4, 2]), |b| {
        joined_and_kept(alloc, b, looks)?;
        selected(alloc, b, looks)
    })
}

// What is joined, kept or filled along an axis.
fn joined_and_kept(alloc: Global, b: &Array, looks: &mut Looks) -> Result<(), Fail> {
    let (a, flags) = (array(alloc, &[2], &[0, 1]), array(alloc, &[3], &[1, 0, 1]));
    lent_both(a, flags, |a, flags| {
        let joined = catenate(alloc, a, b, Some(1));
        look_at(looks, joined, array(alloc, &[3, 2], &[0, 1, 3, 1, 4, 2]))?;
        let kept = compress(alloc, a, b, Way::Last, None);
        look_at(looks, kept, array(alloc, &[2, 1], &[1, 2]))?;
        let filled = expand(alloc, flags, b, Way::First, None);
        look_at(looks, filled, array(alloc, &[3, 2], &[3, 1, 0, 0, 4, 2]))
    })
}

// What subscripts select, and items put over it: all rows, and the columns the other way round.
fn selected(alloc: Global, b: &Array, looks: &mut Looks) -> Result<(), Fail> {
    let columns = array(alloc, &[2], &[2, 1]);
    let over = array(alloc, &[2, 2], &[6, 7, 8, 9]);
    lent_both(columns, over, |columns, over| {
        let subs = [None, Some(columns)];
        let turned = index(alloc, b, &subs);
        look_at(looks, turned, array(alloc, &[2, 2], &[1, 3, 2, 4]))?;
        let assigned = index_assign(alloc, b, &subs, over);
        look_at(looks, assigned, array(alloc, &[2, 2], &[7, 6, 9, 8]))
    })
}
