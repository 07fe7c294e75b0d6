ghost use Rattle.std.specs.Prelude.{◌≡◌, ◌≢◌, ◌∷◌, [], IfOk, OnOk, length, map, option_map, pos, replicate, slice_get};
ghost use Rattle.apl_arrays.specs.Array.{FitsLimits, element_count, number_array};
ghost use Rattle.apl_meaning.specs.Deeds.{control_elements};
ghost use Rattle.apl_meaning.specs.Naming.{result_shape};
ghost use Rattle.apl_values.specs.Rows.{HasTold, plain_deed, plain_name_row, row_zeros, rows_left};

use crate::naming::{Naming, has_rows};
use apl_arrays::{Array, Items, List, NumberList, WantOfMemory};
use std::alloc::Global;
use sv_access::Control;

/// What is done for a row of names.
#[derive(Clone, Copy, Debug, PartialEq, Eq)]
pub enum Deed {
    /// The local name is offered to a party.
    Offer(u32),
    AskDegree,
    SetControl(Control),
    AskControl,
    AskState,
    Retract,
}

impl Deed {
    /// How many numbers it tells.
    pub fn width(self) -> usize
        ensures { result ≡ length (row_zeros (plain_deed self)) }
    {
        match self {
            Deed::Offer(_) | Deed::AskDegree | Deed::Retract => 1,
            Deed::SetControl(_) | Deed::AskControl | Deed::AskState => 4,
        }
    }
}

/// A row of names, and what is done for it.
#[derive(Clone, Copy, Debug, PartialEq, Eq)]
pub struct NameRow {
    pub names: Naming,
    pub deed: Deed,
}

/// Rows of names: those that are left from a place on, the numbers of those that are done, and the shape of the result.
#[derive(Debug, Drop)]
pub struct Rows {
    pub rows: Vec<NameRow>,
    pub at: usize,
    pub numbers: List<i64>,
    pub shape: Vec<u32>,
}

impl Rows {
    /// Rows of which none is done. It takes memory for the shape of the result.
    pub fn new(
        alloc: Global,
        rows: Vec<NameRow>,
        n: &Array,
        each: &[u32],
    ) -> Result<Rows, WantOfMemory>
        ensures rows { IfOk result (λ made. rows_left made ≡ map plain_name_row rows.items) }
        ensures numbers { IfOk result (λ made. made.numbers.items ≡ []) }
        ensures shape { IfOk result (λ made. made.shape.items ≡ result_shape n.now each.now) }
    {
        Ok(Rows {
            rows,
            at: 0,
            numbers: List::new(alloc),
            shape: result_shape(alloc, n, each)?,
        })
    }

    /// The row that is next.
    pub fn next(&self) -> Option<NameRow>
        ensures row { option_map plain_name_row result ≡ slice_get (rows_left self.now) 0 }
    {
        self.rows.get(self.at).copied()
    }

    /// The next row told a degree. It takes memory for the number.
    #[tactic(auto, using(crate::proofs::RowSteps::told_one, crate::proofs::RowSteps::left_below))]
    pub fn tell_degree(&mut self, degree: u8) -> Result<(), WantOfMemory>
        requires { rows_left self.old ≢ [] }
        ensures { OnOk result (HasTold self.old (pos degree ∷ []) self.new) }
    {
        self.numbers.push(i64::from(degree))?;
        self.at += 1;
        Ok(())
    }

    /// The next row told four elements. It takes memory for the numbers.
    #[tactic(auto, using(crate::proofs::RowSteps::told_one, crate::proofs::RowSteps::left_below))]
    pub fn tell_control(&mut self, control: Control) -> Result<(), WantOfMemory>
        requires { rows_left self.old ≢ [] }
        ensures told { OnOk result (HasTold self.old (control_elements control) self.new) }
        ensures four { length (control_elements control) ≡ 4 }
    {
        for element in control.0 {
            self.numbers.push(i64::from(element))?;
        }
        self.at += 1;
        Ok(())
    }

    /// The next row makes no act, and its numbers are zeros. It takes memory for them.
    #[tactic(auto, using(crate::proofs::RowSteps::told_one, crate::proofs::RowSteps::left_below))]
    pub fn tell_zeros(&mut self, width: usize) -> Result<(), WantOfMemory>
        requires { rows_left self.old ≢ [] }
        ensures { OnOk result (HasTold self.old (replicate width (pos 0)) self.new) }
    {
        for _told in 0..width {
            self.numbers.push(0)?;
        }
        self.at += 1;
        Ok(())
    }

    /// The array of all numbers. It takes memory, but for a lone number.
    pub fn into_array(self, alloc: Global) -> Result<Array, WantOfMemory>
        requires fits { FitsLimits self.shape.items }
        requires count { element_count self.shape.items ≡ length self.numbers.items }
        ensures { IfOk result (λ array. array ≡ number_array self.shape.items self.numbers.items) }
    {
        let Rows { shape, numbers, .. } = self;
        Array::shaped(alloc, &shape, Items::Numbers(NumberList::from(numbers)))
    }
}

/// The shape of the result of all rows, where a row's has this one. It takes memory for it.
pub fn result_shape(alloc: Global, n: &Array, each: &[u32]) -> Result<Vec<u32>, WantOfMemory>
    ensures { IfOk result (λ shape. shape.items ≡ result_shape n.now each.now) }
{
    let mut shape = Vec::new(alloc);
    if has_rows(n) {
        shape.push(n.shape()[0])?;
    }
    shape.extend_from_slice(each)?;
    Ok(shape)
}
