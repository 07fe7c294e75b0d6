use anyhow::Result;
use apl_arrays::Array;
use case_tables::{Calls, Looks};
use std::alloc::Global;
use sv_access::{AccessState, Side};
use sv_kept::Share;

/// A share by which a value goes over, and another back.
#[derive(Clone, Copy, Debug)]
pub struct StoryCalls;

// Whether a value is the scalar of this number.
fn is_number(value: Option<&Array>, number: i64) -> bool {
    let wanted = Array::of_number(number);
    let is_so = value == Some(&wanted);
    drop(wanted);
    is_so
}

// A side uses the value. Whether it gets this number.
fn gets(share: &mut Share, side: Side, number: i64) -> Result<bool> {
    let got = share.get(side)?;
    let is_so = is_number(got.as_ref(), number);
    drop(got);
    Ok(is_so)
}

// A gave 3 and sets 4, B gets 4.
fn goes_over(looks: &mut Looks, share: &mut Share) -> Result<()> {
    looks.holds(share.state() == AccessState::UnseenA);
    share.set(Side::A, Array::of_number(4))?;
    looks.holds(is_number(share.known(Side::A), 4));
    looks.holds(share.known(Side::B).is_none());
    looks.holds(gets(share, Side::B, 4)?);
    looks.holds(share.state() == AccessState::Quiet);
    looks.holds(is_number(share.known(Side::B), 4));
    Ok(())
}

// B sets 5, and both get 5.
fn comes_back(looks: &mut Looks, share: &mut Share) -> Result<()> {
    share.set(Side::B, Array::of_number(5))?;
    looks.holds(share.state() == AccessState::UnseenB);
    looks.holds(gets(share, Side::B, 5)?);
    looks.holds(share.state() == AccessState::UnseenB);
    looks.holds(gets(share, Side::A, 5)?);
    Ok(())
}

fn goes_both_ways(looks: &mut Looks, share: &mut Share) -> Result<()> {
    goes_over(looks, share)?;
    comes_back(looks, share)
}

// Both sides know 5 in the end.
fn both_know(looks: &mut Looks, share: Share) {
    let known = share.into_known();
    looks.holds(is_number(known.a.as_ref(), 5));
    looks.holds(is_number(known.b.as_ref(), 5));
    drop(known);
}

impl Calls for StoryCalls {
    fn make(&self, alloc: Global, looks: &mut Looks) -> Result<()> {
        let mut share = Share::new(alloc, Some(Array::of_number(3)), None);
        match goes_both_ways(looks, &mut share) {
            Ok(()) => {
                both_know(looks, share);
                Ok(())
            }
            Err(error) => {
                drop(share);
                Err(error)
            }
        }
    }
}
