ghost use Rattle.std.specs.Prelude.{◌≡◌, ◌<◌};

use crate::calls::given::{array, ended, lent_both, look_at};
use anyhow::Result;
use apl_arrays::{Fail, Report, Way};
use apl_operators::{Steps, apply};
use apl_verbs::{Dyad, Mix1, Mix2, Monad, Verb};
use case_tables::{Calls, Looks};
use std::alloc::Global;
use std::marker::Brand;
use std::mem::size_of_val;
use std::sync::ledger::{Blank, Ledger};

/// Each kind of verb applied, counted by a counter without bytes.
#[derive(Clone, Copy, Debug)]
pub struct OperatorCalls;

impl Calls for OperatorCalls {
    fn make(&self, alloc: Global, looks: &mut Looks) -> Result<()> {
        ended(counted(alloc, looks), looks)
    }
}

// The verbs, counted in a ledger of their own.
fn counted(alloc: Global, looks: &mut Looks) -> Result<(), Fail> {
    verbs::<Brand>(alloc, Blank::new(1), looks)
}

// Each kind of verb, and that the counter has no bytes.
fn verbs<L: Ledger>(alloc: Global, blank: Blank, looks: &mut Looks) -> Result<(), Fail>
    requires name { blank.name ≡ L.name }
    requires parts { blank.parts ≡ L.parts }
    requires some { 0 < blank.parts }
{
    let mut steps = Steps::<L>::new(blank);
    looks.holds(size_of_val(&steps) == 0);
    functions(alloc, &mut steps, looks)?;
    derived(alloc, &mut steps, looks)
}

// A scalar and a mixed function of one and of two arguments.
fn functions<L: Ledger>(
    alloc: Global,
    steps: &mut Steps<L>,
    looks: &mut Looks,
) -> Result<(), Fail> {
    let a = array(alloc, &[3], &[1, 2, 5]);
    lent_both(a, array(alloc, &[3], &[3, 1, 4]), |a, b| {
        let negated = apply(alloc, &Verb::One(Monad::Negative), None, b, None, steps);
        look_at(looks, negated, array(alloc, &[3], &[-3, -1, -4]))?;
        let difference = apply(alloc, &Verb::Two(Dyad::Minus), Some(a), b, None, steps);
        look_at(looks, difference, array(alloc, &[3], &[-2, 1, 1]))?;
        let reverse = Verb::Mixed1(Mix1::Reverse(Way::Last));
        let reversed = apply(alloc, &reverse, None, b, Some(1), steps);
        look_at(looks, reversed, array(alloc, &[3], &[4, 1, 3]))?;
        let members = apply(alloc, &Verb::Mixed2(Mix2::Member), Some(a), b, None, steps);
        look_at(looks, members, array(alloc, &[3], &[1, 0, 0]))
    })
}

// Each operator, and a quotient that is not exact.
fn derived<L: Ledger>(alloc: Global, steps: &mut Steps<L>, looks: &mut Looks) -> Result<(), Fail> {
    let a = array(alloc, &[2], &[2, 5]);
    lent_both(a, array(alloc, &[2, 2], &[3, 1, 4, 2]), |a, b| {
        let reduce = Verb::Reduce(Dyad::Minus, Way::First);
        let reduced = apply(alloc, &reduce, None, b, None, steps);
        look_at(looks, reduced, array(alloc, &[2], &[-1, -1]))?;
        let scan = Verb::Scan(Dyad::Plus, Way::First);
        let scanned = apply(alloc, &scan, None, b, Some(2), steps);
        look_at(looks, scanned, array(alloc, &[2, 2], &[3, 4, 4, 6]))?;
        let inner = Verb::Inner(Dyad::Minus, Dyad::Times);
        let product = apply(alloc, &inner, Some(a), b, None, steps);
        look_at(looks, product, array(alloc, &[2], &[-14, -8]))?;
        let table = apply(alloc, &Verb::Outer(Dyad::Plus), Some(a), a, None, steps);
        look_at(looks, table, array(alloc, &[2, 2], &[4, 7, 7, 10]))?;
        let quotient = apply(alloc, &Verb::Outer(Dyad::Divide), Some(a), a, None, steps);
        looks.holds(quotient.err() == Some(Fail::Report(Report::Domain)));
        Ok(())
    })
}
