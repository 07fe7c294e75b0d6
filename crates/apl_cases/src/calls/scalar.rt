use crate::calls::given::{ended, given, lent_both, look_at, vector};
use anyhow::Result;
use apl_arrays::{Fail, Glyph, Item, Report};
use apl_scalar::{dyadic, identity_of, item_of, monadic};
use apl_verbs::{Dyad, Monad};
use case_tables::{Calls, Looks};
use std::alloc::Global;

/// Scalar functions of arrays, of items, and their identities.
#[derive(Clone, Copy, Debug)]
pub struct ScalarCalls;

impl Calls for ScalarCalls {
    fn make(&self, alloc: Global, looks: &mut Looks) -> Result<()> {
        ended(of_arrays(alloc, looks), looks)?;
        of_items(looks);
        identities(looks);
        Ok(())
    }
}

// Calls that give an array, and one that gives a report.
fn of_arrays(alloc: Global, looks: &mut Looks) -> Result<(), Fail> {
    lent_both(vector(alloc, &[2, -5]), vector(alloc, &[3]), |two, one| {
        let magnitude = monadic(alloc, Monad::Magnitude, two);
        look_at(looks, magnitude, vector(alloc, &[2, 5]))?;
        let product = dyadic(alloc, Dyad::Times, two, one);
        look_at(looks, product, vector(alloc, &[6, -15]))?;
        let power = dyadic(alloc, Dyad::Power, one, two);
        looks.holds(given(power)?.err() == Some(Report::Domain));
        Ok(())
    })
}

// Items follow the table.
fn of_items(looks: &mut Looks) {
    let letter = Item::Char(Glyph::BLANK);
    let number = Item::Number(32);
    let difference = item_of(Dyad::Minus, &Item::Number(2), &Item::Number(5));
    looks.holds(difference == Some(-3));
    looks.holds(item_of(Dyad::Equal, &letter, &letter) == Some(1));
    looks.holds(item_of(Dyad::NotEqual, &letter, &number) == Some(1));
    looks.holds(item_of(Dyad::Less, &number, &letter) == None);
}

// So do identities.
fn identities(looks: &mut Looks) {
    looks.holds(identity_of(Dyad::Times) == Some(1));
    looks.holds(identity_of(Dyad::Maximum) == Some(i64::MIN));
    looks.holds(identity_of(Dyad::Nand) == None);
}
