//! What a part of a line does to what waits to its right.

ghost use Rattle.std.specs.Prelude.{◌≡◌, ◌++◌, OnOk, IfOk};
ghost use Rattle.apl_arrays.specs.List.{first_of, others_of};
ghost use Rattle.line_trees.specs.Building.{subscript_built, subscripts, behind_subscripts, axis_built, slash_built, dyadic_built, scalar_built, jot_built, factor_built, gets_built, branch_built, execute_built};

use crate::stack::Stack;
use crate::symbol::Fold;
use crate::tree::Pending;
use crate::{Fun, Places};
use apl_arrays::{List, WantOfMemory};
use apl_verbs::{Dyad, Verb};
use std::alloc::Global;

/// A subscript ends to the left.
pub fn subscript(waiting: &mut Stack<Pending>) -> Result<(), WantOfMemory>
    ensures { OnOk result (waiting.new ≡ subscript_built waiting.old (first_of waiting.old) (others_of waiting.old)) }
{
    match waiting.top() {
        Some(Pending::Expr(_, place)) => {
            waiting.pop();
            waiting.push(Pending::Subscript(Some(place)))
        }
        _ => waiting.push(Pending::Subscript(None)),
    }
}

/// `[` before an axis.
pub fn axis(waiting: &mut Stack<Pending>) -> Result<(), WantOfMemory>
    ensures { OnOk result (waiting.new ≡ axis_built (first_of waiting.old) (others_of waiting.old)) }
{
    let Some(Pending::Expr(_, axis)) = waiting.pop() else {
        return Ok(());
    };
    waiting.pop();
    let Some(Pending::Expr(_, right)) = waiting.pop() else {
        return Ok(());
    };
    waiting.push(Pending::Expr(Some(axis), right))
}

/// A slash behind a scalar function.
pub fn slash(waiting: &mut Stack<Pending>, fold: Fold) -> Result<(), WantOfMemory>
    ensures { OnOk result (waiting.new ≡ slash_built fold (first_of waiting.old) (others_of waiting.old)) }
{
    match waiting.pop() {
        Some(Pending::Expr(axis, right)) => { waiting.push(Pending::Slash(fold, axis, right)) }
        _ => Ok(()),
    }
}

/// A dyadic function.
pub fn dyadic(waiting: &mut Stack<Pending>, function: Fun) -> Result<(), WantOfMemory>
    ensures { OnOk result (waiting.new ≡ dyadic_built function (first_of waiting.old) (others_of waiting.old)) }
{
    match waiting.pop() {
        Some(Pending::Expr(axis, right)) => { waiting.push(Pending::Dyadic(function, axis, right)) }
        _ => Ok(()),
    }
}

/// A dyadic scalar function, alone or before a dot.
pub fn scalar(waiting: &mut Stack<Pending>, dyad: Dyad) -> Result<(), WantOfMemory>
    ensures { OnOk result (waiting.new ≡ scalar_built dyad (first_of waiting.old) (others_of waiting.old)) }
{
    match waiting.pop() {
        Some(Pending::Expr(axis, right)) => {
            waiting.push(Pending::Dyadic(Fun::Verb(Verb::Two(dyad)), axis, right))
        }
        Some(Pending::Factor(factor, right)) => waiting.push(Pending::Dyadic(
            Fun::Verb(Verb::Inner(dyad, factor)),
            None,
            right,
        )),
        _ => Ok(()),
    }
}

/// `∘` before a dot.
pub fn jot(waiting: &mut Stack<Pending>) -> Result<(), WantOfMemory>
    ensures { OnOk result (waiting.new ≡ jot_built (first_of waiting.old) (others_of waiting.old)) }
{
    match waiting.pop() {
        Some(Pending::Factor(factor, right)) => waiting.push(Pending::Dyadic(
            Fun::Verb(Verb::Outer(factor)),
            None,
            right,
        )),
        _ => Ok(()),
    }
}

/// A scalar function behind a dot.
pub fn factor(waiting: &mut Stack<Pending>, dyad: Dyad) -> Result<(), WantOfMemory>
    ensures { OnOk result (waiting.new ≡ factor_built dyad (first_of waiting.old) (others_of waiting.old)) }
{
    match waiting.pop() {
        Some(Pending::Expr(_, right)) => waiting.push(Pending::Factor(dyad, right)),
        _ => Ok(()),
    }
}

/// `←` before its right side.
pub fn gets(waiting: &mut Stack<Pending>) -> Result<(), WantOfMemory>
    ensures { OnOk result (waiting.new ≡ gets_built (first_of waiting.old) (others_of waiting.old)) }
{
    match waiting.pop() {
        Some(Pending::Expr(_, right)) => waiting.push(Pending::Gets(right)),
        _ => Ok(()),
    }
}

/// `→` before its expression.
pub fn branch(waiting: &mut Stack<Pending>) -> Result<(), WantOfMemory>
    ensures { OnOk result (waiting.new ≡ branch_built (first_of waiting.old) (others_of waiting.old)) }
{
    match waiting.pop() {
        Some(Pending::Expr(_, right)) => waiting.push(Pending::Branch(right)),
        _ => Ok(()),
    }
}

/// `⍎` before its expression.
pub fn execute(waiting: &mut Stack<Pending>) -> Result<(), WantOfMemory>
    ensures { OnOk result (waiting.new ≡ execute_built (first_of waiting.old) (others_of waiting.old)) }
{
    match waiting.pop() {
        Some(Pending::Expr(_, right)) => waiting.push(Pending::Execute(right)),
        _ => Ok(()),
    }
}

/// Takes the subscripts at the front.
#[tactic(auto, using(crate::proofs::Loops::taking))]
pub fn taken_subscripts(alloc: Global, waiting: &mut Stack<Pending>) -> Result<Places, WantOfMemory>
    ensures list { IfOk result (λ list. list.items ≡ subscripts waiting.old) }
    ensures rest { OnOk result (waiting.new ≡ behind_subscripts waiting.old) }
{
    let mut list = List::new(alloc);
    while let Some(Pending::Subscript(place)) = waiting.top() {
        waiting.pop();
        list.push(place)?;
    }
    Ok(list)
}
