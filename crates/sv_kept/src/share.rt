ghost use Rattle.std.specs.Prelude.{◌≡◌, IfOk, IsOk, OnErr, OnOk, Some, is_some};
ghost use Rattle.std.specs.Option.{option_copied, option_or};
ghost use Rattle.apl_arrays.specs.Array.{PlainArray};
ghost use Rattle.sv_access.specs.Access.{other_side};
ghost use Rattle.sv_kept.specs.Share.{after_get, after_set, alone, giver, given_state, known_to, knowing, share_of, shared_value, unseen_by_other};

use apl_arrays::{Array, WantOfMemory, renew_value};
use std::alloc::Global;
use std::marker::Model;
use sv_access::{AccessState, Kind, Side, after};

/// The values that the two sides of a coupling know.
#[derive(Debug, Drop)]
pub struct Known {
    pub a: Option<Array>,
    pub b: Option<Array>,
}

/// A coupling: the value that each side knows, the state, and the side that set last.
#[derive(Debug, Drop)]
pub struct Share {
    alloc: Global,
    a: Option<Array>,
    b: Option<Array>,
    state: AccessState,
    last: Side,
}

impl Model for Share {
    ghost use Rattle.sv_kept.specs.Share.{PlainShare};

    ghost Value = { PlainShare };

    ghost view = { λ s. record { a = s.a; b = s.b; state = s.state; last = s.last } };
}

/// The state of an open offer, by whether its party knows a value.
pub fn alone(known: bool) -> AccessState
    ensures { result ≡ alone known }
{
    unseen_by_other(Side::A, known)
}

// The state where a side set all that was set, and the other has seen nothing.
fn unseen_by_other(side: Side, known: bool) -> AccessState
    ensures { result ≡ unseen_by_other side known }
{
    if known {
        after(AccessState::Quiet, side, Kind::Set)
    } else {
        AccessState::Quiet
    }
}

// The side that gives the first value.
fn giver(a: &Option<Array>) -> Side
    ensures { result ≡ giver a.now }
{
    match a {
        Some(_) => Side::A,
        None => Side::B,
    }
}

// What one side knows becomes what the other knows, if that knows a value. It takes memory for it, as `renew_value` does;
// after `WantOfMemory` all is as before.
fn renew_known(
    alloc: Global,
    known: &mut Option<Array>,
    others: &Option<Array>,
) -> Result<(), WantOfMemory>
    ensures done { OnOk result (known.new ≡ option_or others.now known.old) }
    ensures err { OnErr result (known.new ≡ known.old) }
{
    match others {
        None => Ok(()),
        Some(value) => renew_value(alloc, known, value),
    }
}

impl Share {
    /// The share of two offers that couple, by the values that their parties know: the first value is A's, else B's.
    pub fn new(alloc: Global, a: Option<Array>, b: Option<Array>) -> Share
        ensures { result ≡ share_of a b }
    {
        let last = giver(&a);
        let known = match last {
            Side::A => a.is_some(),
            Side::B => b.is_some(),
        };
        Share {
            alloc,
            a,
            b,
            state: unseen_by_other(last, known),
            last,
        }
    }

    /// Whose set is unseen.
    pub fn state(&self) -> AccessState
        ensures { result ≡ self.now.state }
    {
        self.state
    }

    /// The value that a side knows: the last that it set or got, else the one that it had at coupling.
    pub fn known(&self, side: Side) -> Option<&Array>
        ensures { option_copied result ≡ known_to self.now side }
    {
        match side {
            Side::A => self.a.as_ref(),
            Side::B => self.b.as_ref(),
        }
    }

    /// The value that was set last, if one was: the one that the side knows that set it.
    pub fn last(&self) -> Option<&Array>
        ensures { option_copied result ≡ shared_value self.now }
    {
        self.known(self.last)
    }

    /// A granted set by a side. The value moves in, and no memory is taken, so that it is never refused.
    pub fn set(&mut self, side: Side, value: Array) -> Result<(), WantOfMemory>
        ensures done { self.new ≡ after_set self.old side value }
        ensures granted { IsOk result }
    {
        self.learn(side, value);
        self.state = after(self.state, side, Kind::Set);
        self.last = side;
        Ok(())
    }

    /// A granted use by a side: the value that was set last, or none, and then nothing changes. It takes memory for
    /// the value, but for the scalar of a number; after `WantOfMemory` all is as before.
    pub fn get(&mut self, side: Side) -> Result<Option<Array>, WantOfMemory>
        ensures value { IfOk result (λ value. value ≡ shared_value self.old) }
        ensures done { OnOk result (self.new ≡ after_get self.old side (shared_value self.old)) }
        ensures err { OnErr result (self.new ≡ self.old) }
    {
        let Some(value) = self.last() else {
            return Ok(None);
        };
        let given = value.copy(self.alloc)?;
        self.learn_last(side)?;
        Ok(Some(given))
    }

    /// The same where the value is not wanted, but only whether there is one. It takes memory for what the side comes to
    /// know, if the other set it; after `WantOfMemory` all is as before.
    pub fn learn_last(&mut self, side: Side) -> Result<bool, WantOfMemory>
        ensures got { IfOk result (λ got. got ≡ is_some (shared_value self.old)) }
        ensures done { OnOk result (self.new ≡ after_get self.old side (shared_value self.old)) }
        ensures err { OnErr result (self.new ≡ self.old) }
    {
        if self.last().is_none() {
            return Ok(false);
        }
        if side != self.last {
            self.learn_others(side)?;
        }
        self.state = after(self.state, side, Kind::Use);
        Ok(true)
    }

    // A side comes to know what the other knows, if that knows a value. It takes memory for it, as `renew_value` does;
    // after `WantOfMemory` all is as before.
    fn learn_others(&mut self, side: Side) -> Result<(), WantOfMemory>
        ensures done { OnOk result ((value : PlainArray) → known_to self.old (other_side side) ≡ Some value → self.new ≡ knowing self.old side value) }
        ensures err { OnErr result (self.new ≡ self.old) }
    {
        match side {
            Side::A => renew_known(self.alloc, &mut self.a, &self.b),
            Side::B => renew_known(self.alloc, &mut self.b, &self.a),
        }
    }

    // A side comes to know a value.
    fn learn(&mut self, side: Side, value: Array)
        ensures { self.new ≡ knowing self.old side value }
    {
        match side {
            Side::A => self.a = Some(value),
            Side::B => self.b = Some(value),
        }
    }

    /// The values that both sides know.
    pub fn into_known(self) -> Known
        ensures a { result.a ≡ self.a }
        ensures b { result.b ≡ self.b }
    {
        Known {
            a: self.a,
            b: self.b,
        }
    }
}
