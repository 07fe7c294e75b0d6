ghost use Rattle.std.specs.Prelude.{◌≡◌};
ghost use Rattle.aux_choice.specs.OneOf.{is_first};

use crate::{Choice, OneOf};
use apl_arrays::{Array, WantOfMemory};
use auxiliaries::Replier;
use std::marker::{Model, PhantomData};

/// One of two, the one that a choice says. It is that one in each state, also where memory ran out, so that whoever handed it to a
/// run has it again. It is seen as the one that it is.
#[derive(Drop)]
pub struct Chosen<P: Choice, X, Y> {
    one: OneOf<X, Y>,
    choice: PhantomData<P>,
}

impl<P: Choice, X, Y> Model for Chosen<P, X, Y> {
    ghost use Rattle.std.specs.Prelude.{◌≡◌};
    ghost use Rattle.aux_choice.specs.OneOf.{is_first};
    ghost use Rattle.aux_choice.specs.declared.one_of.OneOf.{OneOf};

    ghost Value = { OneOf X Y };

    ghost view = { λ c. c.one };

    ghost invariant = { λ c. is_first c.one ≡ P.is_first };
}

impl<P: Choice, X, Y> Chosen<P, X, Y> {
    /// This one, which is the one that the choice says.
    pub fn new(one: OneOf<X, Y>) -> Self
        requires { is_first one ≡ P.is_first }
        ensures { result ≡ one }
    {
        Chosen {
            one,
            choice: PhantomData,
        }
    }

    /// The one that it is, which is the one that the choice says.
    pub fn into_one(self) -> OneOf<X, Y>
        ensures same { result ≡ self }
        ensures chosen { is_first result ≡ P.is_first }
    {
        self.one
    }
}

impl<P: Choice, X: Replier, Y: Replier> Replier for Chosen<P, X, Y> {
    ghost use Rattle.aux_choice.specs.OneOf.{Forgets, Replies, Wants};

    ghost forgets = { λ old party new. Forgets X.forgets Y.forgets old party new };

    ghost replies = { λ old party value answer new. Replies X.replies Y.replies old party value answer new };

    ghost wants = { λ old party value new. Wants X.wants Y.wants old party value new };

    fn forget(&mut self, party: u32) {
        match &mut self.one {
            OneOf::First(first) => first.forget(party),
            OneOf::Second(second) => second.forget(party),
        }
    }

    fn reply(&mut self, party: u32, value: &Array) -> Result<Array, WantOfMemory> {
        match &mut self.one {
            OneOf::First(first) => first.reply(party, value),
            OneOf::Second(second) => second.reply(party, value),
        }
    }
}
