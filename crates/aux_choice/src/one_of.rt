use apl_arrays::{Array, WantOfMemory};
use auxiliaries::Replier;

/// One of two. Where it answers behind a shared variable it stays the one that it is, and replies as that one does.
#[derive(Drop)]
pub enum OneOf<X, Y> {
    First(X),
    Second(Y),
}

impl<X: Replier, Y: Replier> Replier for OneOf<X, Y> {
    ghost use Rattle.aux_choice.specs.OneOf.{Forgets, Replies, Wants};

    ghost forgets = { λ old party new. Forgets X.forgets Y.forgets old party new };

    ghost replies = { λ old party value answer new. Replies X.replies Y.replies old party value answer new };

    ghost wants = { λ old party value new. Wants X.wants Y.wants old party value new };

    fn forget(&mut self, party: u32) {
        match self {
            OneOf::First(first) => first.forget(party),
            OneOf::Second(second) => second.forget(party),
        }
    }

    fn reply(&mut self, party: u32, value: &Array) -> Result<Array, WantOfMemory> {
        match self {
            OneOf::First(first) => first.reply(party, value),
            OneOf::Second(second) => second.reply(party, value),
        }
    }
}
