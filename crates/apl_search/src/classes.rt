ghost use Rattle.std.specs.Prelude.{◌≡◌, ℕ};

use crate::spans::distance;
use apl_arrays::Glyph;

/// The classes of items.
pub(crate) trait Classes<T> {
    // The class of an item.
    ghost class: { Self → T → ℕ };

    /// The class of an item.
    fn class_of(&self, item: T) -> usize
        ensures { result ≡ class self.now item };
}

/// Numbers by their distances from a base.
#[derive(Clone, Copy)]
pub(crate) struct Distances {
    pub(crate) base: i64,
}

impl Classes<i64> for Distances {
    ghost use Rattle.apl_search.specs.Distances.{distance};

    ghost class = { λ d number. distance d.base number };

    fn class_of(&self, number: i64) -> usize {
        distance(self.base, number)
    }
}

/// Characters by their codes.
#[derive(Clone, Copy)]
pub(crate) struct Codes;

impl Classes<Glyph> for Codes {
    ghost class = { λ _ code. code };

    fn class_of(&self, glyph: Glyph) -> usize {
        usize::from(glyph.code())
    }
}
