ghost use Rattle.std.specs.Prelude.{◌≡◌};
ghost use Rattle.text_reader.specs.declared.unread.Unread.TheVariants.{WantOfMemory as NoMemory};

use apl_arrays::WantOfMemory;

/// Why nothing is read from the front of a line.
#[derive(Clone, Copy, Debug, PartialEq, Eq)]
pub enum Unread {
    /// No text of the form goes on as the line does where so many of its glyphs are left.
    Left(usize),
    /// Memory ran out.
    WantOfMemory,
}

impl From<WantOfMemory> for Unread {
    ghost from_gives = { λ _ why. why ≡ NoMemory };

    fn from(_: WantOfMemory) -> Self {
        Unread::WantOfMemory
    }
}
