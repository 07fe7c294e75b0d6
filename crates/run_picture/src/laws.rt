ghost use Rattle.std.specs.Prelude.{◌≡◌, ◌≢◌, ◌≤◌, ◌<◌, ◌+◌, ◌*◌, All, ℕ, List, length};
ghost use Rattle.apl_arrays.specs.Glyph.{less};
ghost use Rattle.sv_events.specs.Entry.{PlainEntry};
ghost use Rattle.run_picture.specs.Escape.{escaped, read_back};
ghost use Rattle.run_picture.specs.Label.{cut};
ghost use Rattle.run_picture.specs.Lane.{middle_of};
ghost use Rattle.run_picture.specs.Shown.{ShowEachOnce, picture_tags};
ghost use Rattle.run_picture.specs.Tag.{AreWellFormed};
ghost use Rattle.run_picture.specs.declared.window.Window.{Window};

/// A text that stands in markup reads back as itself, and ends where the next tag begins. The call does nothing.
pub fn texts_are_read_back()
    ensures again { (text : List ℕ) → read_back (escaped text) ≡ text }
    ensures signs { (text : List ℕ) → All (λ code. code ≢ less) (escaped text) }
{}

/// Every tag of a picture that begins is finished, the innermost first, and values of attributes end where they do. The call
/// does nothing.
pub fn a_picture_is_well_formed()
    ensures { (window : Window) (journal : List PlainEntry) → AreWellFormed (picture_tags window journal) }
{}

/// The lines that stand in a picture are those of the entries of its window, in their order. The call does nothing.
pub fn a_picture_shows_each_entry_once()
    ensures { (window : Window) (journal : List PlainEntry) → ShowEachOnce window journal (picture_tags window journal) }
{}

/// What stands beside a mark ends in front of the bar of the next lane; and a text that is cut is as short as it is said to
/// be. The call does nothing.
pub fn things_stand_apart()
    ensures lanes { (lanes : List ℕ) (party other : ℕ) → middle_of lanes party < middle_of lanes other → middle_of lanes party + 11 + 7 * 11 + 7 ≤ middle_of lanes other }
    ensures cut { (most : ℕ) (text : List ℕ) → 2 ≤ most → length (cut most text) ≤ most }
{}
