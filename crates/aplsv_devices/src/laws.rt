ghost use Rattle.std.specs.Prelude.{ℕ, List};
ghost use Rattle.apl_arrays.specs.File.{IsFileName};
ghost use Rattle.apl_arrays.specs.Glyph.{line_utf8};
ghost use Rattle.apl_arrays.specs.Name.{IsName};
ghost use Rattle.aplsv_devices.specs.Paths.{StaysInside};

/// A name leads to a file of the very folder that it stands behind: it isn't empty, no slash stands in it, and no dot stands
/// in front, so that it is no hidden file and not the folder above. The call does nothing.
pub fn names_stay_in_their_folder()
    ensures saved { (name : List ℕ) → IsName name → StaysInside (line_utf8 name) }
    ensures files { (name : List ℕ) → IsFileName name → StaysInside name }
{}
