ghost use Rattle.std.specs.Prelude.{◌≡◌, ◌<◌, ◌≤◌, ◌∷◌, ◌++◌, ℕ, List, None, Some, IsTrue, decimal};
ghost use Rattle.std.specs.List.{list_all};
ghost use Rattle.apl_arrays.specs.File.{IsFileName};
ghost use Rattle.apl_arrays.specs.Glyph.{blank};
ghost use Rattle.apl_arrays.specs.Word.{is_no_blank};
ghost use Rattle.aux_words.specs.Fields.{cut_at_blank};
ghost use Rattle.aux_words.specs.Number.{greatest_number, number_of};

/// Glyphs are a number exactly where they are its decimal digits. The call does nothing.
pub fn numbers_are_as_written()
    ensures read { (number : ℕ) → 0 < number → number ≤ greatest_number → number_of (decimal number) ≡ Some number }
    ensures written { (line : List ℕ) (number : ℕ) → number_of line ≡ Some number → (0 < number) × (number ≤ greatest_number) × (line ≡ decimal number) }
{}

/// A field ends at the first blank, and neither a number nor the name of a file has one. The call does nothing.
pub fn fields_are_as_written()
    ensures cut { (front rest : List ℕ) → IsTrue (list_all is_no_blank front) → cut_at_blank (front ++ blank ∷ rest) ≡ Some (front, rest) }
    ensures whole { (line : List ℕ) → IsTrue (list_all is_no_blank line) → cut_at_blank line ≡ None }
    ensures numbers { (number : ℕ) → number ≤ greatest_number → IsTrue (list_all is_no_blank (decimal number)) }
    ensures names { (name : List ℕ) → IsFileName name → IsTrue (list_all is_no_blank name) }
{}
