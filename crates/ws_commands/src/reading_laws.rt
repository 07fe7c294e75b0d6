ghost use Rattle.std.specs.Prelude.{◌≡◌, ◌∷◌, [], ℕ, List, IsTrue};
ghost use Rattle.std.specs.List.{list_all};
ghost use Rattle.apl_arrays.specs.Glyph.{is_blank};
ghost use Rattle.apl_arrays.specs.Word.{IsNextWord};
ghost use Rattle.ws_commands.specs.Words.{words_in};

/// The words of a line are its next word, which stands behind blanks up to a blank or the end, and those of what follows; a
/// blank line has none. The call does nothing.
pub fn lines_fall_into_words()
    ensures word { (line word rest : List ℕ) → IsNextWord line word rest → words_in line ≡ word ∷ words_in rest }
    ensures none { (line : List ℕ) → IsTrue (list_all is_blank line) → words_in line ≡ [] }
{}
