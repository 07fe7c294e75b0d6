//! One line for each report, and that what was done before it stands.
ghost use Rattle.std.specs.Prelude.{◌≡◌, [], ◌∷◌, codes};
ghost use Rattle.apl_meaning.specs.Worked.{printed_by, texts};

/// Lines that are no statement, and a statement that has no value. The call does nothing.
pub fn lines_refused()
    ensures character { printed_by (codes "A&B" ∷ []) ≡ texts (codes "CHARACTER ERROR" ∷ codes "      A&B" ∷ []) }
    ensures quote { printed_by (codes "'AB" ∷ []) ≡ texts (codes "SYNTAX ERROR" ∷ codes "      'AB" ∷ []) }
    ensures syntax { printed_by (codes "A+/B" ∷ []) ≡ texts (codes "SYNTAX ERROR" ∷ codes "      A+/B" ∷ []) }
    ensures value { printed_by (codes "X" ∷ []) ≡ texts (codes "VALUE ERROR" ∷ codes "      X" ∷ []) }
    ensures value_of_items { printed_by (codes "X[1]←5" ∷ []) ≡ texts (codes "VALUE ERROR" ∷ codes "      X[1]←5" ∷ []) }
    ensures before { printed_by (codes "(Y←4)÷0" ∷ codes "Y" ∷ []) ≡ texts (codes "DOMAIN ERROR" ∷ codes "      (Y←4)÷0" ∷ codes "4" ∷ []) }
{}

/// An axis is looked at by its count and then by its kind, before the function is applied. The call does nothing.
pub fn axes_refused()
    ensures count { printed_by (codes "⌽['AB']1 2" ∷ []) ≡ texts (codes "LENGTH ERROR" ∷ codes "      ⌽['AB']1 2" ∷ []) }
    ensures kind { printed_by (codes "⌽['A']1 2" ∷ []) ≡ texts (codes "DOMAIN ERROR" ∷ codes "      ⌽['A']1 2" ∷ []) }
    ensures before_the_function { printed_by (codes "1 2,[1 2]3 4 5" ∷ []) ≡ texts (codes "LENGTH ERROR" ∷ codes "      1 2,[1 2]3 4 5" ∷ []) }
{}
