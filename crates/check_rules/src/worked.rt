//! Small runs at work: which entries fit, who has not left, and where lines differ.

ghost use Rattle.std.specs.Prelude.{◌≡◌, [], ◌∷◌, None, Some, codes};
ghost use Rattle.check_rules.specs.Fits.{EntryFits};
ghost use Rattle.check_rules.specs.Saw.{DifferAt, first_there};
ghost use Rattle.check_rules.specs.Worked.{four_lines, leave_of, two_without_lines, with_another};

/// Users whose lines are done leave, in any order, each once; and nothing fits behind the last leave. The call does nothing.
pub fn leaves_fit()
    ensures first { EntryFits two_without_lines [] (leave_of 1001) }
    ensures other { EntryFits two_without_lines [] (leave_of 1002) }
    ensures behind { EntryFits two_without_lines (leave_of 1002 ∷ []) (leave_of 1001) }
    ensures again { EntryFits two_without_lines (leave_of 1002 ∷ []) (leave_of 1002) → ⊥ }
    ensures nobody { EntryFits two_without_lines [] (leave_of 1003) → ⊥ }
    ensures over { EntryFits two_without_lines (leave_of 1002 ∷ leave_of 1001 ∷ []) (leave_of 1001) → ⊥ }
{}

/// The lowest user that has not left. The call does nothing.
pub fn users_that_stay()
    ensures both { first_there two_without_lines [] ≡ Some 1001 }
    ensures second { first_there two_without_lines (leave_of 1001 ∷ []) ≡ Some 1002 }
    ensures first { first_there two_without_lines (leave_of 1002 ∷ []) ≡ Some 1001 }
    ensures none { first_there two_without_lines (leave_of 1002 ∷ leave_of 1001 ∷ []) ≡ None }
{}

/// Lines differ in the first that is another, that is wanting, or that is one too many. The call does nothing.
pub fn lines_that_differ()
    ensures another { DifferAt with_another four_lines 4 }
    ensures wanting { DifferAt (codes "      1001 ⎕SVO 'X'" ∷ []) four_lines 2 }
    ensures too_many { DifferAt four_lines [] 1 }
    ensures not_there { DifferAt with_another four_lines 3 → ⊥ }
    ensures nowhere { DifferAt four_lines four_lines 4 → ⊥ }
{}
