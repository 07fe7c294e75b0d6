//! What other meanings would give, and this one does not: one law for each.
ghost use Rattle.std.specs.Prelude.{◌≡◌, [], ◌∷◌, None, Some, codes, length, pos};
ghost use Rattle.apl_arrays.specs.Array.{number_array};
ghost use Rattle.apl_workspace.specs.Workspace.{empty_workspace, workspace_weight};
ghost use Rattle.sv_events.specs.Answer.{degree, granted, value};
ghost use Rattle.apl_meaning.specs.Worked.{account_of, asked_on, counted_on, defining, number_value, printed_by, printed_on, sharing_workspace, sharing_all, texts, vector};

/// Another order: the left operand first, subscripts as they are read, a line anew after its answer, a use too many for
/// items, an act for a row before all are tested. The call does nothing.
pub fn orders()
    ensures left_first { printed_on (sharing_workspace (codes "B") None empty_workspace) (codes "B-B" ∷ []) (value (number_value 1) ∷ value (number_value 10) ∷ []) ≡ texts (codes "¯9" ∷ []) → ⊥ }
    ensures subscripts_as_read { printed_on (sharing_all (codes "A" ∷ codes "I" ∷ codes "J" ∷ [])) (codes "A[I;J]" ∷ [])
        (value (number_value 1) ∷ value (number_value 2) ∷ value (number_array (2 ∷ 2 ∷ []) (pos 1 ∷ pos 2 ∷ pos 3 ∷ pos 4 ∷ [])) ∷ [])
        ≡ texts (codes "2" ∷ []) → ⊥ }
    ensures line_anew { counted_on (defining (codes "R←G B;L") (codes "L←B×2" ∷ codes "R←L+X" ∷ []) (sharing_workspace (codes "X") None empty_workspace)) (codes "G 10" ∷ []) (value (number_value 5) ∷ []) ≡ 3 → ⊥ }
    ensures two_uses { length (asked_on (sharing_all (codes "A" ∷ [])) (codes "A[2]←7" ∷ []) (value (vector (4 ∷ 5 ∷ 6 ∷ [])) ∷ value (vector (4 ∷ 5 ∷ 6 ∷ [])) ∷ granted ∷ [])) ≡ 3 → ⊥ }
    ensures rows_untested { length (asked_on empty_workspace (codes "1002 ⎕SVO 3 1⍴'AB1'" ∷ []) (degree 1 ∷ degree 1 ∷ [])) ≡ 2 → ⊥ }
{}

/// Other functions: a branch to the line before, a local name that stays, a label that is counted from 0, a report that
/// shows the caller, a shared name that a local one does not hide. The call does nothing.
pub fn calls()
    ensures line_before { printed_on (defining (codes "F") (codes "→3" ∷ codes "1" ∷ codes "2" ∷ []) empty_workspace) (codes "F" ∷ []) [] ≡ texts (codes "1" ∷ codes "2" ∷ []) → ⊥ }
    ensures local_stays { printed_on (defining (codes "F B;L") (codes "L←B" ∷ []) empty_workspace) (codes "F 4" ∷ codes "L" ∷ []) [] ≡ texts (codes "4" ∷ []) → ⊥ }
    ensures label_from_0 { printed_on (defining (codes "F") (codes "A:A" ∷ []) empty_workspace) (codes "F" ∷ []) [] ≡ texts (codes "0" ∷ []) → ⊥ }
    ensures caller_shown { printed_on (defining (codes "G") (codes "7÷2" ∷ []) (defining (codes "F") (codes "G" ∷ []) empty_workspace)) (codes "F" ∷ []) [] ≡ texts (codes "DOMAIN ERROR" ∷ codes "F[1] G" ∷ []) → ⊥ }
    ensures local_used { length (asked_on (defining (codes "R←H;X") (codes "X←1" ∷ codes "R←X+1" ∷ []) (sharing_workspace (codes "X") None empty_workspace)) (codes "H" ∷ []) (value (number_value 5) ∷ [])) ≡ 1 → ⊥ }
{}

/// Other counts, copies and texts: an application twice or not at all, a statement after the last, an own copy that
/// stays, a text that stands nowhere, a target that is printed. The call does nothing.
pub fn counts()
    ensures counted_twice { counted_on empty_workspace (codes "7÷2" ∷ []) [] ≡ 2 → ⊥ }
    ensures uncounted { counted_on empty_workspace (codes "7÷2" ∷ []) [] ≡ 0 → ⊥ }
    ensures one_more_statement { counted_on (defining (codes "F") (codes "→2-1" ∷ []) empty_workspace) (codes "F" ∷ []) [] ≡ 40 → ⊥ }
    ensures copy_stays { workspace_weight (account_of (sharing_workspace (codes "X") (Some (number_value 3)) empty_workspace) (codes "X" ∷ []) (value (vector (4 ∷ 5 ∷ [])) ∷ [])).workspace
        ≡ workspace_weight (sharing_workspace (codes "X") (Some (number_value 3)) empty_workspace) → ⊥ }
    ensures text_nowhere { printed_on (defining (codes "F") (codes "⍎'→0'" ∷ codes "9" ∷ []) empty_workspace) (codes "F" ∷ []) [] ≡ texts (codes "9" ∷ []) → ⊥ }
    ensures target_printed { printed_by (codes "X←3" ∷ []) ≡ texts (codes "3" ∷ []) → ⊥ }
{}
