//! The order of evaluation, seen by the acts that shared names ask.
ghost use Rattle.std.specs.Prelude.{◌≡◌, [], ◌∷◌, None, codes, pos};
ghost use Rattle.apl_arrays.specs.Array.{number_array};
ghost use Rattle.apl_workspace.specs.Workspace.{empty_workspace};
ghost use Rattle.sv_events.specs.Answer.{granted, value};
ghost use Rattle.sv_events.specs.declared.event.Act.TheVariants as act;
ghost use Rattle.apl_meaning.specs.Worked.{asked_on, defining, number_value, printed_on, sharing_workspace, sharing_all, texts, vector};

/// The right argument is evaluated before the left one. The call does nothing.
pub fn right_before_left()
    ensures difference { printed_on (sharing_workspace (codes "B") None empty_workspace) (codes "B-B" ∷ []) (value (number_value 1) ∷ value (number_value 10) ∷ []) ≡ texts (codes "9" ∷ []) }
    ensures asked { asked_on (sharing_all (codes "A" ∷ codes "B" ∷ [])) (codes "A-B" ∷ []) (value (number_value 1) ∷ value (number_value 10) ∷ []) ≡ act.Use (codes "B") ∷ act.Use (codes "A") ∷ [] }
    ensures chain { asked_on (sharing_all (codes "A" ∷ codes "B" ∷ codes "C" ∷ [])) (codes "(A-B)×C" ∷ []) (value (number_value 1) ∷ value (number_value 2) ∷ value (number_value 3) ∷ [])
        ≡ act.Use (codes "C") ∷ act.Use (codes "B") ∷ act.Use (codes "A") ∷ [] }
{}

/// An axis is evaluated after the right argument and before the left one. The call does nothing.
pub fn axis_between()
    ensures asked { asked_on (sharing_all (codes "A" ∷ codes "B" ∷ codes "C" ∷ [])) (codes "A⌽[B]C" ∷ []) (value (vector (1 ∷ 2 ∷ 3 ∷ [])) ∷ value (number_value 1) ∷ value (number_value 1) ∷ [])
        ≡ act.Use (codes "C") ∷ act.Use (codes "B") ∷ act.Use (codes "A") ∷ [] }
    ensures printed { printed_on (sharing_all (codes "A" ∷ codes "B" ∷ codes "C" ∷ [])) (codes "A⌽[B]C" ∷ []) (value (vector (1 ∷ 2 ∷ 3 ∷ [])) ∷ value (number_value 1) ∷ value (number_value 1) ∷ [])
        ≡ texts (codes "2 3 1" ∷ []) }
    // the axis has two elements, and the left argument is evaluated all the same
    ensures no_axis { asked_on (sharing_all (codes "A" ∷ codes "B" ∷ [])) (codes "A⌽[B]5" ∷ []) (value (vector (1 ∷ 2 ∷ [])) ∷ value (number_value 1) ∷ []) ≡ act.Use (codes "B") ∷ act.Use (codes "A") ∷ [] }
{}

/// Subscripts are evaluated from the last to the first, and then what they index. The call does nothing.
pub fn subscripts_from_the_last()
    ensures asked { asked_on (sharing_all (codes "A" ∷ codes "I" ∷ codes "J" ∷ [])) (codes "A[I;J]" ∷ [])
        (value (number_value 1) ∷ value (number_value 2) ∷ value (number_array (2 ∷ 2 ∷ []) (pos 1 ∷ pos 2 ∷ pos 3 ∷ pos 4 ∷ [])) ∷ [])
        ≡ act.Use (codes "J") ∷ act.Use (codes "I") ∷ act.Use (codes "A") ∷ [] }
    ensures printed { printed_on (sharing_all (codes "A" ∷ codes "I" ∷ codes "J" ∷ [])) (codes "A[I;J]" ∷ [])
        (value (number_value 1) ∷ value (number_value 2) ∷ value (number_array (2 ∷ 2 ∷ []) (pos 1 ∷ pos 2 ∷ pos 3 ∷ pos 4 ∷ [])) ∷ [])
        ≡ texts (codes "3" ∷ []) }
{}

/// In an assignment the right side is evaluated first, then the subscripts, and then the target is used and set. The
/// call does nothing.
pub fn target_last()
    ensures name { asked_on (sharing_all (codes "A" ∷ codes "B" ∷ [])) (codes "A←B" ∷ []) (value (number_value 3) ∷ granted ∷ []) ≡ act.Use (codes "B") ∷ act.Set (codes "A") (number_value 3) ∷ [] }
    ensures items { asked_on (sharing_all (codes "A" ∷ codes "I" ∷ codes "V" ∷ [])) (codes "A[I]←V" ∷ [])
        (value (number_value 7) ∷ value (number_value 2) ∷ value (vector (4 ∷ 5 ∷ 6 ∷ [])) ∷ granted ∷ [])
        ≡ act.Use (codes "V") ∷ act.Use (codes "I") ∷ act.Use (codes "A") ∷ act.Set (codes "A") (vector (4 ∷ 7 ∷ 6 ∷ [])) ∷ [] }
    ensures one_use { asked_on (sharing_all (codes "A" ∷ [])) (codes "A[2]←7" ∷ []) (value (vector (4 ∷ 5 ∷ 6 ∷ [])) ∷ granted ∷ [])
        ≡ act.Use (codes "A") ∷ act.Set (codes "A") (vector (4 ∷ 7 ∷ 6 ∷ [])) ∷ [] }
    ensures its_value { printed_on (sharing_all (codes "A" ∷ [])) (codes "1+A[2]←7" ∷ []) (value (vector (4 ∷ 5 ∷ 6 ∷ [])) ∷ granted ∷ []) ≡ texts (codes "8" ∷ []) }
{}

/// A value that is wanting is reported before anything to its left is evaluated. The call does nothing.
pub fn wanting_values_at_once()
    ensures no_use { asked_on (defining (codes "F B") (codes "⍝" ∷ []) (sharing_all (codes "X" ∷ []))) (codes "X+F 3" ∷ []) [] ≡ [] }
    ensures report { printed_on (defining (codes "F B") (codes "⍝" ∷ []) (sharing_all (codes "X" ∷ []))) (codes "X+F 3" ∷ []) [] ≡ texts (codes "VALUE ERROR" ∷ codes "      X+F 3" ∷ []) }
    ensures alone { printed_on (defining (codes "F B") (codes "⍝" ∷ []) empty_workspace) (codes "F 3" ∷ codes "(F 3)" ∷ []) [] ≡ [] }
    ensures assigned { printed_on (defining (codes "F B") (codes "⍝" ∷ []) empty_workspace) (codes "A←F 3" ∷ []) [] ≡ texts (codes "VALUE ERROR" ∷ codes "      A←F 3" ∷ []) }
    ensures indexed { printed_on (defining (codes "F B") (codes "⍝" ∷ []) empty_workspace) (codes "(F 3)[1]" ∷ []) [] ≡ texts (codes "VALUE ERROR" ∷ codes "      (F 3)[1]" ∷ []) }
{}
