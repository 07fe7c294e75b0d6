//! What an answer does to the line and to the own copy of a shared name.
ghost use Rattle.std.specs.Prelude.{◌≡◌, [], ◌∷◌, None, Some, codes};
ghost use Rattle.apl_workspace.specs.Workspace.{empty_workspace};
ghost use Rattle.sv_access.specs.declared.verdict.Owners.TheVariants.{Partner};
ghost use Rattle.sv_events.specs.Answer.{abandoned, full, granted, no_value, not_shared, value};
ghost use Rattle.sv_events.specs.declared.event.Act.TheVariants as act;
ghost use Rattle.apl_meaning.specs.Worked.{asked_on, counted_on, defining, number_value, printed_on, sharing_workspace, texts, account_of, vector};

/// A reference to a shared name: the value is printed, and is the own copy. The call does nothing.
pub fn references()
    ensures printed { printed_on (sharing_workspace (codes "X") None empty_workspace) (codes "X" ∷ []) (value (number_value 4) ∷ []) ≡ texts (codes "4" ∷ []) }
    ensures copy { (account_of (sharing_workspace (codes "X") None empty_workspace) (codes "X" ∷ []) (value (number_value 4) ∷ [])).workspace.globals ≡ (sharing_workspace (codes "X") (Some (number_value 4)) empty_workspace).globals }
    ensures waits { (account_of (sharing_workspace (codes "X") None empty_workspace) (codes "X" ∷ []) []).waits ≡ Some (act.Use (codes "X")) }
    ensures no_value { printed_on (sharing_workspace (codes "X") None empty_workspace) (codes "X" ∷ []) (no_value ∷ []) ≡ texts (codes "VALUE ERROR" ∷ codes "      X" ∷ []) }
    ensures not_shared { printed_on (sharing_workspace (codes "X") None empty_workspace) (codes "1+X" ∷ []) (not_shared ∷ []) ≡ texts (codes "VALUE ERROR" ∷ codes "      1+X" ∷ []) }
    ensures abandoned { printed_on (sharing_workspace (codes "X") None empty_workspace) (codes "X" ∷ codes "7" ∷ []) (abandoned (record { element = 4; owners = Partner }) ∷ [])
        ≡ texts (codes "SV INTERRUPT" ∷ codes "      X" ∷ codes "7" ∷ []) }
    ensures full { printed_on (sharing_workspace (codes "X") None empty_workspace) (codes "X" ∷ []) (full ∷ []) ≡ texts (codes "SV FULL" ∷ codes "      X" ∷ []) }
{}

/// An assignment to a shared name: a granted value is the own copy, and a refused one is not. The call does nothing.
pub fn assignments()
    ensures asked { asked_on (sharing_workspace (codes "X") (Some (number_value 3)) empty_workspace) (codes "X←4" ∷ []) (granted ∷ []) ≡ act.Set (codes "X") (number_value 4) ∷ [] }
    ensures silent { printed_on (sharing_workspace (codes "X") (Some (number_value 3)) empty_workspace) (codes "X←4" ∷ []) (granted ∷ []) ≡ [] }
    ensures copy { (account_of (sharing_workspace (codes "X") (Some (number_value 3)) empty_workspace) (codes "X←4" ∷ []) (granted ∷ [])).workspace.globals ≡ (sharing_workspace (codes "X") (Some (number_value 4)) empty_workspace).globals }
    ensures refused { (account_of (sharing_workspace (codes "X") (Some (number_value 3)) empty_workspace) (codes "X←4" ∷ []) (full ∷ [])).workspace.globals ≡ (sharing_workspace (codes "X") (Some (number_value 3)) empty_workspace).globals }
    ensures report { printed_on (sharing_workspace (codes "X") (Some (number_value 3)) empty_workspace) (codes "X←4" ∷ []) (abandoned (record { element = 1; owners = Partner }) ∷ []) ≡ texts (codes "SV INTERRUPT" ∷ codes "      X←4" ∷ []) }
{}

/// What comes before an act stands while it waits and is not asked again. The call does nothing.
pub fn what_was_done_stands()
    ensures first { (account_of (sharing_workspace (codes "X") None empty_workspace) (codes "X+Y←2" ∷ []) []).workspace.globals ≡ (account_of (sharing_workspace (codes "X") None empty_workspace) (codes "Y←2" ∷ []) []).workspace.globals }
    ensures left { (account_of (sharing_workspace (codes "X") None empty_workspace) (codes "X" ∷ []) (value (number_value 4) ∷ value (number_value 5) ∷ [])).answers ≡ value (number_value 5) ∷ [] }
    ensures items { asked_on (sharing_workspace (codes "A") None empty_workspace) (codes "A[4]←7" ∷ []) (value (vector (1 ∷ 2 ∷ [])) ∷ granted ∷ []) ≡ act.Use (codes "A") ∷ [] }
    ensures index { printed_on (sharing_workspace (codes "A") None empty_workspace) (codes "A[4]←7" ∷ []) (value (vector (1 ∷ 2 ∷ [])) ∷ granted ∷ []) ≡ texts (codes "INDEX ERROR" ∷ codes "      A[4]←7" ∷ []) }
{}

/// A line that waits inside a function goes on there. The call does nothing.
pub fn held_inside_a_function()
    ensures its_result { printed_on (defining (codes "R←G B;L") (codes "L←B×2" ∷ codes "R←L+X" ∷ []) (sharing_workspace (codes "X") None empty_workspace)) (codes "G 10" ∷ []) (value (number_value 5) ∷ []) ≡ texts (codes "25" ∷ []) }
    ensures waits { (account_of (defining (codes "R←G B;L") (codes "L←B×2" ∷ codes "R←L+X" ∷ []) (sharing_workspace (codes "X") None empty_workspace)) (codes "G 10" ∷ []) []).waits ≡ Some (act.Use (codes "X")) }
    ensures counted_while_waiting { counted_on (defining (codes "R←G B;L") (codes "L←B×2" ∷ codes "R←L+X" ∷ []) (sharing_workspace (codes "X") None empty_workspace)) (codes "G 10" ∷ []) [] ≡ 1 }
    ensures counted { counted_on (defining (codes "R←G B;L") (codes "L←B×2" ∷ codes "R←L+X" ∷ []) (sharing_workspace (codes "X") None empty_workspace)) (codes "G 10" ∷ []) (value (number_value 5) ∷ []) ≡ 2 }
    ensures refused { printed_on (defining (codes "R←G B;L") (codes "L←B×2" ∷ codes "R←L+X" ∷ []) (sharing_workspace (codes "X") None empty_workspace)) (codes "G 10" ∷ []) (no_value ∷ []) ≡ texts (codes "VALUE ERROR" ∷ codes "G[2] R←L+X" ∷ []) }
{}

/// A local name hides a shared one. The call does nothing.
pub fn locals_hide_shared_names()
    ensures no_act { asked_on (defining (codes "R←H;X") (codes "X←1" ∷ codes "R←X+1" ∷ []) (sharing_workspace (codes "X") None empty_workspace)) (codes "H" ∷ []) [] ≡ [] }
    ensures value { printed_on (defining (codes "R←H;X") (codes "X←1" ∷ codes "R←X+1" ∷ []) (sharing_workspace (codes "X") None empty_workspace)) (codes "H" ∷ []) [] ≡ texts (codes "2" ∷ []) }
{}
