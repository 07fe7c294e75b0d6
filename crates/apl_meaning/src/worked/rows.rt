//! Users of worked bundles: what each prints and asks, with the answers that the bundle's journal gives it.
ghost use Rattle.std.specs.Prelude.{◌≡◌, [], ◌∷◌, None, Some, false, negsuc, true, codes};
ghost use Rattle.apl_arrays.specs.Array.{scalar};
ghost use Rattle.apl_workspace.specs.Workspace.{empty_workspace};
ghost use Rattle.sv_access.specs.Control.{four_elements};
ghost use Rattle.sv_access.specs.declared.verdict.Owners.TheVariants.{Mine, Partner};
ghost use Rattle.sv_events.specs.Answer.{abandoned, degree, granted, kept, names, no_value, parties, value, vector as vector_answer};
ghost use Rattle.sv_events.specs.declared.event.Act.TheVariants as act;
ghost use Rattle.apl_meaning.specs.Worked.{asked_on, defining, number_value, printed_on, texts, account_of, vector, word};

/// A variable that two users share. The call does nothing.
pub fn plain_path()
    ensures giver { printed_on empty_workspace (codes "X←3" ∷ codes "1002 ⎕SVO 'X'" ∷ codes "X←4" ∷ []) (degree 1 ∷ granted ∷ []) ≡ texts (codes "1" ∷ []) }
    ensures given { asked_on empty_workspace (codes "X←3" ∷ codes "1002 ⎕SVO 'X'" ∷ codes "X←4" ∷ []) (degree 1 ∷ granted ∷ []) ≡ act.Offer 1002 (codes "X") (codes "X") (Some (number_value 3)) ∷ act.Set (codes "X") (number_value 4) ∷ [] }
    ensures taker { printed_on empty_workspace (codes "1001 ⎕SVO 'X'" ∷ codes "X" ∷ []) (degree 2 ∷ value (number_value 4) ∷ []) ≡ texts (codes "2" ∷ codes "4" ∷ []) }
    ensures taken { asked_on empty_workspace (codes "1001 ⎕SVO 'X'" ∷ codes "X" ∷ []) (degree 2 ∷ value (number_value 4) ∷ []) ≡ act.Offer 1001 (codes "X") (codes "X") None ∷ act.Use (codes "X") ∷ [] }
    ensures no_value { printed_on empty_workspace (codes "1002 ⎕SVO 'X'" ∷ codes "X" ∷ []) (degree 1 ∷ no_value ∷ []) ≡ texts (codes "1" ∷ codes "VALUE ERROR" ∷ codes "      X" ∷ []) }
{}

/// States and controls that users ask for. The call does nothing.
pub fn states_and_controls()
    ensures older { printed_on empty_workspace (codes "X←1" ∷ codes "1002 ⎕SVO 'X'" ∷ codes "⎕SVS 'X'" ∷ []) (degree 1 ∷ vector_answer (four_elements false false true true) ∷ []) ≡ texts (codes "1" ∷ codes "0 0 1 1" ∷ []) }
    ensures newer { printed_on empty_workspace (codes "X←2" ∷ codes "1001 ⎕SVO 'X'" ∷ codes "⎕SVS 'X'" ∷ codes "X" ∷ []) (degree 2 ∷ vector_answer (four_elements false true false true) ∷ value (number_value 1) ∷ [])
        ≡ texts (codes "2" ∷ codes "0 1 0 1" ∷ codes "1" ∷ []) }
    ensures two_sets { asked_on empty_workspace (codes "1002 ⎕SVO 'X'" ∷ codes "1 0 0 1 ⎕SVC 'X'" ∷ codes "X←5" ∷ codes "X←6" ∷ []) (degree 1 ∷ vector_answer (four_elements true false false true) ∷ granted ∷ granted ∷ [])
        ≡ act.Offer 1002 (codes "X") (codes "X") None ∷ act.SetControl (codes "X") (four_elements true false false true) ∷ act.Set (codes "X") (number_value 5) ∷ act.Set (codes "X") (number_value 6) ∷ [] }
    ensures both_hold { printed_on empty_workspace (codes "1002 ⎕SVO 'X'" ∷ codes "1 1 1 1 ⎕SVC 'X'" ∷ codes "X" ∷ codes "7" ∷ []) (degree 1 ∷ vector_answer (four_elements true true true true) ∷ abandoned (record { element = 3; owners = Mine }) ∷ [])
        ≡ texts (codes "1" ∷ codes "1 1 1 1" ∷ codes "SV INTERRUPT" ∷ codes "      X" ∷ codes "7" ∷ []) }
    ensures partner { printed_on empty_workspace (codes "1001 ⎕SVO 'X'" ∷ codes "X" ∷ []) (degree 2 ∷ abandoned (record { element = 4; owners = Partner }) ∷ []) ≡ texts (codes "2" ∷ codes "SV INTERRUPT" ∷ codes "      X" ∷ []) }
{}

/// Retractions, surrogates and items. The call does nothing.
pub fn retractions_and_items()
    ensures giver { printed_on empty_workspace (codes "X←1" ∷ codes "1002 ⎕SVO 'X'" ∷ codes "X←5" ∷ codes "⎕SVR 'X'" ∷ codes "X" ∷ []) (degree 1 ∷ granted ∷ kept 2 (Some (number_value 5)) ∷ []) ≡ texts (codes "1" ∷ codes "2" ∷ codes "5" ∷ []) }
    ensures taker { printed_on empty_workspace (codes "X←2" ∷ codes "1001 ⎕SVO 'X'" ∷ codes "⎕SVR 'X'" ∷ codes "X" ∷ []) (degree 2 ∷ kept 1 (Some (number_value 2)) ∷ []) ≡ texts (codes "2" ∷ codes "1" ∷ codes "2" ∷ []) }
    ensures surrogates { printed_on empty_workspace (codes "1001 ⎕SVO 'B X'" ∷ codes "B-B" ∷ []) (degree 2 ∷ value (number_value 1) ∷ value (number_value 10) ∷ []) ≡ texts (codes "2" ∷ codes "9" ∷ []) }
    ensures two_acts { asked_on empty_workspace (codes "A←1 2 3" ∷ codes "1002 ⎕SVO 'A'" ∷ codes "0 0 1 0 ⎕SVC 'A'" ∷ codes "A[2]←7" ∷ [])
        (degree 1 ∷ vector_answer (four_elements false false true false) ∷ value (vector (4 ∷ 5 ∷ 6 ∷ [])) ∷ granted ∷ [])
        ≡ act.Offer 1002 (codes "A") (codes "A") (Some (vector (1 ∷ 2 ∷ 3 ∷ []))) ∷ act.SetControl (codes "A") (four_elements false false true false) ∷ act.Use (codes "A") ∷ act.Set (codes "A") (vector (4 ∷ 7 ∷ 6 ∷ [])) ∷ [] }
    ensures queries { printed_on empty_workspace (codes "⎕SVQ ''" ∷ codes "⎕SVQ ''" ∷ codes "⎕SVQ 1001" ∷ codes "⍴⎕SVQ 1003" ∷ []) (parties [] ∷ parties (1001 ∷ []) ∷ names (codes "AB" ∷ []) ∷ names [] ∷ [])
        ≡ [] ∷ texts (codes "1001" ∷ codes "AB" ∷ codes "0 0" ∷ []) }
{}

/// Users of the text file and clock auxiliaries. The call does nothing.
pub fn auxiliaries()
    ensures text { printed_on empty_workspace (codes "20 ⎕SVO 'T'" ∷ codes "1 1 1 1 ⎕SVC 'T'" ∷ codes "T←'READ GONE'" ∷ codes "T" ∷ []) (degree 1 ∷ vector_answer (four_elements true true true true) ∷ granted ∷ value (number_value 1) ∷ [])
        ≡ texts (codes "1" ∷ codes "1 1 1 1" ∷ codes "1" ∷ []) }
    ensures command { asked_on (account_of empty_workspace (codes "20 ⎕SVO 'T'" ∷ []) (degree 1 ∷ [])).workspace (codes "T←'READ GONE'" ∷ []) (granted ∷ []) ≡ act.Set (codes "T") (word (codes "READ GONE")) ∷ [] }
    ensures clock { printed_on empty_workspace (codes "10 ⎕SVO 'C'" ∷ codes "C←0" ∷ codes "C" ∷ codes "C←0" ∷ codes "C" ∷ codes "C←7" ∷ codes "C" ∷ [])
        (degree 1 ∷ granted ∷ value (number_value 100) ∷ granted ∷ value (scalar (negsuc 1)) ∷ granted ∷ value (scalar (negsuc 0)) ∷ [])
        ≡ texts (codes "1" ∷ codes "100" ∷ codes "¯2" ∷ codes "¯1" ∷ []) }
{}

/// A file that one user reads line by line, and another prints. The call does nothing.
pub fn as_met_in_practice()
    ensures reader { asked_on (account_of (defining (codes "COPY;L") (codes "T←'READ NOTES'" ∷ codes "→(0≠T)/0" ∷ codes "A:T←'NEXT'" ∷ codes "L←T" ∷ codes "M←L" ∷ codes "→(0≠1↑L)/A" ∷ []) empty_workspace)
        (codes "20 ⎕SVO 'T'" ∷ codes "1002 ⎕SVO 'M'" ∷ []) (degree 1 ∷ degree 2 ∷ [])).workspace (codes "COPY" ∷ [])
        (granted ∷ value (number_value 0) ∷ granted ∷ value (word (codes "ONE")) ∷ granted ∷ granted ∷ value (vector []) ∷ granted ∷ [])
        ≡ act.Set (codes "T") (word (codes "READ NOTES")) ∷ act.Use (codes "T") ∷ act.Set (codes "T") (word (codes "NEXT")) ∷ act.Use (codes "T") ∷ act.Set (codes "M") (word (codes "ONE"))
        ∷ act.Set (codes "T") (word (codes "NEXT")) ∷ act.Use (codes "T") ∷ act.Set (codes "M") (vector []) ∷ [] }
    ensures printer { printed_on (account_of (defining (codes "GET;L") (codes "A:L←M" ∷ codes "→(0=1↑L)/0" ∷ codes "L" ∷ codes "→A" ∷ []) empty_workspace) (codes "1001 ⎕SVO 'M'" ∷ []) (degree 1 ∷ [])).workspace (codes "GET" ∷ [])
        (value (word (codes "ONE")) ∷ value (word (codes "TWO")) ∷ value (vector []) ∷ [])
        ≡ texts (codes "ONE" ∷ codes "TWO" ∷ []) }
{}

/// Users of bundles in which an access is held; their lines go on as if it had been granted at once. The call does
/// nothing.
pub fn held_accesses()
    ensures partners_vector { asked_on empty_workspace (codes "1002 ⎕SVO 'X'" ∷ codes "X←5" ∷ codes "X←6" ∷ []) (degree 1 ∷ granted ∷ granted ∷ [])
        ≡ act.Offer 1002 (codes "X") (codes "X") None ∷ act.Set (codes "X") (number_value 5) ∷ act.Set (codes "X") (number_value 6) ∷ [] }
    ensures its_partner { printed_on empty_workspace (codes "1001 ⎕SVO 'X'" ∷ codes "0 1 0 0 ⎕SVC 'X'" ∷ []) (degree 2 ∷ vector_answer (four_elements false true false false) ∷ []) ≡ texts (codes "2" ∷ codes "0 1 0 0" ∷ []) }
    ensures before_a_partner { asked_on empty_workspace (codes "1002 ⎕SVO 'X'" ∷ codes "1 0 0 0 ⎕SVC 'X'" ∷ codes "X←1" ∷ codes "X←2" ∷ []) (degree 1 ∷ vector_answer (four_elements true false false false) ∷ granted ∷ granted ∷ [])
        ≡ act.Offer 1002 (codes "X") (codes "X") None ∷ act.SetControl (codes "X") (four_elements true false false false) ∷ act.Set (codes "X") (number_value 1) ∷ act.Set (codes "X") (number_value 2) ∷ [] }
    ensures over_unseen { printed_on empty_workspace (codes "1002 ⎕SVO 'X'" ∷ codes "1 1 1 1 ⎕SVC 'X'" ∷ codes "X←1" ∷ codes "X" ∷ codes "X←2" ∷ [])
        (degree 1 ∷ vector_answer (four_elements true true true true) ∷ granted ∷ value (number_value 9) ∷ granted ∷ [])
        ≡ texts (codes "1" ∷ codes "1 1 1 1" ∷ codes "9" ∷ []) }
    ensures inside_a_function { printed_on (defining (codes "R←G B;L") (codes "L←B×2" ∷ codes "R←L+X" ∷ []) empty_workspace) (codes "1001 ⎕SVO 'X'" ∷ codes "G 10" ∷ []) (degree 2 ∷ value (number_value 5) ∷ []) ≡ texts (codes "2" ∷ codes "25" ∷ []) }
{}

/// Offers to anybody, and offers without a value. The call does nothing.
pub fn general_offers()
    ensures asked { asked_on empty_workspace (codes "0 ⎕SVO 'X'" ∷ codes "⎕SVO 'X'" ∷ []) (degree 1 ∷ degree 2 ∷ []) ≡ act.Offer 0 (codes "X") (codes "X") None ∷ act.AskDegree (codes "X") ∷ [] }
    ensures printed { printed_on empty_workspace (codes "0 ⎕SVO 'X'" ∷ codes "⎕SVO 'X'" ∷ []) (degree 1 ∷ degree 2 ∷ []) ≡ texts (codes "1" ∷ codes "2" ∷ []) }
    ensures two_names { asked_on empty_workspace (codes "1002 ⎕SVO 'AB'" ∷ codes "0 ⎕SVO 'C'" ∷ []) (degree 1 ∷ degree 1 ∷ [])
        ≡ act.Offer 1002 (codes "AB") (codes "AB") None ∷ act.Offer 0 (codes "C") (codes "C") None ∷ [] }
{}
