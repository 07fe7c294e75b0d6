//! Shared variable functions, row by row.
ghost use Rattle.std.specs.Prelude.{◌≡◌, [], ◌∷◌, None, Some, false, true, codes};
ghost use Rattle.apl_workspace.specs.Workspace.{empty_workspace};
ghost use Rattle.sv_access.specs.Control.{four_elements};
ghost use Rattle.sv_events.specs.Answer.{degree, full, granted, kept, names, not_shared, offer_limit, parties, value, vector as vector_answer};
ghost use Rattle.sv_events.specs.declared.event.Act.TheVariants as act;
ghost use Rattle.apl_meaning.specs.Worked.{asked_on, counted_on, defining, number_value, printed_by, printed_on, sharing_workspace, sharing_all, texts, account_of};

/// An offer hands in the value of the global, and the name is shared from then on. The call does nothing.
pub fn offers()
    ensures asked { asked_on empty_workspace (codes "X←3" ∷ codes "1002 ⎕SVO 'X'" ∷ []) (degree 1 ∷ []) ≡ act.Offer 1002 (codes "X") (codes "X") (Some (number_value 3)) ∷ [] }
    ensures printed { printed_on empty_workspace (codes "X←3" ∷ codes "1002 ⎕SVO 'X'" ∷ []) (degree 1 ∷ []) ≡ texts (codes "1" ∷ []) }
    ensures shared { (account_of empty_workspace (codes "X←3" ∷ codes "1002 ⎕SVO 'X'" ∷ []) (degree 1 ∷ [])).workspace ≡ record (sharing_workspace (codes "X") (Some (number_value 3)) empty_workspace) { printed = 1 } }
    ensures surrogate { asked_on empty_workspace (codes "0 ⎕SVO ' A  X '" ∷ []) (degree 2 ∷ []) ≡ act.Offer 0 (codes "A") (codes "X") None ∷ [] }
    ensures again { asked_on (sharing_workspace (codes "X") (Some (number_value 3)) empty_workspace) (codes "1001 ⎕SVO 'X'" ∷ []) (degree 1 ∷ []) ≡ act.Offer 1001 (codes "X") (codes "X") (Some (number_value 3)) ∷ [] }
    ensures limit { printed_on empty_workspace (codes "1002 ⎕SVO 'X'" ∷ []) (offer_limit ∷ []) ≡ texts (codes "SV LIMIT" ∷ codes "      1002 ⎕SVO 'X'" ∷ []) }
    ensures then_used { asked_on empty_workspace (codes "1002 ⎕SVO 'X'" ∷ codes "X←4" ∷ codes "X" ∷ []) (degree 1 ∷ granted ∷ value (number_value 5) ∷ [])
        ≡ act.Offer 1002 (codes "X") (codes "X") None ∷ act.Set (codes "X") (number_value 4) ∷ act.Use (codes "X") ∷ [] }
{}

/// Rows are tested before the first act, and then done first to last. The call does nothing.
pub fn rows_of_names()
    ensures printed { printed_on empty_workspace (codes "1002 ⎕SVO 2 1⍴'AB'" ∷ []) (degree 1 ∷ degree 2 ∷ []) ≡ texts (codes "1 2" ∷ []) }
    ensures addressees { asked_on empty_workspace (codes "10 20 ⎕SVO 2 1⍴'AB'" ∷ []) (degree 1 ∷ degree 1 ∷ [])
        ≡ act.Offer 10 (codes "A") (codes "A") None ∷ act.Offer 20 (codes "B") (codes "B") None ∷ [] }
    ensures tested_first { (account_of empty_workspace (codes "1002 ⎕SVO 3 1⍴'AB1'" ∷ []) (degree 1 ∷ degree 1 ∷ [])).answers ≡ degree 1 ∷ degree 1 ∷ [] }
    ensures third_fails { printed_on empty_workspace (codes "1002 ⎕SVO 3 1⍴'AB1'" ∷ []) (degree 1 ∷ degree 1 ∷ []) ≡ texts (codes "DOMAIN ERROR" ∷ codes "      1002 ⎕SVO 3 1⍴'AB1'" ∷ []) }
    ensures earlier_rows_stand { (account_of empty_workspace (codes "1002 ⎕SVO 3 1⍴'BAC'" ∷ []) (degree 1 ∷ degree 1 ∷ full ∷ [])).workspace ≡ sharing_workspace (codes "A") None (sharing_workspace (codes "B") None empty_workspace) }
    ensures full { printed_on (sharing_workspace (codes "X") None empty_workspace) (codes "D←⎕SVO 3 1⍴'XXX'" ∷ codes "5" ∷ codes "D" ∷ []) (degree 1 ∷ full ∷ []) ≡ texts (codes "SV FULL" ∷ codes "      D←⎕SVO 3 1⍴'XXX'" ∷ codes "5" ∷ codes "VALUE ERROR" ∷ codes "      D" ∷ []) }
    ensures no_rows { printed_by (codes "⍴⎕SVO 0 2⍴''" ∷ codes "⍴⎕SVC 0 2⍴''" ∷ []) ≡ texts (codes "0" ∷ codes "0 4" ∷ []) }
{}

/// What is wrong with the arguments of an offer. The call does nothing.
pub fn offers_refused()
    ensures party { printed_by (codes "5 ⎕SVO 'X'" ∷ []) ≡ texts (codes "DOMAIN ERROR" ∷ codes "      5 ⎕SVO 'X'" ∷ []) }
    ensures characters { printed_by (codes "'A' ⎕SVO 'X'" ∷ []) ≡ texts (codes "DOMAIN ERROR" ∷ codes "      'A' ⎕SVO 'X'" ∷ []) }
    ensures parties { printed_by (codes "10 20 ⎕SVO 'X'" ∷ []) ≡ texts (codes "LENGTH ERROR" ∷ codes "      10 20 ⎕SVO 'X'" ∷ []) }
    ensures axes { printed_by (codes "(1 1⍴10) ⎕SVO 'X'" ∷ []) ≡ texts (codes "RANK ERROR" ∷ codes "      (1 1⍴10) ⎕SVO 'X'" ∷ []) }
    ensures rank { printed_by (codes "5 6 ⎕SVO 1 1 1⍴5" ∷ []) ≡ texts (codes "RANK ERROR" ∷ codes "      5 6 ⎕SVO 1 1 1⍴5" ∷ []) }
    ensures numbers { printed_by (codes "10 ⎕SVO 5" ∷ []) ≡ texts (codes "DOMAIN ERROR" ∷ codes "      10 ⎕SVO 5" ∷ []) }
    ensures three_names { printed_by (codes "10 ⎕SVO 'A B C'" ∷ []) ≡ texts (codes "DOMAIN ERROR" ∷ codes "      10 ⎕SVO 'A B C'" ∷ []) }
    ensures no_name { printed_by (codes "10 ⎕SVO ''" ∷ []) ≡ texts (codes "DOMAIN ERROR" ∷ codes "      10 ⎕SVO ''" ∷ []) }
    ensures function { printed_on (defining (codes "F") [] empty_workspace) (codes "10 ⎕SVO 'F'" ∷ []) [] ≡ texts (codes "DOMAIN ERROR" ∷ codes "      10 ⎕SVO 'F'" ∷ []) }
    ensures local { printed_on (defining (codes "F;X") (codes "10 ⎕SVO 'X'" ∷ []) empty_workspace) (codes "F" ∷ []) [] ≡ texts (codes "DOMAIN ERROR" ∷ codes "F[1] 10 ⎕SVO 'X'" ∷ []) }
{}

/// Questions ask of shared names alone, and other names have zeros. The call does nothing.
pub fn questions()
    ensures degrees { printed_on (sharing_workspace (codes "X") None empty_workspace) (codes "⎕SVO 'X'" ∷ []) (degree 2 ∷ []) ≡ texts (codes "2" ∷ []) }
    ensures no_degree { printed_by (codes "⎕SVO 'X'" ∷ []) ≡ texts (codes "0" ∷ []) }
    ensures asked { asked_on (sharing_workspace (codes "X") None empty_workspace) (codes "⎕SVO 2 1⍴'XY'" ∷ []) (degree 1 ∷ []) ≡ act.AskDegree (codes "X") ∷ [] }
    ensures control { printed_on (sharing_workspace (codes "X") None empty_workspace) (codes "⎕SVC 'X'" ∷ []) (vector_answer (four_elements true false false true) ∷ []) ≡ texts (codes "1 0 0 1" ∷ []) }
    ensures no_control { printed_by (codes "⎕SVC 'X'" ∷ []) ≡ texts (codes "0 0 0 0" ∷ []) }
    ensures state { asked_on (sharing_workspace (codes "X") None empty_workspace) (codes "⎕SVS 'X'" ∷ []) (vector_answer (four_elements false false true true) ∷ []) ≡ act.AskState (codes "X") ∷ [] }
    ensures states { printed_on (sharing_workspace (codes "X") None empty_workspace) (codes "⎕SVS 2 1⍴'XY'" ∷ []) (vector_answer (four_elements false false true true) ∷ []) ≡ texts (codes "0 0 1 1" ∷ codes "0 0 0 0" ∷ []) }
    ensures hidden { asked_on (defining (codes "F;X") (codes "⎕SVO 'X'" ∷ []) (sharing_workspace (codes "X") None empty_workspace)) (codes "F" ∷ []) (degree 1 ∷ []) ≡ act.AskDegree (codes "X") ∷ [] }
    ensures uncounted { counted_on empty_workspace (codes "⎕SVO 'X'" ∷ []) [] ≡ 0 }
{}

/// Controls that are set, for all rows or for each. The call does nothing.
pub fn controls()
    ensures asked { asked_on (sharing_workspace (codes "X") None empty_workspace) (codes "1 0 0 1 ⎕SVC 'X'" ∷ []) (vector_answer (four_elements true true false true) ∷ []) ≡ act.SetControl (codes "X") (four_elements true false false true) ∷ [] }
    ensures in_force { printed_on (sharing_workspace (codes "X") None empty_workspace) (codes "1 0 0 1 ⎕SVC 'X'" ∷ []) (vector_answer (four_elements true true false true) ∷ []) ≡ texts (codes "1 1 0 1" ∷ []) }
    ensures one_element { asked_on (sharing_workspace (codes "X") None empty_workspace) (codes "1 ⎕SVC 'X'" ∷ []) (vector_answer (four_elements true true true true) ∷ []) ≡ act.SetControl (codes "X") (four_elements true true true true) ∷ [] }
    ensures each_row { asked_on (sharing_all (codes "X" ∷ codes "Y" ∷ [])) (codes "(2 4⍴1 0 0 0 0 1) ⎕SVC 2 1⍴'XY'" ∷ []) (vector_answer (four_elements true false false false) ∷ vector_answer (four_elements false true true false) ∷ [])
        ≡ act.SetControl (codes "X") (four_elements true false false false) ∷ act.SetControl (codes "Y") (four_elements false true true false) ∷ [] }
    ensures other { printed_by (codes "2 ⎕SVC 'X'" ∷ []) ≡ texts (codes "DOMAIN ERROR" ∷ codes "      2 ⎕SVC 'X'" ∷ []) }
    ensures length { printed_by (codes "1 0 ⎕SVC 'X'" ∷ []) ≡ texts (codes "LENGTH ERROR" ∷ codes "      1 0 ⎕SVC 'X'" ∷ []) }
    ensures rank { printed_by (codes "(1 1 2⍴1) ⎕SVC 'X'" ∷ []) ≡ texts (codes "RANK ERROR" ∷ codes "      (1 1 2⍴1) ⎕SVC 'X'" ∷ []) }
    ensures not_shared { printed_on (sharing_workspace (codes "X") None empty_workspace) (codes "1 ⎕SVC 'X'" ∷ []) (not_shared ∷ []) ≡ texts (codes "VALUE ERROR" ∷ codes "      1 ⎕SVC 'X'" ∷ []) }
{}

/// A retraction gives the name the value that the answer tells, and its mark goes. The call does nothing.
pub fn retractions()
    ensures printed { printed_on (sharing_workspace (codes "X") (Some (number_value 3)) empty_workspace) (codes "⎕SVR 'X'" ∷ codes "X" ∷ []) (kept 2 (Some (number_value 5)) ∷ []) ≡ texts (codes "2" ∷ codes "5" ∷ []) }
    ensures no_value { printed_on (sharing_workspace (codes "X") (Some (number_value 3)) empty_workspace) (codes "⎕SVR 'X'" ∷ codes "X" ∷ []) (kept 1 None ∷ []) ≡ texts (codes "1" ∷ codes "VALUE ERROR" ∷ codes "      X" ∷ []) }
    ensures twice { asked_on (sharing_workspace (codes "X") None empty_workspace) (codes "⎕SVR 2 1⍴'XX'" ∷ []) (kept 1 None ∷ []) ≡ act.Retract (codes "X") ∷ [] }
    ensures mark_stays { (account_of (sharing_workspace (codes "X") (Some (number_value 3)) empty_workspace) (codes "⎕SVR 'X'" ∷ []) (not_shared ∷ [])).workspace ≡ sharing_workspace (codes "X") (Some (number_value 3)) empty_workspace }
    ensures unshared { printed_by (codes "⎕SVR 'X'" ∷ []) ≡ texts (codes "0" ∷ []) }
{}

/// Queries for parties and for the names of one. The call does nothing.
pub fn queries()
    ensures nobody { printed_on empty_workspace (codes "⎕SVQ ''" ∷ []) (parties [] ∷ []) ≡ [] ∷ [] }
    ensures somebody { printed_on empty_workspace (codes "⎕SVQ ⍳0" ∷ []) (parties (1001 ∷ []) ∷ []) ≡ texts (codes "1001" ∷ []) }
    ensures names { printed_on empty_workspace (codes "⎕SVQ 1001" ∷ []) (names (codes "AB" ∷ codes "C" ∷ []) ∷ []) ≡ texts (codes "AB" ∷ codes "C " ∷ []) }
    ensures no_names { printed_on empty_workspace (codes "⍴⎕SVQ 1003" ∷ []) (names [] ∷ []) ≡ texts (codes "0 0" ∷ []) }
    ensures asked { asked_on empty_workspace (codes "⎕SVQ 20" ∷ []) (names [] ∷ []) ≡ act.AskNames 20 ∷ [] }
    ensures general { printed_by (codes "⎕SVQ 0" ∷ []) ≡ texts (codes "DOMAIN ERROR" ∷ codes "      ⎕SVQ 0" ∷ []) }
    ensures two { printed_by (codes "⎕SVQ 10 20" ∷ []) ≡ texts (codes "LENGTH ERROR" ∷ codes "      ⎕SVQ 10 20" ∷ []) }
    ensures matrix { printed_by (codes "⎕SVQ 0 0⍴0" ∷ []) ≡ texts (codes "RANK ERROR" ∷ codes "      ⎕SVQ 0 0⍴0" ∷ []) }
{}
