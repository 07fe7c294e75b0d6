//! Sessions at work: what users' lines echo, print and ask, with the answers that they are given.
ghost use Rattle.std.specs.Prelude.{◌≡◌, [], ◌∷◌, None, Some, false, true, codes};
ghost use Rattle.sv_access.specs.Control.{four_elements};
ghost use Rattle.sv_events.specs.Answer.{abandoned, degree, full, granted, kept, no_value, not_shared, value, vector as vector_answer};
ghost use Rattle.sv_access.specs.declared.verdict.Owners.TheVariants.{Mine};
ghost use Rattle.sv_events.specs.declared.event.Act.TheVariants as act;
ghost use Rattle.apl_meaning.specs.Worked.{number_value, texts};
ghost use Rattle.ws_codec.specs.Worked.{offered_bytes};
ghost use Rattle.apl_terminal.specs.LineKind.{is_command, is_opening};
ghost use Rattle.session_rules.specs.Shelf.{browsed, failed, fetched, stored};
ghost use Rattle.session_rules.specs.Worked.{acts_asked_by, shown_by, shown_with, waits_in, worked, worked_with};

/// Two users of one variable. The call does nothing.
pub fn plain_path()
    ensures giver { shown_by (codes "X←3" ∷ codes "1002 ⎕SVO 'X'" ∷ codes "X←4" ∷ []) (degree 1 ∷ granted ∷ [])
        ≡ texts (codes "      X←3" ∷ codes "      1002 ⎕SVO 'X'" ∷ codes "1" ∷ codes "      X←4" ∷ []) }
    ensures given { acts_asked_by (codes "X←3" ∷ codes "1002 ⎕SVO 'X'" ∷ codes "X←4" ∷ []) (degree 1 ∷ granted ∷ []) ≡ act.Offer 1002 (codes "X") (codes "X") (Some (number_value 3)) ∷ act.Set (codes "X") (number_value 4) ∷ [] }
    ensures taker { shown_by (codes "1001 ⎕SVO 'X'" ∷ codes "X" ∷ []) (degree 2 ∷ value (number_value 4) ∷ []) ≡ texts (codes "      1001 ⎕SVO 'X'" ∷ codes "2" ∷ codes "      X" ∷ codes "4" ∷ []) }
    ensures finished { waits_in (codes "1001 ⎕SVO 'X'" ∷ codes "X" ∷ []) (degree 2 ∷ value (number_value 4) ∷ []) ≡ None }
{}

/// A user that defines a function, and whose call of it waits for an answer in its middle. The call does nothing.
pub fn held_inside_a_function()
    ensures waits { waits_in (codes "1001 ⎕SVO 'X'" ∷ codes "∇R←G B;L" ∷ codes "L←B×2" ∷ codes "R←L+X" ∷ codes "∇" ∷ codes "G 10" ∷ []) (degree 2 ∷ []) ≡ Some (act.Use (codes "X")) }
    ensures so_far { shown_by (codes "1001 ⎕SVO 'X'" ∷ codes "∇R←G B;L" ∷ codes "L←B×2" ∷ codes "R←L+X" ∷ codes "∇" ∷ codes "G 10" ∷ []) (degree 2 ∷ [])
        ≡ texts (codes "      1001 ⎕SVO 'X'" ∷ codes "2" ∷ codes "      ∇R←G B;L" ∷ codes "[1]   L←B×2" ∷ codes "[2]   R←L+X" ∷ codes "[3]   ∇" ∷ codes "      G 10" ∷ []) }
    ensures answered { shown_by (codes "1001 ⎕SVO 'X'" ∷ codes "∇R←G B;L" ∷ codes "L←B×2" ∷ codes "R←L+X" ∷ codes "∇" ∷ codes "G 10" ∷ []) (degree 2 ∷ value (number_value 5) ∷ [])
        ≡ texts (codes "      1001 ⎕SVO 'X'" ∷ codes "2" ∷ codes "      ∇R←G B;L" ∷ codes "[1]   L←B×2" ∷ codes "[2]   R←L+X" ∷ codes "[3]   ∇" ∷ codes "      G 10" ∷ codes "25" ∷ []) }
{}

/// Definitions that are shown, refused, closed and left open. The call does nothing.
pub fn definitions()
    ensures shown { shown_by (codes "∇F" ∷ codes "'A'" ∷ codes "[⎕]" ∷ codes "[9]" ∷ codes "∇" ∷ codes "F" ∷ []) []
        ≡ texts (codes "      ∇F" ∷ codes "[1]   'A'" ∷ codes "[2]   [⎕]" ∷ codes "    ∇ F" ∷ codes "[1]   'A'" ∷ codes "    ∇" ∷ codes "[2]   [9]" ∷ codes "DEFN ERROR" ∷ codes "      [9]" ∷ codes "[2]   ∇" ∷ codes "      F" ∷ codes "A" ∷ []) }
    ensures refused { shown_by (codes "V←3" ∷ codes "∇V" ∷ codes "V" ∷ []) [] ≡ texts (codes "      V←3" ∷ codes "      ∇V" ∷ codes "DEFN ERROR" ∷ codes "      ∇V" ∷ codes "      V" ∷ codes "3" ∷ []) }
    ensures on_one_line { shown_by (codes "∇F" ∷ codes "7 ∇" ∷ codes "  ∇F[⎕]∇" ∷ codes "F" ∷ []) []
        ≡ texts (codes "      ∇F" ∷ codes "[1]   7 ∇" ∷ codes "        ∇F[⎕]∇" ∷ codes "    ∇ F" ∷ codes "[1]   7 " ∷ codes "    ∇" ∷ codes "      F" ∷ codes "7" ∷ []) }
    ensures left_open { shown_by (codes "∇F" ∷ codes "F" ∷ []) [] ≡ texts (codes "      ∇F" ∷ codes "[1]   F" ∷ []) }
    ensures dropped { (worked (codes "∇F" ∷ codes "F" ∷ []) []).terminal.workspace ≡ (worked [] []).terminal.workspace }
{}

/// Lines that are reported, and answers that are. The call does nothing.
pub fn reports()
    ensures no_statement { shown_by (codes "1+" ∷ codes "'A" ∷ codes "" ∷ codes "2" ∷ []) []
        ≡ texts (codes "      1+" ∷ codes "SYNTAX ERROR" ∷ codes "      1+" ∷ codes "      'A" ∷ codes "SYNTAX ERROR" ∷ codes "      'A" ∷ codes "      " ∷ codes "      2" ∷ codes "2" ∷ []) }
    ensures no_value { shown_by (codes "1002 ⎕SVO 'X'" ∷ codes "X" ∷ []) (degree 1 ∷ no_value ∷ []) ≡ texts (codes "      1002 ⎕SVO 'X'" ∷ codes "1" ∷ codes "      X" ∷ codes "VALUE ERROR" ∷ codes "      X" ∷ []) }
    ensures given_up { shown_by (codes "1002 ⎕SVO 'X'" ∷ codes "1 1 1 1 ⎕SVC 'X'" ∷ codes "X" ∷ codes "7" ∷ []) (degree 1 ∷ vector_answer (four_elements true true true true) ∷ abandoned (record { element = 3; owners = Mine }) ∷ [])
        ≡ texts (codes "      1002 ⎕SVO 'X'" ∷ codes "1" ∷ codes "      1 1 1 1 ⎕SVC 'X'" ∷ codes "1 1 1 1" ∷ codes "      X" ∷ codes "SV INTERRUPT" ∷ codes "      X" ∷ codes "      7" ∷ codes "7" ∷ []) }
    ensures journal_full { shown_by (codes "1002 ⎕SVO 'X'" ∷ codes "X←3" ∷ codes "X" ∷ []) (full ∷ [])
        ≡ texts (codes "      1002 ⎕SVO 'X'" ∷ codes "SV FULL" ∷ codes "      1002 ⎕SVO 'X'" ∷ codes "      X←3" ∷ codes "      X" ∷ codes "3" ∷ []) }
    ensures spare { (worked (codes "2" ∷ []) (granted ∷ [])).answers ≡ granted ∷ [] }
{}

/// Commands: their output, what they ask before it, and what comes of the answers; a line of a definition that begins as they
/// do; and the end of a session. The call does nothing.
pub fn commands()
    ensures incorrect { shown_by (codes ")FNS X" ∷ codes "  )WSID" ∷ []) [] ≡ texts (codes "      )FNS X" ∷ codes "INCORRECT COMMAND" ∷ codes "        )WSID" ∷ codes "CLEAR WS" ∷ []) }
    ensures waits { waits_in (codes "1002 ⎕SVO 'X'" ∷ codes ")CLEAR" ∷ []) (degree 1 ∷ []) ≡ Some (act.Retract (codes "X")) }
    ensures so_far { shown_by (codes "1002 ⎕SVO 'X'" ∷ codes ")CLEAR" ∷ []) (degree 1 ∷ []) ≡ texts (codes "      1002 ⎕SVO 'X'" ∷ codes "1" ∷ codes "      )CLEAR" ∷ []) }
    ensures cleared { shown_by (codes "X←3" ∷ codes "1002 ⎕SVO 'X'" ∷ codes ")CLEAR" ∷ codes "X" ∷ []) (degree 1 ∷ kept 1 (Some (number_value 3)) ∷ [])
        ≡ texts (codes "      X←3" ∷ codes "      1002 ⎕SVO 'X'" ∷ codes "1" ∷ codes "      )CLEAR" ∷ codes "CLEAR WS" ∷ codes "      X" ∷ codes "VALUE ERROR" ∷ codes "      X" ∷ []) }
    ensures erased { shown_by (codes "X←3" ∷ codes "1002 ⎕SVO 'X'" ∷ codes ")ERASE X Z" ∷ codes ")VARS" ∷ []) (degree 1 ∷ not_shared ∷ [])
        ≡ texts (codes "      X←3" ∷ codes "      1002 ⎕SVO 'X'" ∷ codes "1" ∷ codes "      )ERASE X Z" ∷ codes "NOT FOUND: Z" ∷ codes "      )VARS" ∷ []) }
    ensures journal_full { shown_by (codes "X←3" ∷ codes "1002 ⎕SVO 'X'" ∷ codes ")CLEAR" ∷ codes "X" ∷ []) (degree 1 ∷ full ∷ value (number_value 3) ∷ [])
        ≡ texts (codes "      X←3" ∷ codes "      1002 ⎕SVO 'X'" ∷ codes "1" ∷ codes "      )CLEAR" ∷ codes "SV FULL" ∷ codes "      X" ∷ codes "3" ∷ []) }
    ensures off { shown_by (codes "1" ∷ codes ")OFF" ∷ codes "2" ∷ []) [] ≡ texts (codes "      1" ∷ codes "1" ∷ codes "      )OFF" ∷ []) }
    ensures defined { shown_by (codes "∇F" ∷ codes ")OFF" ∷ codes "∇" ∷ codes ")FNS" ∷ []) [] ≡ texts (codes "      ∇F" ∷ codes "[1]   )OFF" ∷ codes "[2]   ∇" ∷ codes "      )FNS" ∷ codes "F" ∷ []) }
{}

/// Commands on a shelf, with its replies: a workspace is saved and loaded, names are listed, and calls fail. The call does
/// nothing.
pub fn commands_on_a_shelf()
    ensures saved { shown_with (codes ")SAVE" ∷ codes ")SAVE W" ∷ codes ")WSID" ∷ []) [] (stored ∷ []) ≡ texts (codes "      )SAVE" ∷ codes "WS NOT NAMED" ∷ codes "      )SAVE W" ∷ codes "SAVED W" ∷ codes "      )WSID" ∷ codes "IS W" ∷ []) }
    ensures listed { shown_with (codes ")LIB" ∷ []) [] (browsed (codes "V" ∷ codes "W" ∷ []) ∷ []) ≡ texts (codes "      )LIB" ∷ codes "V" ∷ codes "W" ∷ []) }
    ensures fault { shown_with (codes ")LIB" ∷ codes ")LOAD W" ∷ []) [] (failed ∷ fetched None ∷ []) ≡ texts (codes "      )LIB" ∷ codes "LIBRARY FAULT" ∷ codes "      )LOAD W" ∷ codes "WS NOT FOUND" ∷ []) }
    ensures taken { (worked_with (codes ")LIB" ∷ codes "2" ∷ []) [] (failed ∷ stored ∷ [])).replies ≡ stored ∷ [] }
{}

/// A load makes the saved offers again, each with the value that its name has. The call does nothing.
pub fn loads_remake_offers()
    ensures asked { (worked_with (codes ")LOAD W" ∷ codes "X" ∷ []) (degree 1 ∷ value (number_value 3) ∷ []) (fetched (Some offered_bytes) ∷ [])).acts ≡ act.Offer 1002 (codes "X") (codes "X") (Some (number_value 3)) ∷ act.Use (codes "X") ∷ [] }
    ensures shown { shown_with (codes ")LOAD W" ∷ codes "X" ∷ []) (degree 1 ∷ value (number_value 3) ∷ []) (fetched (Some offered_bytes) ∷ []) ≡ texts (codes "      )LOAD W" ∷ codes "LOADED W" ∷ codes "      X" ∷ codes "3" ∷ []) }
    ensures journal_full { shown_with (codes ")LOAD W" ∷ codes "X" ∷ codes ")WSID" ∷ []) (full ∷ []) (fetched (Some offered_bytes) ∷ []) ≡ texts (codes "      )LOAD W" ∷ codes "SV FULL" ∷ codes "      X" ∷ codes "3" ∷ codes "      )WSID" ∷ codes "IS W" ∷ []) }
{}

/// Lines by their first glyph other than a blank. The call does nothing.
pub fn kinds_of_lines()
    ensures opening { is_opening (codes "  ") ≡ false }
    ensures command { is_command (codes "  )OFF") ≡ true }
    ensures behind { is_command (codes "X)") ≡ false }
    ensures nothing { is_command [] ≡ false }
{}
