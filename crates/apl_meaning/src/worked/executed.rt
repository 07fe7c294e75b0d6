//! Texts that are executed.
ghost use Rattle.std.specs.Prelude.{◌≡◌, [], ◌∷◌, None, codes};
ghost use Rattle.apl_workspace.specs.Workspace.{empty_workspace};
ghost use Rattle.sv_events.specs.Answer.{value};
ghost use Rattle.sv_events.specs.declared.event.Act.TheVariants as act;
ghost use Rattle.apl_meaning.specs.Worked.{asked_on, defining, number_value, printed_by, printed_on, sharing_workspace, texts};

/// A text is a statement in the same place. The call does nothing.
pub fn executed_texts()
    ensures printed { printed_by (codes "X←'2+3'" ∷ codes "⍎X" ∷ []) ≡ texts (codes "5" ∷ []) }
    ensures assigned { printed_by (codes "⍎'X←3'" ∷ codes "X" ∷ []) ≡ texts (codes "3" ∷ []) }
    ensures twice { printed_by (codes "⍎'⍎''4'''" ∷ []) ≡ texts (codes "4" ∷ []) }
    ensures nothing { printed_by (codes "⍎''" ∷ []) ≡ [] }
    ensures comment { printed_by (codes "⍎'⍝'" ∷ []) ≡ [] }
    ensures branches { printed_on (defining (codes "F") (codes "⍎'→0'" ∷ codes "9" ∷ []) empty_workspace) (codes "F" ∷ []) [] ≡ [] }
    ensures leads { printed_on (defining (codes "F") (codes "⍎'→A'" ∷ codes "8" ∷ codes "A:9" ∷ []) empty_workspace) (codes "F" ∷ []) [] ≡ texts (codes "9" ∷ []) }
    ensures calls { printed_on (defining (codes "F") (codes "8" ∷ []) empty_workspace) (codes "⍎'F'" ∷ []) [] ≡ texts (codes "8" ∷ []) }
    ensures asks { asked_on (sharing_workspace (codes "X") None empty_workspace) (codes "⍎'X'" ∷ []) (value (number_value 1) ∷ []) ≡ act.Use (codes "X") ∷ [] }
{}

/// Values that are no text, and texts that are no statement; the second line is that of the line as read, or of the
/// function's line. The call does nothing.
pub fn texts_refused()
    ensures number { printed_by (codes "⍎5" ∷ []) ≡ texts (codes "DOMAIN ERROR" ∷ codes "      ⍎5" ∷ []) }
    ensures no_numbers { printed_by (codes "⍎⍳0" ∷ []) ≡ texts (codes "DOMAIN ERROR" ∷ codes "      ⍎⍳0" ∷ []) }
    ensures matrix { printed_by (codes "⍎1 1⍴5" ∷ []) ≡ texts (codes "RANK ERROR" ∷ codes "      ⍎1 1⍴5" ∷ []) }
    ensures inside { printed_by (codes "1+⍎'2'" ∷ []) ≡ texts (codes "SYNTAX ERROR" ∷ codes "      1+⍎'2'" ∷ []) }
    ensures character { printed_by (codes "⍎'A&B'" ∷ []) ≡ texts (codes "CHARACTER ERROR" ∷ codes "      ⍎'A&B'" ∷ []) }
    ensures syntax { printed_by (codes "⍎'1+'" ∷ []) ≡ texts (codes "SYNTAX ERROR" ∷ codes "      ⍎'1+'" ∷ []) }
    ensures label { printed_on (defining (codes "F") (codes "⍎'A:1'" ∷ []) empty_workspace) (codes "F" ∷ []) [] ≡ texts (codes "SYNTAX ERROR" ∷ codes "F[1] ⍎'A:1'" ∷ []) }
    ensures branch { printed_by (codes "⍎'→1'" ∷ []) ≡ texts (codes "SYNTAX ERROR" ∷ codes "      ⍎'→1'" ∷ []) }
    ensures no_value { printed_on (defining (codes "F") [] empty_workspace) (codes "⍎F" ∷ []) [] ≡ texts (codes "VALUE ERROR" ∷ codes "      ⍎F" ∷ []) }
    ensures inside_a_function { printed_on (defining (codes "F") (codes "⍎'7÷2'" ∷ []) empty_workspace) (codes "F" ∷ []) [] ≡ texts (codes "DOMAIN ERROR" ∷ codes "F[1] ⍎'7÷2'" ∷ []) }
{}
