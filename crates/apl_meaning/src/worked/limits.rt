//! The two limits of INTERRUPT, and what is counted.
ghost use Rattle.std.specs.Prelude.{◌≡◌, [], ◌∷◌, codes};
ghost use Rattle.apl_workspace.specs.Workspace.{empty_workspace, with_printed};
ghost use Rattle.apl_meaning.specs.Worked.{counted_on, defining, printed_on, texts, account_of};

/// The statement past the last that may be begun is not begun, and the report shows it. The call does nothing.
pub fn statements_run_out()
    ensures turns { printed_on (defining (codes "F") (codes "→1" ∷ []) empty_workspace) (codes "F" ∷ []) [] ≡ texts (codes "INTERRUPT" ∷ codes "F[1] →1" ∷ []) }
    ensures count { counted_on (defining (codes "F") (codes "→2-1" ∷ []) empty_workspace) (codes "F" ∷ []) [] ≡ 39 }
    ensures call { printed_on (defining (codes "F") (codes "G" ∷ codes "→1" ∷ []) (defining (codes "G") (codes "⍝" ∷ []) empty_workspace)) (codes "F" ∷ []) [] ≡ texts (codes "INTERRUPT" ∷ codes "F[1] G" ∷ []) }
    ensures executed { printed_on (defining (codes "F") (codes "⍎'→1'" ∷ []) empty_workspace) (codes "F" ∷ []) [] ≡ texts (codes "INTERRUPT" ∷ codes "F[1] ⍎'→1'" ∷ []) }
{}

/// A line that would pass the limit of glyphs is not printed, and those before it are. The call does nothing.
pub fn glyphs_run_out()
    ensures fits { printed_on (with_printed empty_workspace 4194300) (codes "1234" ∷ []) [] ≡ texts (codes "1234" ∷ []) }
    ensures passes { printed_on (with_printed empty_workspace 4194300) (codes "12345" ∷ []) [] ≡ texts (codes "INTERRUPT" ∷ codes "      12345" ∷ []) }
    ensures second_line { printed_on (with_printed empty_workspace 4194300) (codes "2 1⍴123 456" ∷ []) [] ≡ texts (codes "123" ∷ codes "INTERRUPT" ∷ codes "      2 1⍴123 456" ∷ []) }
    ensures counted { (account_of (with_printed empty_workspace 4194300) (codes "2 1⍴123 456" ∷ []) []).workspace.printed ≡ 4194303 }
    ensures reports_are_not_counted { (account_of empty_workspace (codes "7÷2" ∷ codes "12" ∷ []) []).workspace.printed ≡ 2 }
    ensures stands { printed_on (with_printed empty_workspace 4194300) (codes "12345+X←0" ∷ codes "X" ∷ []) [] ≡ texts (codes "INTERRUPT" ∷ codes "      12345+X←0" ∷ codes "0" ∷ []) }
{}

/// Each application of a primitive function or an operator is counted, a refused one too, and nothing else. The call does
/// nothing.
pub fn applications()
    ensures two { counted_on empty_workspace (codes "1+2×3" ∷ []) [] ≡ 2 }
    ensures refused { counted_on empty_workspace (codes "7÷2" ∷ []) [] ≡ 1 }
    ensures operator { counted_on empty_workspace (codes "+/1 2 3" ∷ []) [] ≡ 1 }
    ensures indexing { counted_on empty_workspace (codes "A←5 6 7" ∷ codes "A[2]←9" ∷ codes "A[3]" ∷ []) [] ≡ 0 }
    ensures no_axis { counted_on empty_workspace (codes "⌽[1 2]5 6" ∷ []) [] ≡ 0 }
    ensures axis_outside { counted_on empty_workspace (codes "⌽[5]5 6" ∷ []) [] ≡ 1 }
    ensures defined { counted_on (defining (codes "R←F B") (codes "R←B" ∷ []) empty_workspace) (codes "F 3" ∷ []) [] ≡ 0 }
    ensures executed { counted_on empty_workspace (codes "⍎'1+1'" ∷ []) [] ≡ 1 }
{}

/// An array has at most 16,384 elements. The call does nothing.
pub fn elements_run_out()
    ensures most { printed_on empty_workspace (codes "⍴16384⍴0" ∷ []) [] ≡ texts (codes "16384" ∷ []) }
    ensures more { printed_on empty_workspace (codes "16385⍴0" ∷ []) [] ≡ texts (codes "WS FULL" ∷ codes "      16385⍴0" ∷ []) }
{}
