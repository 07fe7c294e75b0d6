//! What holds of the definitions: laws of the grammar, and worked headers.

ghost use Rattle.std.specs.Prelude.{◌≡◌, ◌↔◌, ◌∷◌, [], ◌++◌, List, ℕ, true, Some, None, codes};
ghost use Rattle.apl_arrays.specs.Glyph as named;
ghost use Rattle.apl_workspace.specs.Header.{PlainHeader, header_of};
ghost use Rattle.apl_workspace.specs.Grammar.{IsHeader};
ghost use Rattle.apl_arrays.specs.Name.{same_name};

/// The test of names is true of equal names alone. The call does nothing.
pub fn names_are_told_apart()
    ensures { (first second : List ℕ) → (same_name first second ≡ true) ↔ (first ≡ second) }
{}

/// What is computed of a line is exactly what the grammar of headers has. The call does nothing.
pub fn headers_are_computed()
    ensures { (line : List ℕ) (header : PlainHeader) → IsHeader line header ↔ (header_of line ≡ Some header) }
{}

/// Worked headers. The call does nothing.
#[tactic(auto, unfolding(crate::specs::Header::header_of, crate::specs::Header::locals_in, crate::specs::Names::all_differ, line_scanner::specs::Role::role_of, line_scanner::specs::Number::number, line_scanner::specs::Number::next_number, line_scanner::specs::Number::next_numbers, line_scanner::specs::Scanning::chars_from, line_scanner::specs::Scanning::front_of, line_scanner::specs::Scanning::scan_from))]
pub fn worked_headers()
    // F
    ensures niladic { header_of (codes "F") ≡ Some (record { name = codes "F"; left = None; right = None; result = None; locals = [] }) }
    // R←A F B;L
    ensures whole { header_of (codes "R" ++ named.left_arrow ∷ codes "A F B;L")
        ≡ Some (record { name = codes "F"; left = Some (codes "A"); right = Some (codes "B"); result = Some (codes "R"); locals = codes "L" ∷ [] }) }
    // F B;B
    ensures twice { header_of (codes "F B;B") ≡ None }
    // F ⍝
    ensures comment { header_of (codes "F " ++ named.lamp ∷ []) ≡ None }
    // R←
    ensures no_name { header_of (codes "R" ++ named.left_arrow ∷ []) ≡ None }
{}
