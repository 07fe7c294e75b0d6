//! What holds of the definitions: laws of the grammar, and worked lines.

ghost use Rattle.std.specs.Prelude.{◌≡◌, ◌↔◌, ◌∷◌, [], ◌++◌, List, ℕ, pos, negsuc, Ok, Err, codes, map, replicate};
ghost use Rattle.apl_arrays.specs.Glyph as named;
ghost use Rattle.line_scanner.specs.Role.{role_of};
ghost use Rattle.line_scanner.specs.Token.{numbers, chars, name, system, sign};
ghost use Rattle.line_scanner.specs.Scanning.{Scanned, reading_of, character_at, syntax_at};
ghost use Rattle.line_scanner.specs.Grammar.{IsReading};

use crate::role::Role;
use apl_arrays::SystemName;

/// A line has no two lists of tokens, nor tokens and an error, nor two errors. The call does nothing.
#[tactic(auto, using(crate::proofs::ScanLaw::one_reading))]
pub fn each_line_has_one_reading()
    ensures { (line : List ℕ) (first second : Scanned) → IsReading line first → IsReading line second → first ≡ second }
{}

/// What is computed of a line is exactly what the grammar has. The call does nothing.
#[tactic(auto, using(crate::proofs::ScanLaw::reading_is_computed))]
pub fn readings_are_computed()
    ensures { (line : List ℕ) (reading : Scanned) → IsReading line reading ↔ (reading_of line ≡ reading) }
{}

/// The signs, and the glyphs without a role. The call does nothing.
#[tactic(auto, unfolding(crate::specs::Role::role_of))]
pub fn roles_of_glyphs()
    // ! ( ) * + , - . / : ; < = > [ \ ] | ~
    ensures ascii_signs { map role_of (named.exclamation ∷ codes "()*+,-./:;<=>[" ++ named.backslash ∷ codes "]|~") ≡ replicate 19 Role.Sign }
    // ⍴ ⍳ ∊ ↑ ↓ ⍋ ⍒ ⌽ ⊖ ⍉ ⌈ ⌊
    ensures first_signs { map role_of (named.rho ∷ named.iota ∷ named.epsilon ∷ named.up_arrow ∷ named.down_arrow ∷ named.grade_up
        ∷ named.grade_down ∷ named.reverse ∷ named.reverse_first ∷ named.transpose ∷ named.ceiling ∷ named.floor ∷ []) ≡ replicate 12 Role.Sign }
    // × ÷ ≤ ≥ ≠ ∧ ∨ ⍲ ⍱ ← →
    ensures next_signs { map role_of (named.times ∷ named.divide ∷ named.not_greater ∷ named.not_less ∷ named.not_equal ∷ named.and
        ∷ named.or ∷ named.nand ∷ named.nor ∷ named.left_arrow ∷ named.right_arrow ∷ []) ≡ replicate 11 Role.Sign }
    // ∇ ∘ ⊥ ⊤ ⌿ ⍀ ⍕ ⍎
    ensures last_signs { map role_of (named.del ∷ named.jot ∷ named.decode ∷ named.encode ∷ named.slash_bar ∷ named.backslash_bar
        ∷ named.format ∷ named.execute ∷ []) ≡ replicate 8 Role.Sign }
    // " # $ % & ? @ ^ _ ` { }
    ensures unused { map role_of (codes "\"#$%&?@^_`{}") ≡ replicate 12 Role.Unused }
{}

/// Worked lines. The call does nothing.
#[tactic(auto, unfolding(crate::specs::Role::role_of, crate::specs::Number::number, crate::specs::Number::next_number, crate::specs::Number::next_numbers, crate::specs::Scanning::chars_from, crate::specs::Scanning::front_of, crate::specs::Scanning::scan_from))]
pub fn worked_lines()
    // A&B
    ensures unused { reading_of (codes "A&B") ≡ Err (character_at 1) }
    // 'AB
    ensures open_quote { reading_of (codes "'AB") ≡ Err (syntax_at 0) }
    // 1 22
    ensures one_constant { reading_of (codes "1 22") ≡ Ok (record { kind = numbers (pos 1 ∷ pos 22 ∷ []); at = 0; after = 4 } ∷ []) }
    // 1¯2
    ensures two_numbers { reading_of (codes "1" ++ named.overbar ∷ codes "2") ≡ Ok (record { kind = numbers (pos 1 ∷ negsuc 1 ∷ []); at = 0; after = 3 } ∷ []) }
    // 'IT''S'
    ensures doubled_quote { reading_of (codes "'IT''S'") ≡ Ok (record { kind = chars (codes "IT'S"); at = 0; after = 7 } ∷ []) }
    // 9223372036854775808
    ensures out_of_range { reading_of (codes "9223372036854775808") ≡ Err (syntax_at 0) }
    // ⍎X
    ensures execute { reading_of (named.execute ∷ codes "X")
        ≡ Ok (record { kind = sign named.execute; at = 0; after = 1 } ∷ record { kind = name (codes "X"); at = 1; after = 2 } ∷ []) }
    // ⎕SVOX
    ensures system_and_name { reading_of (named.quad ∷ codes "SVOX")
        ≡ Ok (record { kind = system SystemName.Svo; at = 0; after = 4 } ∷ record { kind = name (codes "X"); at = 4; after = 5 } ∷ []) }
    // X+ ⍝ '&
    ensures comment { reading_of (codes "X+ " ++ named.lamp ∷ codes " '&")
        ≡ Ok (record { kind = name (codes "X"); at = 0; after = 1 } ∷ record { kind = sign named.plus; at = 1; after = 2 } ∷ []) }
{}
