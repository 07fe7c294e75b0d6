//! What holds of the definitions: worked lines.

ghost use Rattle.std.specs.Prelude.{◌≡◌, ◌∷◌, [], List, ℕ, pos, Some, None, Ok, Err, codes};
ghost use Rattle.apl_arrays.specs.Array as array;
ghost use Rattle.apl_arrays.specs.Glyph as glyph;
ghost use Rattle.line_scanner.specs.Token.{numbers, chars, name, system, sign};
ghost use Rattle.line_trees.specs.Nodes.{constant, value, niladic, paren, indexed, apply, assign, assign_at};
ghost use Rattle.line_trees.specs.declared.class.Class.{Class};
ghost use Rattle.line_scanner.specs.Token.{PlainToken};
ghost use Rattle.line_trees.specs.Trees.{LineTree, as_nodes, line_tree_of};
ghost use Rattle.line_trees.specs.Grammar.{IsLine, IsStop};
ghost use Rattle.line_trees.specs.Parsing.{PlainTree, parsed};
ghost use Rattle.line_trees.specs.Order.{IsTreeInOrder};
ghost use Rattle.line_trees.specs.Worked.{parsed_glyphs, three_classes};

use crate::{Form, Fun};
use apl_arrays::{SystemName, Way};
use apl_verbs::{Dyad, Mix1, Mix2, Monad, Verb};

/// Worked lines of operands and functions, each token of one glyph. The call does nothing.
#[tactic(auto, unfolding(crate::specs::Marks::marks_from, crate::specs::Marks::step, crate::specs::Marks::may_end, crate::specs::Building::built_from, crate::specs::Building::built_by, crate::specs::Building::attached, crate::specs::Symbols::sign_symbol, crate::specs::Symbols::other_sign, crate::specs::Signs::monad_of, crate::specs::Signs::dyad_of, crate::specs::Signs::mix1_of, crate::specs::Signs::mix2_of, crate::specs::Signs::fold_of))]
pub fn worked_functions()
    // no tokens
    ensures nothing { parsed_glyphs [] [] ≡ Ok (record { label = None; form = Form.Nothing; nodes = [] }) }
    // 1 2
    ensures constant { parsed_glyphs [] (numbers (pos 1 ∷ pos 2 ∷ []) ∷ []) ≡ Ok (record { label = None; form = Form.Value 0; nodes = constant (array.numbers (pos 1 ∷ pos 2 ∷ [])) ∷ [] }) }
    // A+B
    ensures dyadic { parsed_glyphs [] (name (codes "A") ∷ sign glyph.plus ∷ name (codes "B") ∷ [])
        ≡ Ok (record { label = None; form = Form.Value 2; nodes = value (codes "B") ∷ value (codes "A") ∷ apply (Fun.Verb (Verb.Two Dyad.Plus)) (Some 1) 0 None ∷ [] }) }
    // A-B-C
    ensures right_to_left { parsed_glyphs [] (name (codes "A") ∷ sign glyph.minus ∷ name (codes "B") ∷ sign glyph.minus ∷ name (codes "C") ∷ [])
        ≡ Ok (record {
          label = None;
          form = Form.Value 4;
          nodes = value (codes "C") ∷ value (codes "B") ∷ apply (Fun.Verb (Verb.Two Dyad.Minus)) (Some 1) 0 None
              ∷ value (codes "A") ∷ apply (Fun.Verb (Verb.Two Dyad.Minus)) (Some 3) 2 None ∷ [];
        }) }
    // -B
    ensures monadic { parsed_glyphs [] (sign glyph.minus ∷ name (codes "B") ∷ [])
        ≡ Ok (record { label = None; form = Form.Value 1; nodes = value (codes "B") ∷ apply (Fun.Verb (Verb.One Monad.Negative)) None 0 None ∷ [] }) }
    // A--B
    ensures dyadic_and_monadic { parsed_glyphs [] (name (codes "A") ∷ sign glyph.minus ∷ sign glyph.minus ∷ name (codes "B") ∷ [])
        ≡ Ok (record {
          label = None;
          form = Form.Value 3;
          nodes = value (codes "B") ∷ apply (Fun.Verb (Verb.One Monad.Negative)) None 0 None ∷ value (codes "A")
              ∷ apply (Fun.Verb (Verb.Two Dyad.Minus)) (Some 2) 1 None ∷ [];
        }) }
    // (A)
    ensures parenthesis { parsed_glyphs [] (sign glyph.left_parenthesis ∷ name (codes "A") ∷ sign glyph.right_parenthesis ∷ [])
        ≡ Ok (record { label = None; form = Form.Value 1; nodes = value (codes "A") ∷ paren 0 ∷ [] }) }
    // ⌽[1]B
    ensures axis { parsed_glyphs [] (sign glyph.reverse ∷ sign glyph.left_bracket ∷ numbers (pos 1 ∷ []) ∷ sign glyph.right_bracket ∷ name (codes "B") ∷ [])
        ≡ Ok (record { label = None; form = Form.Value 2; nodes = value (codes "B") ∷ constant (array.numbers (pos 1 ∷ [])) ∷ apply (Fun.Verb (Verb.Mixed1 (Mix1.Reverse Way.Last))) None 0 (Some 1) ∷ [] }) }
    // A,[1]B
    ensures axis_and_left { parsed_glyphs [] (name (codes "A") ∷ sign glyph.comma ∷ sign glyph.left_bracket ∷ numbers (pos 1 ∷ []) ∷ sign glyph.right_bracket ∷ name (codes "B") ∷ [])
        ≡ Ok (record {
          label = None;
          form = Form.Value 3;
          nodes = value (codes "B") ∷ constant (array.numbers (pos 1 ∷ [])) ∷ value (codes "A")
              ∷ apply (Fun.Verb (Verb.Mixed2 Mix2.Catenate)) (Some 2) 0 (Some 1) ∷ [];
        }) }
    // ⍴[1]B
    ensures no_axis { parsed_glyphs [] (sign glyph.rho ∷ sign glyph.left_bracket ∷ numbers (pos 1 ∷ []) ∷ sign glyph.right_bracket ∷ name (codes "B") ∷ []) ≡ Err 1 }
    // +/B
    ensures reduction { parsed_glyphs [] (sign glyph.plus ∷ sign glyph.slash ∷ name (codes "B") ∷ [])
        ≡ Ok (record { label = None; form = Form.Value 1; nodes = value (codes "B") ∷ apply (Fun.Verb (Verb.Reduce Dyad.Plus Way.Last)) None 0 None ∷ [] }) }
    // A/B
    ensures compression { parsed_glyphs [] (name (codes "A") ∷ sign glyph.slash ∷ name (codes "B") ∷ [])
        ≡ Ok (record { label = None; form = Form.Value 2; nodes = value (codes "B") ∷ value (codes "A") ∷ apply (Fun.Verb (Verb.Mixed2 (Mix2.Compress Way.Last))) (Some 1) 0 None ∷ [] }) }
    // A+/B
    ensures no_operator { parsed_glyphs [] (name (codes "A") ∷ sign glyph.plus ∷ sign glyph.slash ∷ name (codes "B") ∷ []) ≡ Err 2 }
    // A+.×B
    ensures inner { parsed_glyphs [] (name (codes "A") ∷ sign glyph.plus ∷ sign glyph.period ∷ sign glyph.times ∷ name (codes "B") ∷ [])
        ≡ Ok (record { label = None; form = Form.Value 2; nodes = value (codes "B") ∷ value (codes "A") ∷ apply (Fun.Verb (Verb.Inner Dyad.Plus Dyad.Times)) (Some 1) 0 None ∷ [] }) }
    // A∘.+B
    ensures outer { parsed_glyphs [] (name (codes "A") ∷ sign glyph.jot ∷ sign glyph.period ∷ sign glyph.plus ∷ name (codes "B") ∷ [])
        ≡ Ok (record { label = None; form = Form.Value 2; nodes = value (codes "B") ∷ value (codes "A") ∷ apply (Fun.Verb (Verb.Outer Dyad.Plus)) (Some 1) 0 None ∷ [] }) }
{}

/// Worked lines of subscripts, assignments, names of functions and statements. The call does nothing.
#[tactic(auto, unfolding(crate::specs::Marks::marks_from, crate::specs::Marks::step, crate::specs::Marks::may_end, crate::specs::Building::built_from, crate::specs::Building::built_by, crate::specs::Building::attached, crate::specs::Symbols::sign_symbol, crate::specs::Symbols::other_sign, crate::specs::Signs::monad_of, crate::specs::Signs::dyad_of, crate::specs::Signs::mix1_of, crate::specs::Signs::mix2_of, crate::specs::Signs::fold_of))]
pub fn worked_statements()
    // A[I;;J]
    ensures subscripts { parsed_glyphs [] (name (codes "A") ∷ sign glyph.left_bracket ∷ name (codes "I") ∷ sign glyph.semicolon ∷ sign glyph.semicolon ∷ name (codes "J") ∷ sign glyph.right_bracket ∷ [])
        ≡ Ok (record { label = None; form = Form.Value 3; nodes = value (codes "J") ∷ value (codes "I") ∷ value (codes "A") ∷ indexed 2 (Some 1 ∷ None ∷ Some 0 ∷ []) ∷ [] }) }
    // A[]
    ensures all_items { parsed_glyphs [] (name (codes "A") ∷ sign glyph.left_bracket ∷ sign glyph.right_bracket ∷ [])
        ≡ Ok (record { label = None; form = Form.Value 1; nodes = value (codes "A") ∷ indexed 0 (None ∷ []) ∷ [] }) }
    // A[I][J]
    ensures twice { parsed_glyphs [] (name (codes "A") ∷ sign glyph.left_bracket ∷ name (codes "I") ∷ sign glyph.right_bracket ∷ sign glyph.left_bracket ∷ name (codes "J") ∷ sign glyph.right_bracket ∷ [])
        ≡ Ok (record { label = None; form = Form.Value 4; nodes = value (codes "J") ∷ value (codes "I") ∷ value (codes "A") ∷ indexed 2 (Some 1 ∷ []) ∷ indexed 3 (Some 0 ∷ []) ∷ [] }) }
    // A←B←1
    ensures assignments { parsed_glyphs [] (name (codes "A") ∷ sign glyph.left_arrow ∷ name (codes "B") ∷ sign glyph.left_arrow ∷ numbers (pos 1 ∷ []) ∷ [])
        ≡ Ok (record { label = None; form = Form.Value 2; nodes = constant (array.numbers (pos 1 ∷ [])) ∷ assign (codes "B") 0 ∷ assign (codes "A") 1 ∷ [] }) }
    // A[I]←B
    ensures assigned_items { parsed_glyphs [] (name (codes "A") ∷ sign glyph.left_bracket ∷ name (codes "I") ∷ sign glyph.right_bracket ∷ sign glyph.left_arrow ∷ name (codes "B") ∷ [])
        ≡ Ok (record { label = None; form = Form.Value 2; nodes = value (codes "B") ∷ value (codes "I") ∷ assign_at (codes "A") (Some 1 ∷ []) 0 ∷ [] }) }
    // A[I][J]←B
    ensures no_target { parsed_glyphs [] (name (codes "A") ∷ sign glyph.left_bracket ∷ name (codes "I") ∷ sign glyph.right_bracket ∷ sign glyph.left_bracket ∷ name (codes "J") ∷ sign glyph.right_bracket ∷ sign glyph.left_arrow ∷ name (codes "B") ∷ []) ≡ Err 7 }
    // N D M N
    ensures defined { parsed_glyphs three_classes (name (codes "N") ∷ name (codes "D") ∷ name (codes "M") ∷ name (codes "N") ∷ [])
        ≡ Ok (record {
          label = None;
          form = Form.Value 3;
          nodes = niladic (codes "N") ∷ apply (Fun.Defined (codes "M")) None 0 None ∷ niladic (codes "N")
              ∷ apply (Fun.Defined (codes "D")) (Some 2) 1 None ∷ [];
        }) }
    // N M N
    ensures no_left_argument { parsed_glyphs three_classes (name (codes "N") ∷ name (codes "M") ∷ name (codes "N") ∷ []) ≡ Err 1 }
    // A ⎕SVO B, ⎕SVR B and A ⎕SVR B
    ensures offer { parsed_glyphs [] (name (codes "A") ∷ system SystemName.Svo ∷ name (codes "B") ∷ [])
        ≡ Ok (record { label = None; form = Form.Value 2; nodes = value (codes "B") ∷ value (codes "A") ∷ apply (Fun.System SystemName.Svo) (Some 1) 0 None ∷ [] }) }
    ensures retract { parsed_glyphs [] (system SystemName.Svr ∷ name (codes "B") ∷ [])
        ≡ Ok (record { label = None; form = Form.Value 1; nodes = value (codes "B") ∷ apply (Fun.System SystemName.Svr) None 0 None ∷ [] }) }
    ensures no_dyadic_retract { parsed_glyphs [] (name (codes "A") ∷ system SystemName.Svr ∷ name (codes "B") ∷ []) ≡ Err 1 }
    // L:→A
    ensures labelled_branch { parsed_glyphs [] (name (codes "L") ∷ sign glyph.colon ∷ sign glyph.right_arrow ∷ name (codes "A") ∷ [])
        ≡ Ok (record { label = Some (codes "L"); form = Form.Branch 0; nodes = value (codes "A") ∷ [] }) }
    // L:
    ensures label { parsed_glyphs [] (name (codes "L") ∷ sign glyph.colon ∷ []) ≡ Ok (record { label = Some (codes "L"); form = Form.Nothing; nodes = [] }) }
    // ⍎A and A+⍎A
    ensures executed { parsed_glyphs [] (sign glyph.execute ∷ name (codes "A") ∷ []) ≡ Ok (record { label = None; form = Form.Execute 0; nodes = value (codes "A") ∷ [] }) }
    ensures execute_inside { parsed_glyphs [] (name (codes "A") ∷ sign glyph.plus ∷ sign glyph.execute ∷ name (codes "A") ∷ []) ≡ Err 2 }
    // A+ and (A
    ensures ends_early { parsed_glyphs [] (name (codes "A") ∷ sign glyph.plus ∷ []) ≡ Err 2 }
    ensures stays_open { parsed_glyphs [] (sign glyph.left_parenthesis ∷ name (codes "A") ∷ []) ≡ Err 2 }
{}

/// The tokens of each line of the grammar are parsed as its tree. The call does nothing.
#[tactic(auto, using(crate::proofs::LineLaw::line_parsed))]
pub fn lines_are_parsed()
    ensures { (classes : List Class) (line : LineTree) (tokens : List PlainToken) (length : ℕ) → IsLine classes line tokens → parsed classes tokens length ≡ Ok (as_nodes line) }
{}

/// What is parsed is a line of the grammar. The call does nothing.
#[tactic(auto, using(crate::proofs::Places::tree_is_line))]
pub fn trees_are_of_lines()
    ensures { (classes : List Class) (tokens : List PlainToken) (length : ℕ) (tree : PlainTree) → parsed classes tokens length ≡ Ok tree → (line : LineTree) × IsLine classes line tokens × (tree ≡ as_nodes line) }
{}

/// No tokens have two trees. The call does nothing.
#[tactic(auto, using(crate::proofs::Places::one_tree))]
pub fn each_line_has_one_tree()
    ensures { (classes : List Class) (tokens : List PlainToken) (first second : LineTree) → IsLine classes first tokens → IsLine classes second tokens → first ≡ second }
{}

/// The place of an error is that of a token with which no line goes on, or the length of a line that ends too early. The
/// call does nothing.
pub fn errors_stop_lines()
    ensures { (classes : List Class) (tokens : List PlainToken) (length at : ℕ) → parsed classes tokens length ≡ Err at → IsStop classes tokens length at }
{}

/// Where no line of the grammar goes on, there is the error: no tokens have two such places. The call does nothing.
pub fn stops_are_errors()
    ensures one_place { (classes : List Class) (tokens : List PlainToken) (length at : ℕ) → IsStop classes tokens length at → parsed classes tokens length ≡ Err at }
{}

/// Each node of a tree that is parsed stands after those that it names. The call does nothing.
pub fn nodes_are_in_order()
    ensures in_order { (classes : List Class) (tokens : List PlainToken) (length : ℕ) (tree : PlainTree) → parsed classes tokens length ≡ Ok tree → IsTreeInOrder tree }
{}

/// The nodes of a line stand for its tree. The call does nothing.
#[tactic(auto, using(crate::proofs::TreeLaw::line_again))]
pub fn nodes_stand_for_trees()
    ensures { (line : LineTree) → line_tree_of (as_nodes line) ≡ line }
{}
