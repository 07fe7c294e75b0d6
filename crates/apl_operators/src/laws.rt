//! What holds of the definitions, and worked examples.

ghost use Rattle.std.specs.Prelude.{◌≡◌, ◌+◌, ◌<◌, ℕ, ℤ, pos, negsuc, List, [], ◌∷◌, Option, Some, None, Ok, Err, length, slice_index_or, take};
ghost use Rattle.apl_arrays.specs.Array.{PlainArray, chars, number_array, numbers, numbers_in, scalar};
ghost use Rattle.apl_items.specs.Axis.{axis_of};
ghost use Rattle.apl_items.specs.Shapes.{place_along, split_at};
ghost use Rattle.apl_scalar.specs.Table.{dyadic_item};
ghost use Rattle.operator_rules.specs.Inner.{inner_product_of};
ghost use Rattle.apl_operators.specs.Lines.{front_numbers};
ghost use Rattle.operator_rules.specs.Outer.{outer_product_of};
ghost use Rattle.operator_rules.specs.Reduce.{reduce_of};
ghost use Rattle.operator_rules.specs.Scan.{scan_of};

use apl_arrays::{Report, Way};
use apl_items::Split;
use apl_verbs::Dyad;

/// Reductions: `-/1 2 3` is 2, since it goes from the right; no items give the identity, numbers or characters, or
/// DOMAIN where there is none; one item and a scalar are unchanged; a scalar has no axis. The call does nothing.
pub fn reductions_go_from_the_right()
    ensures minus { reduce_of Dyad.Minus (record { shape = 3 ∷ []; items = numbers (pos 1 ∷ pos 2 ∷ pos 3 ∷ []) }) Way.Last None ≡ Ok (scalar (pos 2)) }
    ensures no_numbers { reduce_of Dyad.Plus (record { shape = 0 ∷ []; items = numbers [] }) Way.Last None ≡ Ok (scalar (pos 0)) }
    ensures no_chars { reduce_of Dyad.Plus (record { shape = 0 ∷ []; items = chars [] }) Way.Last None ≡ Ok (scalar (pos 0)) }
    ensures no_identity { reduce_of Dyad.Nand (record { shape = 0 ∷ []; items = numbers [] }) Way.Last None ≡ Err Report.Domain }
    ensures one { reduce_of Dyad.Plus (record { shape = 1 ∷ []; items = chars (65 ∷ []) }) Way.Last None ≡ Ok (record { shape = []; items = chars (65 ∷ []) }) }
    ensures scalar { reduce_of Dyad.Divide (scalar (pos 5)) Way.First None ≡ Ok (scalar (pos 5)) }
    ensures no_axis { reduce_of Dyad.Plus (scalar (pos 5)) Way.Last (Some (pos 1)) ≡ Err Report.Index }
    ensures chars { reduce_of Dyad.Equal (record { shape = 3 ∷ []; items = chars (65 ∷ 66 ∷ 66 ∷ []) }) Way.Last None ≡ Ok (scalar (pos 0)) }
    ensures refused { reduce_of Dyad.Plus (record { shape = 2 ∷ []; items = chars (65 ∷ 66 ∷ []) }) Way.Last None ≡ Err Report.Domain }
{}

/// Reductions of a matrix of two rows and three columns: along its rows, along its columns, and along no axis of it; and
/// of matrices that give no items, which are numbers. The call does nothing.
pub fn reductions_go_along_an_axis()
    ensures rows { reduce_of Dyad.Plus (record { shape = 2 ∷ 3 ∷ []; items = numbers (pos 1 ∷ pos 2 ∷ pos 3 ∷ pos 4 ∷ pos 5 ∷ pos 6 ∷ []) }) Way.Last None
        ≡ Ok (record { shape = 2 ∷ []; items = numbers (pos 6 ∷ pos 15 ∷ []) }) }
    ensures columns { reduce_of Dyad.Minus (record { shape = 2 ∷ 3 ∷ []; items = numbers (pos 1 ∷ pos 2 ∷ pos 3 ∷ pos 4 ∷ pos 5 ∷ pos 6 ∷ []) }) Way.First None
        ≡ Ok (record { shape = 3 ∷ []; items = numbers (negsuc 2 ∷ negsuc 2 ∷ negsuc 2 ∷ []) }) }
    ensures second { reduce_of Dyad.Maximum (record { shape = 2 ∷ 3 ∷ []; items = numbers (pos 1 ∷ pos 2 ∷ pos 3 ∷ pos 4 ∷ pos 5 ∷ pos 6 ∷ []) }) Way.First (Some (pos 2))
        ≡ Ok (record { shape = 2 ∷ []; items = numbers (pos 3 ∷ pos 6 ∷ []) }) }
    ensures third { reduce_of Dyad.Plus (record { shape = 2 ∷ 1 ∷ []; items = numbers (pos 1 ∷ pos 2 ∷ []) }) Way.Last (Some (pos 3)) ≡ Err Report.Index }
    ensures none { reduce_of Dyad.Nand (record { shape = 0 ∷ 0 ∷ []; items = chars [] }) Way.Last None ≡ Ok (record { shape = 0 ∷ []; items = numbers [] }) }
    ensures one { reduce_of Dyad.Plus (record { shape = 0 ∷ 1 ∷ []; items = chars [] }) Way.Last None ≡ Ok (record { shape = 0 ∷ []; items = numbers [] }) }
{}

/// Scans: `-\1 2 3` is `1 ¯1 2`, each item a reduction from the right; so a product may leave 64 bits although 0 stands
/// before it. Items of both kinds are DOMAIN; no items keep their kind. The call does nothing.
pub fn scans_are_reductions()
    ensures minus { scan_of Dyad.Minus (record { shape = 3 ∷ []; items = numbers (pos 1 ∷ pos 2 ∷ pos 3 ∷ []) }) Way.Last None
        ≡ Ok (record { shape = 3 ∷ []; items = numbers (pos 1 ∷ negsuc 0 ∷ pos 2 ∷ []) }) }
    ensures columns { scan_of Dyad.Plus (record { shape = 2 ∷ 2 ∷ []; items = numbers (pos 1 ∷ pos 2 ∷ pos 3 ∷ pos 4 ∷ []) }) Way.First None
        ≡ Ok (record { shape = 2 ∷ 2 ∷ []; items = numbers (pos 1 ∷ pos 2 ∷ pos 4 ∷ pos 6 ∷ []) }) }
    ensures product { scan_of Dyad.Times (record { shape = 3 ∷ []; items = numbers (pos 0 ∷ pos 9223372036854775807 ∷ pos 2 ∷ []) }) Way.Last None ≡ Err Report.Domain }
    ensures kinds { scan_of Dyad.Equal (record { shape = 2 ∷ []; items = chars (65 ∷ 66 ∷ []) }) Way.Last None ≡ Err Report.Domain }
    ensures one { scan_of Dyad.Plus (record { shape = 1 ∷ []; items = chars (65 ∷ []) }) Way.Last None ≡ Ok (record { shape = 1 ∷ []; items = chars (65 ∷ []) }) }
    ensures no_chars { scan_of Dyad.Plus (record { shape = 0 ∷ []; items = chars [] }) Way.Last None ≡ Ok (record { shape = 0 ∷ []; items = chars [] }) }
    ensures no_axis { scan_of Dyad.Plus (scalar (pos 5)) Way.Last (Some (pos 1)) ≡ Err Report.Index }
{}

/// Outer products: `1 2∘.+1 2` is a matrix; no items are numbers, whatever is paired; a pair without a value is DOMAIN.
/// The call does nothing.
pub fn outer_products_pair_all()
    ensures sums { outer_product_of Dyad.Plus (record { shape = 2 ∷ []; items = numbers (pos 1 ∷ pos 2 ∷ []) }) (record { shape = 2 ∷ []; items = numbers (pos 1 ∷ pos 2 ∷ []) })
        ≡ Ok (record { shape = 2 ∷ 2 ∷ []; items = numbers (pos 2 ∷ pos 3 ∷ pos 3 ∷ pos 4 ∷ []) }) }
    ensures order { outer_product_of Dyad.Minus (record { shape = 2 ∷ []; items = numbers (pos 1 ∷ pos 2 ∷ []) }) (record { shape = 3 ∷ []; items = numbers (pos 1 ∷ pos 2 ∷ pos 3 ∷ []) })
        ≡ Ok (record { shape = 2 ∷ 3 ∷ []; items = numbers (pos 0 ∷ negsuc 0 ∷ negsuc 1 ∷ pos 1 ∷ pos 0 ∷ negsuc 0 ∷ []) }) }
    ensures none { outer_product_of Dyad.Plus (record { shape = 0 ∷ []; items = chars [] }) (record { shape = 2 ∷ []; items = numbers (pos 1 ∷ pos 2 ∷ []) })
        ≡ Ok (record { shape = 0 ∷ 2 ∷ []; items = numbers [] }) }
    ensures refused { outer_product_of Dyad.Divide (record { shape = 1 ∷ []; items = numbers (pos 1 ∷ []) }) (record { shape = 2 ∷ []; items = numbers (pos 1 ∷ pos 2 ∷ []) }) ≡ Err Report.Domain }
    ensures unlike { outer_product_of Dyad.NotEqual (scalar (pos 1)) (record { shape = 1 ∷ []; items = chars (65 ∷ []) }) ≡ Ok (record { shape = 1 ∷ []; items = numbers (pos 1 ∷ []) }) }
    ensures axes { outer_product_of Dyad.Divide (record { shape = 1 ∷ 1 ∷ 1 ∷ 1 ∷ 1 ∷ []; items = numbers (pos 1 ∷ []) }) (record { shape = 1 ∷ 1 ∷ 1 ∷ 1 ∷ []; items = numbers (pos 2 ∷ []) }) ≡ Err Report.Rank }
{}

/// Inner products: `1 2+.×3 4` is 11; a matrix by a column, and by a matrix; one element extends, but an axis of length 1 does not; no
/// pairs give the identity of the first function. The call does nothing.
pub fn inner_products_reduce_pairs()
    ensures sum { inner_product_of Dyad.Plus Dyad.Times (record { shape = 2 ∷ []; items = numbers (pos 1 ∷ pos 2 ∷ []) }) (record { shape = 2 ∷ []; items = numbers (pos 3 ∷ pos 4 ∷ []) }) ≡ Ok (scalar (pos 11)) }
    ensures rows { inner_product_of Dyad.Minus Dyad.Times (record { shape = 2 ∷ 2 ∷ []; items = numbers (pos 1 ∷ pos 2 ∷ pos 3 ∷ pos 4 ∷ []) }) (record { shape = 2 ∷ 1 ∷ []; items = numbers (pos 5 ∷ pos 1 ∷ []) })
        ≡ Ok (record { shape = 2 ∷ 1 ∷ []; items = numbers (pos 3 ∷ pos 11 ∷ []) }) }
    ensures columns { inner_product_of Dyad.Plus Dyad.Times (record { shape = 2 ∷ 2 ∷ []; items = numbers (pos 1 ∷ pos 2 ∷ pos 3 ∷ pos 4 ∷ []) }) (record { shape = 2 ∷ 2 ∷ []; items = numbers (pos 5 ∷ pos 6 ∷ pos 7 ∷ pos 8 ∷ []) })
        ≡ Ok (record { shape = 2 ∷ 2 ∷ []; items = numbers (pos 19 ∷ pos 22 ∷ pos 43 ∷ pos 50 ∷ []) }) }
    ensures one { inner_product_of Dyad.Plus Dyad.Times (scalar (pos 2)) (record { shape = 2 ∷ []; items = numbers (pos 3 ∷ pos 4 ∷ []) }) ≡ Ok (scalar (pos 14)) }
    ensures lengths { inner_product_of Dyad.Plus Dyad.Times (record { shape = 2 ∷ []; items = numbers (pos 1 ∷ pos 2 ∷ []) }) (record { shape = 1 ∷ 2 ∷ []; items = numbers (pos 3 ∷ pos 4 ∷ []) }) ≡ Err Report.Length }
    ensures no_chars { inner_product_of Dyad.Plus Dyad.Times (record { shape = 0 ∷ []; items = chars [] }) (record { shape = 0 ∷ []; items = chars [] }) ≡ Ok (scalar (pos 0)) }
    ensures first { inner_product_of Dyad.Times Dyad.Plus (record { shape = 0 ∷ []; items = numbers [] }) (record { shape = 0 ∷ []; items = numbers [] }) ≡ Ok (scalar (pos 1)) }
    ensures no_identity { inner_product_of Dyad.Nor Dyad.Plus (record { shape = 0 ∷ []; items = numbers [] }) (record { shape = 0 ∷ []; items = numbers [] }) ≡ Err Report.Domain }
{}

/// At each of its places a scan of a vector has what a reduction gives of the vector cut off behind that place. The call
/// does nothing.
#[tactic(auto, using(crate::proofs::ScanLaws::scan_item))]
pub fn each_item_of_a_scan_is_a_reduction()
    ensures { (f : Dyad) (list : List ℤ) (k : ℕ) (r : PlainArray) → k < length list → scan_of f (number_array (length list ∷ []) list) Way.Last None ≡ Ok r
        → reduce_of f (number_array ((k + 1) ∷ []) (take (k + 1) list)) Way.Last None ≡ Ok (scalar (slice_index_or (numbers_in r.items) k (pos 0))) }
{}

/// Each item of a scan along an axis is the reduction of the vector of the numbers of its line, from the first up to its own.
/// The call does nothing.
#[tactic(auto, using(crate::proofs::ScanLaws::scan_item_on_line))]
pub fn each_item_of_a_scan_reduces_its_line()
    ensures { (f : Dyad) (shape : List ℕ) (list : List ℤ) (way : Way) (axis : Option ℤ) (split : Split) (outer along inner : ℕ) (r : PlainArray) → 0 < length shape
        → split ≡ split_at shape (axis_of (length shape) way axis) → outer < split.outer → along < split.along → inner < split.inner → scan_of f (number_array shape list) way axis ≡ Ok r
        → reduce_of f (number_array ((along + 1) ∷ []) (front_numbers list split outer inner along)) Way.Last None ≡ Ok (scalar (slice_index_or (numbers_in r.items) (place_along split outer along inner) (pos 0))) }
{}

/// An inner product of two vectors is the reduction by the one function of what the other gives of their items, pair by pair:
/// `A f.g B` is `f/A g B`. The call does nothing.
#[tactic(auto, using(crate::proofs::InnerLaws::products_of_vectors))]
pub fn an_inner_product_of_vectors_is_a_reduction()
    ensures { (f g : Dyad) (xs ys zs : List ℤ) (n : ℕ) → length xs ≡ n → length ys ≡ n → ((k : ℕ) → k < n → dyadic_item g (slice_index_or xs k (pos 0)) (slice_index_or ys k (pos 0)) ≡ Some (slice_index_or zs k (pos 0)))
        → inner_product_of f g (number_array (n ∷ []) xs) (number_array (n ∷ []) ys) ≡ reduce_of f (number_array (n ∷ []) zs) Way.Last None }
{}
