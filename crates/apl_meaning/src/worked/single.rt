//! Single statements: primitive functions, and what is printed of them.
ghost use Rattle.std.specs.Prelude.{◌≡◌, [], ◌∷◌, codes};
ghost use Rattle.apl_meaning.specs.Worked.{printed_by, texts};

/// Scalar functions of two arguments. The call does nothing.
pub fn scalar_functions()
    ensures negative_base { printed_by (codes "¯3|7" ∷ []) ≡ texts (codes "¯2" ∷ []) }
    ensures negative_number { printed_by (codes "3|¯7" ∷ []) ≡ texts (codes "2" ∷ []) }
    ensures nothing_by_nothing { printed_by (codes "0÷0" ∷ []) ≡ texts (codes "1" ∷ []) }
    ensures inexact { printed_by (codes "7÷2" ∷ []) ≡ texts (codes "DOMAIN ERROR" ∷ codes "      7÷2" ∷ []) }
    ensures lengths { printed_by (codes "1 2+1 2 3" ∷ []) ≡ texts (codes "LENGTH ERROR" ∷ codes "      1 2+1 2 3" ∷ []) }
    ensures ranks { printed_by (codes "(2 2⍴1)+1 2" ∷ []) ≡ texts (codes "RANK ERROR" ∷ codes "      (2 2⍴1)+1 2" ∷ []) }
    ensures greatest { printed_by (codes "9223372036854775807+1" ∷ []) ≡ texts (codes "DOMAIN ERROR" ∷ codes "      9223372036854775807+1" ∷ []) }
{}

/// Factorials up to the greatest that fits. The call does nothing.
pub fn factorials()
    ensures twenty { printed_by (codes "!20" ∷ []) ≡ texts (codes "2432902008176640000" ∷ []) }
    ensures more { printed_by (codes "!21" ∷ []) ≡ texts (codes "DOMAIN ERROR" ∷ codes "      !21" ∷ []) }
{}

/// Functions that move items. The call does nothing.
pub fn items_that_move()
    ensures matrix { printed_by (codes "2 2⍴1 ¯10 2 3" ∷ []) ≡ texts (codes "1 ¯10" ∷ codes "2   3" ∷ []) }
    ensures ravel { printed_by (codes ",2 2⍴⍳4" ∷ []) ≡ texts (codes "1 2 3 4" ∷ []) }
    ensures join { printed_by (codes "1 2,3" ∷ []) ≡ texts (codes "1 2 3" ∷ []) }
    ensures take { printed_by (codes "2↑5 6 7" ∷ []) ≡ texts (codes "5 6" ∷ []) }
    ensures fill { printed_by (codes "¯5↑1 2" ∷ []) ≡ texts (codes "0 0 0 1 2" ∷ []) }
    ensures drop { printed_by (codes "1↓5 6 7" ∷ []) ≡ texts (codes "6 7" ∷ []) }
    ensures reverse { printed_by (codes "⌽1 2 3" ∷ []) ≡ texts (codes "3 2 1" ∷ []) }
    ensures rotate { printed_by (codes "1⌽1 2 3" ∷ []) ≡ texts (codes "2 3 1" ∷ []) }
    ensures transpose { printed_by (codes "⍴⍉2 3⍴0" ∷ []) ≡ texts (codes "3 2" ∷ []) }
    ensures diagonal { printed_by (codes "1 1⍉2 2⍴⍳4" ∷ []) ≡ texts (codes "1 4" ∷ []) }
    ensures compress { printed_by (codes "1 0 1/5 6 7" ∷ []) ≡ texts (codes "5 7" ∷ []) }
    ensures expand { printed_by (codes "1 0 1\\5 7" ∷ []) ≡ texts (codes "5 0 7" ∷ []) }
    ensures subscript { printed_by (codes "5 6 7[2]" ∷ []) ≡ texts (codes "6" ∷ []) }
    ensures outside { printed_by (codes "5 6 7[4]" ∷ []) ≡ texts (codes "INDEX ERROR" ∷ codes "      5 6 7[4]" ∷ []) }
{}

/// Searches, digits and characters of numbers. The call does nothing.
pub fn searches_and_digits()
    ensures places { printed_by (codes "5 6⍳6 9" ∷ []) ≡ texts (codes "2 3" ∷ []) }
    ensures members { printed_by (codes "5 9∊9" ∷ []) ≡ texts (codes "0 1" ∷ []) }
    ensures up { printed_by (codes "⍋3 1 2" ∷ []) ≡ texts (codes "2 3 1" ∷ []) }
    ensures down { printed_by (codes "⍒3 1 2" ∷ []) ≡ texts (codes "1 3 2" ∷ []) }
    ensures digits { printed_by (codes "10 10⊤37" ∷ []) ≡ texts (codes "3 7" ∷ []) }
    ensures of_digits { printed_by (codes "10⊥3 7" ∷ []) ≡ texts (codes "37" ∷ []) }
    ensures characters { printed_by (codes "⍴⍕1 23" ∷ []) ≡ texts (codes "4" ∷ []) }
{}

/// Operators, along an axis too. The call does nothing.
pub fn operators()
    ensures reduction { printed_by (codes "-/1 2 3" ∷ []) ≡ texts (codes "2" ∷ []) }
    ensures scan { printed_by (codes "-\\1 2 3" ∷ []) ≡ texts (codes "1 ¯1 2" ∷ []) }
    ensures identity { printed_by (codes "+/⍳0" ∷ []) ≡ texts (codes "0" ∷ []) }
    ensures inner { printed_by (codes "1 2+.×3 4" ∷ []) ≡ texts (codes "11" ∷ []) }
    ensures outer { printed_by (codes "1 2∘.+1 2" ∷ []) ≡ texts (codes "2 3" ∷ codes "3 4" ∷ []) }
    ensures axis { printed_by (codes "+/[1]2 2⍴⍳4" ∷ []) ≡ texts (codes "4 6" ∷ []) }
    ensures no_axis { printed_by (codes "+/[3]2 2⍴⍳4" ∷ []) ≡ texts (codes "INDEX ERROR" ∷ codes "      +/[3]2 2⍴⍳4" ∷ []) }
{}

/// What is printed of a statement: the value of an expression, and nothing where it begins with a target. The call does
/// nothing.
pub fn what_is_printed()
    ensures nothing { printed_by (codes "" ∷ codes "⍝ 1" ∷ []) ≡ [] }
    ensures assignment { printed_by (codes "X←3" ∷ codes "X" ∷ []) ≡ texts (codes "3" ∷ []) }
    ensures in_parentheses { printed_by (codes "(X←3)" ∷ []) ≡ texts (codes "3" ∷ []) }
    ensures inside { printed_by (codes "1+X←3" ∷ codes "X" ∷ []) ≡ texts (codes "4" ∷ codes "3" ∷ []) }
    ensures several { printed_by (codes "X←Y←3" ∷ codes "X,Y" ∷ []) ≡ texts (codes "3 3" ∷ []) }
    ensures items { printed_by (codes "X←1 2 3" ∷ codes "X[2]←7" ∷ codes "X" ∷ []) ≡ texts (codes "1 7 3" ∷ []) }
    ensures items_inside { printed_by (codes "X←1 2 3" ∷ codes "5+X[2]←7" ∷ []) ≡ texts (codes "12" ∷ []) }
    ensures empty { printed_by (codes "⍳0" ∷ []) ≡ [] ∷ [] }
{}
