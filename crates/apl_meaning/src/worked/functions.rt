//! Calls of functions: frames, results, branches and labels, and reports inside them.
ghost use Rattle.std.specs.Prelude.{◌≡◌, [], ◌∷◌, codes, replicate};
ghost use Rattle.apl_workspace.specs.Workspace.{empty_workspace};
ghost use Rattle.apl_meaning.specs.Worked.{defining, printed_by, printed_on, texts, account_of};

/// Functions of no, one and two arguments, with a result and without. The call does nothing.
pub fn calls()
    ensures niladic { printed_on (defining (codes "R←F") (codes "R←5" ∷ []) empty_workspace) (codes "F" ∷ codes "1+F" ∷ []) [] ≡ texts (codes "5" ∷ codes "6" ∷ []) }
    ensures monadic { printed_on (defining (codes "R←F B") (codes "R←B×2" ∷ []) empty_workspace) (codes "F 4" ∷ codes "F F 4" ∷ []) [] ≡ texts (codes "8" ∷ codes "16" ∷ []) }
    ensures dyadic { printed_on (defining (codes "R←A F B") (codes "R←A-B" ∷ []) empty_workspace) (codes "9 F 4" ∷ []) [] ≡ texts (codes "5" ∷ []) }
    ensures no_result { printed_on (defining (codes "F B") (codes "B" ∷ []) empty_workspace) (codes "F 4" ∷ []) [] ≡ texts (codes "4" ∷ []) }
    ensures no_value { printed_on (defining (codes "R←F B") (codes "" ∷ []) empty_workspace) (codes "F 4" ∷ []) [] ≡ [] }
    ensures no_lines { printed_on (defining (codes "F") [] empty_workspace) (codes "F" ∷ []) [] ≡ [] }
{}

/// Arguments, result and local names are there while the function runs, for those that it calls too. The call does
/// nothing.
pub fn locals()
    ensures gone { printed_on (defining (codes "F B;L") (codes "L←B" ∷ []) empty_workspace) (codes "F 4" ∷ codes "L" ∷ []) [] ≡ texts (codes "VALUE ERROR" ∷ codes "      L" ∷ []) }
    ensures hidden { printed_on (defining (codes "F B;L") (codes "L←B" ∷ []) empty_workspace) (codes "L←1" ∷ codes "F 4" ∷ codes "L" ∷ []) [] ≡ texts (codes "1" ∷ []) }
    ensures seen { printed_on (defining (codes "G") (codes "L" ∷ []) (defining (codes "F B;L") (codes "L←B" ∷ codes "G" ∷ []) empty_workspace)) (codes "F 4" ∷ []) [] ≡ texts (codes "4" ∷ []) }
    ensures global { printed_on (defining (codes "F B") (codes "L←B" ∷ []) empty_workspace) (codes "F 4" ∷ codes "L" ∷ []) [] ≡ texts (codes "4" ∷ []) }
    ensures unset { printed_on (defining (codes "F;L") (codes "L" ∷ []) empty_workspace) (codes "L←1" ∷ codes "F" ∷ []) [] ≡ texts (codes "VALUE ERROR" ∷ codes "F[1] L" ∷ []) }
{}

/// Branches lead to the line that is named, on where none is, and out of the function. The call does nothing.
pub fn branches()
    ensures label { printed_on (defining (codes "F") (codes "→A" ∷ codes "1" ∷ codes "A:2" ∷ []) empty_workspace) (codes "F" ∷ []) [] ≡ texts (codes "2" ∷ []) }
    ensures loops { printed_on (defining (codes "F N") (codes "A:→(N=0)/0" ∷ codes "N" ∷ codes "N←N-1" ∷ codes "→A" ∷ []) empty_workspace) (codes "F 2" ∷ []) [] ≡ texts (codes "2" ∷ codes "1" ∷ []) }
    ensures onward { printed_on (defining (codes "F") (codes "→⍳0" ∷ codes "1" ∷ []) empty_workspace) (codes "F" ∷ []) [] ≡ texts (codes "1" ∷ []) }
    ensures first { printed_on (defining (codes "F") (codes "→3 2" ∷ codes "1" ∷ codes "2" ∷ []) empty_workspace) (codes "F" ∷ []) [] ≡ texts (codes "2" ∷ []) }
    ensures out { printed_on (defining (codes "F") (codes "→9" ∷ codes "1" ∷ []) empty_workspace) (codes "F" ∷ []) [] ≡ [] }
    ensures negative { printed_on (defining (codes "F") (codes "→¯1" ∷ codes "1" ∷ []) empty_workspace) (codes "F" ∷ []) [] ≡ [] }
{}

/// A branch leads to numbers of at most one axis. The call does nothing.
pub fn branches_refused()
    ensures characters { printed_on (defining (codes "F") (codes "→''" ∷ []) empty_workspace) (codes "F" ∷ []) [] ≡ texts (codes "DOMAIN ERROR" ∷ codes "F[1] →''" ∷ []) }
    ensures matrix { printed_on (defining (codes "F") (codes "→1 1⍴1" ∷ []) empty_workspace) (codes "F" ∷ []) [] ≡ texts (codes "RANK ERROR" ∷ codes "F[1] →1 1⍴1" ∷ []) }
    ensures both { printed_on (defining (codes "F") (codes "→1 1⍴'A'" ∷ []) empty_workspace) (codes "F" ∷ []) [] ≡ texts (codes "DOMAIN ERROR" ∷ codes "F[1] →1 1⍴'A'" ∷ []) }
    ensures immediate { printed_by (codes "→1" ∷ []) ≡ texts (codes "SYNTAX ERROR" ∷ codes "      →1" ∷ []) }
    ensures labelled { printed_by (codes "A:1" ∷ []) ≡ texts (codes "SYNTAX ERROR" ∷ codes "      A:1" ∷ []) }
{}

/// A label's value is the number of its line; it hides an argument and a result, and takes no value. The call does
/// nothing.
pub fn labels()
    ensures value { printed_on (defining (codes "F") (codes "" ∷ codes "A:A" ∷ []) empty_workspace) (codes "F" ∷ []) [] ≡ texts (codes "2" ∷ []) }
    ensures first { printed_on (defining (codes "F") (codes "A:A" ∷ codes "A:" ∷ []) empty_workspace) (codes "F" ∷ []) [] ≡ texts (codes "1" ∷ []) }
    ensures argument { printed_on (defining (codes "F B") (codes "" ∷ codes "B:B" ∷ []) empty_workspace) (codes "F 9" ∷ []) [] ≡ texts (codes "2" ∷ []) }
    ensures its_result { printed_on (defining (codes "R←F") (codes "" ∷ codes "R:" ∷ []) empty_workspace) (codes "F" ∷ []) [] ≡ texts (codes "2" ∷ []) }
    ensures assigned { printed_on (defining (codes "F") (codes "A:A←1" ∷ []) empty_workspace) (codes "F" ∷ []) [] ≡ texts (codes "SYNTAX ERROR" ∷ codes "F[1] A:A←1" ∷ []) }
    ensures items_assigned { printed_on (defining (codes "F") (codes "A:A[9]←1" ∷ []) empty_workspace) (codes "F" ∷ []) [] ≡ texts (codes "SYNTAX ERROR" ∷ codes "F[1] A:A[9]←1" ∷ []) }
{}

/// A report inside a function shows the function's line, and leaves all functions. The call does nothing.
pub fn reports_inside()
    ensures innermost { printed_on (defining (codes "G") (codes "1" ∷ codes "7÷2" ∷ []) (defining (codes "F") (codes "G" ∷ codes "8" ∷ []) empty_workspace)) (codes "F" ∷ codes "9" ∷ []) [] ≡ texts (codes "1" ∷ codes "DOMAIN ERROR" ∷ codes "G[2] 7÷2" ∷ codes "9" ∷ []) }
    ensures left { (account_of (defining (codes "F;L") (codes "7÷2" ∷ []) empty_workspace) (codes "F" ∷ []) []).workspace ≡ defining (codes "F;L") (codes "7÷2" ∷ []) empty_workspace }
    ensures caller { printed_on (defining (codes "G") (codes "1" ∷ []) (defining (codes "F") (codes "G" ∷ codes "7÷2" ∷ []) empty_workspace)) (codes "F" ∷ []) [] ≡ texts (codes "1" ∷ codes "DOMAIN ERROR" ∷ codes "F[2] 7÷2" ∷ []) }
    ensures unread { printed_on (defining (codes "F") (codes "A&B" ∷ []) empty_workspace) (codes "F" ∷ []) [] ≡ texts (codes "CHARACTER ERROR" ∷ codes "F[1] A&B" ∷ []) }
    ensures after_a_call { printed_on (defining (codes "R←G") (codes "R←1" ∷ []) empty_workspace) (codes "7÷G+1" ∷ []) [] ≡ texts (codes "DOMAIN ERROR" ∷ codes "      7÷G+1" ∷ []) }
{}

/// The call that would pass the depth is refused in the statement that makes it. The call does nothing.
pub fn depth()
    ensures hundred { printed_on (record (defining (codes "F") (codes "5" ∷ []) empty_workspace) { frames = replicate 99 [] }) (codes "F" ∷ []) [] ≡ texts (codes "5" ∷ []) }
    ensures more { printed_on (record (defining (codes "F") (codes "5" ∷ []) empty_workspace) { frames = replicate 100 [] }) (codes "F" ∷ []) [] ≡ texts (codes "WS FULL" ∷ codes "      F" ∷ []) }
{}
