use apl_arrays::Way;

/// A monadic scalar function.
#[derive(Clone, Copy, Debug, PartialEq, Eq, Hash)]
pub enum Monad {
    /// `+`
    Identity,
    /// `⌈`
    Ceiling,
    /// `⌊`
    Floor,
    /// `-`
    Negative,
    /// `×`
    Sign,
    /// `|`
    Magnitude,
    /// `÷`
    Reciprocal,
    /// `!`
    Factorial,
    /// `~`
    Not,
}

/// A dyadic scalar function.
#[derive(Clone, Copy, Debug, PartialEq, Eq, Hash)]
pub enum Dyad {
    /// `+`
    Plus,
    /// `-`
    Minus,
    /// `×`
    Times,
    /// `÷`
    Divide,
    /// `⌈`
    Maximum,
    /// `⌊`
    Minimum,
    /// `|`
    Residue,
    /// `*`
    Power,
    /// `!`
    Binomial,
    /// `∧`
    And,
    /// `∨`
    Or,
    /// `⍲`
    Nand,
    /// `⍱`
    Nor,
    /// `<`
    Less,
    /// `≤`
    NotGreater,
    /// `=`
    Equal,
    /// `≥`
    NotLess,
    /// `>`
    Greater,
    /// `≠`
    NotEqual,
}

/// A monadic mixed function.
#[derive(Clone, Copy, Debug, PartialEq, Eq, Hash)]
pub enum Mix1 {
    Shape,
    Iota,
    Ravel,
    Reverse(Way),
    Transpose,
    GradeUp,
    GradeDown,
    Format,
}

/// A dyadic mixed function.
#[derive(Clone, Copy, Debug, PartialEq, Eq, Hash)]
pub enum Mix2 {
    Reshape,
    Catenate,
    Take,
    Drop,
    Rotate(Way),
    TransposeBy,
    Compress(Way),
    Expand(Way),
    IndexOf,
    Member,
    Encode,
    Decode,
}

/// A primitive function, or an operator with its operands.
#[derive(Clone, Copy, Debug, PartialEq, Eq, Hash)]
pub enum Verb {
    One(Monad),
    Two(Dyad),
    Mixed1(Mix1),
    Mixed2(Mix2),
    Reduce(Dyad, Way),
    Scan(Dyad, Way),
    Inner(Dyad, Dyad),
    Outer(Dyad),
}
