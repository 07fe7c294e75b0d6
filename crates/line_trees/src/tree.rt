use crate::NodeList;
use crate::symbol::Fold;
use apl_arrays::{Items, List, Name, SystemName};
use apl_verbs::{Dyad, Verb};

/// A function: a primitive one, one that a name stands for, or a system function.
#[derive(Clone, Copy, Debug, PartialEq, Eq)]
pub enum Fun {
    Verb(Verb),
    Defined(Name),
    System(SystemName),
}

/// The numbers of the nodes of subscripts, in the order of the text, with `None` for one that is omitted.
pub type Places = List<Option<u64>>;

/// A part of an expression. It names other nodes by their numbers.
#[derive(Debug, Drop)]
pub enum Node {
    /// A constant: a lone item makes a scalar, all else a vector.
    Constant(Items),
    Value(Name),
    Niladic(Name),
    /// An expression in parentheses.
    Paren(u64),
    Indexed {
        value: u64,
        subs: Places,
    },
    Apply {
        function: Fun,
        left: Option<u64>,
        right: u64,
        axis: Option<u64>,
    },
    Assign {
        target: Name,
        subs: Option<Places>,
        right: u64,
    },
}

/// What a statement is, with the number of the node of its whole expression.
#[derive(Clone, Copy, Debug, PartialEq, Eq)]
pub enum Form {
    Nothing,
    Branch(u64),
    Value(u64),
    Execute(u64),
}

/// The tree of a line: its label, its form, and its nodes in the order in which they are evaluated, each after those
/// that it names.
#[derive(Debug, Drop)]
pub struct Tree {
    pub label: Option<Name>,
    pub form: Form,
    pub nodes: NodeList,
}

/// What a token does in its line.
#[derive(Clone, Copy, Debug, Default, PartialEq, Eq)]
pub enum Mark {
    #[default]
    Constant,
    /// A name that is a value, a target or a label.
    Name,
    Niladic,
    LeftParenthesis,
    RightParenthesis,
    OpenSubscripts,
    Semicolon,
    CloseSubscripts,
    OpenAxis,
    CloseAxis,
    /// A sign of scalar functions with which an expression begins.
    Lead,
    /// A slash behind such a sign.
    Slash,
    Monadic,
    Dyadic,
    /// A dyadic scalar function, perhaps before a dot.
    Scalar,
    Dot,
    Jot,
    /// A scalar function behind a dot.
    Factor,
    Gets,
    Colon,
    Branch,
    Execute,
}

/// What waits for more to the left. Nodes are told by their numbers.
#[derive(Clone, Copy, Debug, PartialEq, Eq)]
pub enum Pending {
    /// An expression, perhaps with an axis before it.
    Expr(Option<u64>, u64),
    /// `)`
    Parenthesis,
    /// `]` of an axis
    Axis,
    /// `]` of subscripts
    Subscripts,
    /// A subscript, or one that is omitted.
    Subscript(Option<u64>),
    /// A list of subscripts before its operand.
    Indexing,
    /// A dyadic function before its left operand, with the axis and the right argument.
    Dyadic(Fun, Option<u64>, u64),
    /// A slash before the scalar function that it takes, with the axis and the right argument.
    Slash(Fold, Option<u64>, u64),
    /// A scalar function behind a dot, with the right argument.
    Factor(Dyad, u64),
    /// `←` and its right side
    Gets(u64),
    /// The same behind a list of subscripts.
    GetsAt(u64),
    /// `:`
    Label,
    /// `→` and its expression
    Branch(u64),
    /// `⍎` and its expression
    Execute(u64),
}
