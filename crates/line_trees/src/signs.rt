//! Which sign is which function.

ghost use Rattle.std.specs.Prelude.{◌≡◌};
ghost use Rattle.line_trees.specs.Signs.{monad_of, dyad_of, mix1_of, mix2_of, fold_of, folded, between};

use crate::symbol::Fold;
use apl_arrays::{Glyph, Way};
use apl_verbs::{Dyad, Mix1, Mix2, Monad, Verb};

/// The monadic scalar function of a sign.
#[tactic(auto, unfolding(crate::specs::Signs::monad_of))]
pub fn monad_of(sign: Glyph) -> Option<Monad>
    ensures { result ≡ monad_of sign }
{
    match sign {
        Glyph::PLUS => Some(Monad::Identity),
        Glyph::CEILING => Some(Monad::Ceiling),
        Glyph::FLOOR => Some(Monad::Floor),
        Glyph::MINUS => Some(Monad::Negative),
        Glyph::TIMES => Some(Monad::Sign),
        Glyph::BAR => Some(Monad::Magnitude),
        Glyph::DIVIDE => Some(Monad::Reciprocal),
        Glyph::EXCLAMATION => Some(Monad::Factorial),
        Glyph::TILDE => Some(Monad::Not),
        _ => None,
    }
}

/// The dyadic scalar function of a sign.
#[tactic(auto, unfolding(crate::specs::Signs::dyad_of))]
pub fn dyad_of(sign: Glyph) -> Option<Dyad>
    ensures { result ≡ dyad_of sign }
{
    match sign {
        Glyph::PLUS => Some(Dyad::Plus),
        Glyph::MINUS => Some(Dyad::Minus),
        Glyph::TIMES => Some(Dyad::Times),
        Glyph::DIVIDE => Some(Dyad::Divide),
        Glyph::CEILING => Some(Dyad::Maximum),
        Glyph::FLOOR => Some(Dyad::Minimum),
        Glyph::BAR => Some(Dyad::Residue),
        Glyph::STAR => Some(Dyad::Power),
        Glyph::EXCLAMATION => Some(Dyad::Binomial),
        Glyph::AND => Some(Dyad::And),
        Glyph::OR => Some(Dyad::Or),
        Glyph::NAND => Some(Dyad::Nand),
        Glyph::NOR => Some(Dyad::Nor),
        Glyph::LESS => Some(Dyad::Less),
        Glyph::NOT_GREATER => Some(Dyad::NotGreater),
        Glyph::EQUAL => Some(Dyad::Equal),
        Glyph::NOT_LESS => Some(Dyad::NotLess),
        Glyph::GREATER => Some(Dyad::Greater),
        Glyph::NOT_EQUAL => Some(Dyad::NotEqual),
        _ => None,
    }
}

/// The monadic mixed function of a sign.
#[tactic(auto, unfolding(crate::specs::Signs::mix1_of))]
pub fn mix1_of(sign: Glyph) -> Option<Mix1>
    ensures { result ≡ mix1_of sign }
{
    match sign {
        Glyph::RHO => Some(Mix1::Shape),
        Glyph::IOTA => Some(Mix1::Iota),
        Glyph::COMMA => Some(Mix1::Ravel),
        Glyph::REVERSE => Some(Mix1::Reverse(Way::Last)),
        Glyph::REVERSE_FIRST => Some(Mix1::Reverse(Way::First)),
        Glyph::TRANSPOSE => Some(Mix1::Transpose),
        Glyph::GRADE_UP => Some(Mix1::GradeUp),
        Glyph::GRADE_DOWN => Some(Mix1::GradeDown),
        Glyph::FORMAT => Some(Mix1::Format),
        _ => None,
    }
}

/// The dyadic mixed function of a sign that is no slash.
#[tactic(auto, unfolding(crate::specs::Signs::mix2_of))]
pub fn mix2_of(sign: Glyph) -> Option<Mix2>
    ensures { result ≡ mix2_of sign }
{
    match sign {
        Glyph::RHO => Some(Mix2::Reshape),
        Glyph::COMMA => Some(Mix2::Catenate),
        Glyph::UP_ARROW => Some(Mix2::Take),
        Glyph::DOWN_ARROW => Some(Mix2::Drop),
        Glyph::REVERSE => Some(Mix2::Rotate(Way::Last)),
        Glyph::REVERSE_FIRST => Some(Mix2::Rotate(Way::First)),
        Glyph::TRANSPOSE => Some(Mix2::TransposeBy),
        Glyph::IOTA => Some(Mix2::IndexOf),
        Glyph::EPSILON => Some(Mix2::Member),
        Glyph::ENCODE => Some(Mix2::Encode),
        Glyph::DECODE => Some(Mix2::Decode),
        _ => None,
    }
}

/// The operator of a slash.
#[tactic(auto, unfolding(crate::specs::Signs::fold_of))]
pub fn fold_of(sign: Glyph) -> Option<Fold>
    ensures { result ≡ fold_of sign }
{
    match sign {
        Glyph::SLASH => Some(Fold::Reduce(Way::Last)),
        Glyph::SLASH_BAR => Some(Fold::Reduce(Way::First)),
        Glyph::BACKSLASH => Some(Fold::Scan(Way::Last)),
        Glyph::BACKSLASH_BAR => Some(Fold::Scan(Way::First)),
        _ => None,
    }
}

/// A slash behind a scalar function is an operator.
pub fn folded(operand: Dyad, fold: Fold) -> Verb
    ensures { result ≡ folded operand fold }
{
    match fold {
        Fold::Reduce(way) => Verb::Reduce(operand, way),
        Fold::Scan(way) => Verb::Scan(operand, way),
    }
}

/// A slash behind an operand is a function.
pub fn between(fold: Fold) -> Verb
    ensures { result ≡ between fold }
{
    match fold {
        Fold::Reduce(way) => Verb::Mixed2(Mix2::Compress(way)),
        Fold::Scan(way) => Verb::Mixed2(Mix2::Expand(way)),
    }
}
