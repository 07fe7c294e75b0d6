use anyhow::{Result, bail};
use apl_verbs::{Dyad, Monad};

/// The scalar function of one argument with this sign.
pub fn monad_of(sign: &str) -> Result<Monad> {
    match sign {
        "+" => Ok(Monad::Identity),
        "⌈" => Ok(Monad::Ceiling),
        "⌊" => Ok(Monad::Floor),
        "-" => Ok(Monad::Negative),
        "×" => Ok(Monad::Sign),
        "|" => Ok(Monad::Magnitude),
        "÷" => Ok(Monad::Reciprocal),
        "!" => Ok(Monad::Factorial),
        "~" => Ok(Monad::Not),
        _ => bail!("no scalar function: {sign}"),
    }
}

/// The scalar function of two arguments with this sign.
pub fn dyad_of(sign: &str) -> Result<Dyad> {
    match sign {
        "+" => Ok(Dyad::Plus),
        "-" => Ok(Dyad::Minus),
        "×" => Ok(Dyad::Times),
        "÷" => Ok(Dyad::Divide),
        "⌈" => Ok(Dyad::Maximum),
        "⌊" => Ok(Dyad::Minimum),
        "|" => Ok(Dyad::Residue),
        "*" => Ok(Dyad::Power),
        "!" => Ok(Dyad::Binomial),
        _ => logical_of(sign),
    }
}

// The functions that give 0 or 1.
fn logical_of(sign: &str) -> Result<Dyad> {
    match sign {
        "∧" => Ok(Dyad::And),
        "∨" => Ok(Dyad::Or),
        "⍲" => Ok(Dyad::Nand),
        "⍱" => Ok(Dyad::Nor),
        "<" => Ok(Dyad::Less),
        "≤" => Ok(Dyad::NotGreater),
        "=" => Ok(Dyad::Equal),
        "≥" => Ok(Dyad::NotLess),
        ">" => Ok(Dyad::Greater),
        "≠" => Ok(Dyad::NotEqual),
        _ => bail!("no scalar function: {sign}"),
    }
}
