ghost use Rattle.std.specs.Prelude.{◌≡◌};
ghost use Rattle.apl_arrays.specs.Glyph.{is_between};
ghost use Rattle.line_scanner.specs.Role.{is_apl_sign, is_ascii_sign, role_of};

use apl_arrays::Glyph;

/// What a glyph does at the front of a line.
#[derive(Clone, Copy, Debug, PartialEq, Eq)]
pub enum Role {
    Blank,
    Letter,
    Digit,
    Overbar,
    Quote,
    Quad,
    Lamp,
    Sign,
    Unused,
}

fn is_between(low: Glyph, high: Glyph, glyph: Glyph) -> bool
    ensures { result ≡ is_between low high glyph }
{
    low <= glyph && glyph <= high
}

fn is_ascii_sign(glyph: Glyph) -> bool
    ensures { result ≡ is_ascii_sign glyph }
{
    glyph == Glyph::EXCLAMATION
        || is_between(Glyph::LEFT_PARENTHESIS, Glyph::SLASH, glyph)
        || is_between(Glyph::COLON, Glyph::GREATER, glyph)
        || is_between(Glyph::LEFT_BRACKET, Glyph::RIGHT_BRACKET, glyph)
        || glyph == Glyph::BAR
        || glyph == Glyph::TILDE
}

fn is_apl_sign(glyph: Glyph) -> bool
    ensures { result ≡ is_apl_sign glyph }
{
    is_between(Glyph::RHO, Glyph::RIGHT_ARROW, glyph)
        || glyph == Glyph::DEL
        || glyph == Glyph::JOT
        || is_between(Glyph::DECODE, Glyph::EXECUTE, glyph)
}

/// The role of a glyph.
#[tactic(auto, unfolding(crate::specs::Role::role_of))]
pub fn role_of(glyph: Glyph) -> Role
    ensures { result ≡ role_of glyph }
{
    match glyph {
        Glyph::BLANK => Role::Blank,
        Glyph::OVERBAR => Role::Overbar,
        Glyph::QUOTE => Role::Quote,
        Glyph::QUAD => Role::Quad,
        Glyph::LAMP => Role::Lamp,
        _ if glyph.is_letter() => Role::Letter,
        _ if glyph.is_digit() => Role::Digit,
        _ if is_ascii_sign(glyph) || is_apl_sign(glyph) => Role::Sign,
        _ => Role::Unused,
    }
}
