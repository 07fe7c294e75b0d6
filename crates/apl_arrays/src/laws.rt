ghost use Rattle.std.specs.Prelude.{◌≡◌, ◌∷◌, []};
ghost use Rattle.apl_arrays.specs.Glyph as glyph;
ghost use Rattle.apl_arrays.specs.Limits.{most_axes, most_elements, most_line_glyphs, most_name_glyphs, most_file_name_bytes, most_offers, most_users};
ghost use Rattle.apl_arrays.specs.Parties.{first_user, last_user};
ghost use Rattle.apl_arrays.specs.System.{system_names};

use crate::array::{ELEMENT_LIMIT, RANK_LIMIT};
use crate::file::FILE_NAME_LIMIT;
use crate::glyph::{Glyph, SCALARS};
use crate::line_list::LINE_GLYPH_LIMIT;
use crate::name::NAME_LIMIT;
use crate::party::{FIRST_USER, LAST_USER, OFFER_LIMIT, USER_LIMIT};
use crate::system::SystemName;

/// The glyphs of ASCII that have a name, in the order of their codes.
pub fn named_glyphs_of_ascii() -> [Glyph; 22]
    ensures { result ≡ glyph.blank ∷ glyph.exclamation ∷ glyph.quote ∷ glyph.left_parenthesis
        ∷ glyph.right_parenthesis ∷ glyph.star ∷ glyph.plus ∷ glyph.comma ∷ glyph.minus ∷ glyph.period ∷ glyph.slash
        ∷ glyph.colon ∷ glyph.semicolon ∷ glyph.less ∷ glyph.equal ∷ glyph.greater ∷ glyph.left_bracket
        ∷ glyph.backslash ∷ glyph.right_bracket ∷ glyph.underscore ∷ glyph.bar ∷ glyph.tilde ∷ [] }
{
    [
        Glyph::BLANK,
        Glyph::EXCLAMATION,
        Glyph::QUOTE,
        Glyph::LEFT_PARENTHESIS,
        Glyph::RIGHT_PARENTHESIS,
        Glyph::STAR,
        Glyph::PLUS,
        Glyph::COMMA,
        Glyph::MINUS,
        Glyph::PERIOD,
        Glyph::SLASH,
        Glyph::COLON,
        Glyph::SEMICOLON,
        Glyph::LESS,
        Glyph::EQUAL,
        Glyph::GREATER,
        Glyph::LEFT_BRACKET,
        Glyph::BACKSLASH,
        Glyph::RIGHT_BRACKET,
        Glyph::UNDERSCORE,
        Glyph::BAR,
        Glyph::TILDE,
    ]
}

/// The glyphs of APL, in the order of their codes, which are 128 to 162.
pub fn named_glyphs_of_apl() -> [Glyph; 35]
    ensures { result ≡ glyph.rho ∷ glyph.iota ∷ glyph.epsilon ∷ glyph.up_arrow ∷ glyph.down_arrow
        ∷ glyph.grade_up ∷ glyph.grade_down ∷ glyph.reverse ∷ glyph.reverse_first ∷ glyph.transpose ∷ glyph.ceiling
        ∷ glyph.floor ∷ glyph.times ∷ glyph.divide ∷ glyph.not_greater ∷ glyph.not_less ∷ glyph.not_equal ∷ glyph.and
        ∷ glyph.or ∷ glyph.nand ∷ glyph.nor ∷ glyph.left_arrow ∷ glyph.right_arrow ∷ glyph.quad ∷ glyph.overbar
        ∷ glyph.del ∷ glyph.delta ∷ glyph.jot ∷ glyph.lamp ∷ glyph.decode ∷ glyph.encode ∷ glyph.slash_bar
        ∷ glyph.backslash_bar ∷ glyph.format ∷ glyph.execute ∷ [] }
{
    [
        Glyph::RHO,
        Glyph::IOTA,
        Glyph::EPSILON,
        Glyph::UP_ARROW,
        Glyph::DOWN_ARROW,
        Glyph::GRADE_UP,
        Glyph::GRADE_DOWN,
        Glyph::REVERSE,
        Glyph::REVERSE_FIRST,
        Glyph::TRANSPOSE,
        Glyph::CEILING,
        Glyph::FLOOR,
        Glyph::TIMES,
        Glyph::DIVIDE,
        Glyph::NOT_GREATER,
        Glyph::NOT_LESS,
        Glyph::NOT_EQUAL,
        Glyph::AND,
        Glyph::OR,
        Glyph::NAND,
        Glyph::NOR,
        Glyph::LEFT_ARROW,
        Glyph::RIGHT_ARROW,
        Glyph::QUAD,
        Glyph::OVERBAR,
        Glyph::DEL,
        Glyph::DELTA,
        Glyph::JOT,
        Glyph::LAMP,
        Glyph::DECODE,
        Glyph::ENCODE,
        Glyph::SLASH_BAR,
        Glyph::BACKSLASH_BAR,
        Glyph::FORMAT,
        Glyph::EXECUTE,
    ]
}

/// The tables and the limits of the code are those of the definitions. The call does nothing.
pub fn numbers_are_as_defined()
    ensures scalars { SCALARS ≡ glyph.scalars }
    ensures axes { RANK_LIMIT ≡ most_axes }
    ensures elements { ELEMENT_LIMIT ≡ most_elements }
    ensures name { NAME_LIMIT ≡ most_name_glyphs }
    ensures file_name { FILE_NAME_LIMIT ≡ most_file_name_bytes }
    ensures line { LINE_GLYPH_LIMIT ≡ most_line_glyphs }
    ensures least_user { FIRST_USER ≡ first_user }
    ensures greatest_user { LAST_USER ≡ last_user }
    ensures users { USER_LIMIT ≡ most_users }
    ensures offers { OFFER_LIMIT ≡ most_offers }
    ensures system_names { SystemName.ALL ≡ system_names }
{}
