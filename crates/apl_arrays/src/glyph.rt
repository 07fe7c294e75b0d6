ghost use Rattle.std.specs.Prelude.{◌≡◌, ◌<◌, ◌↔◌, IsSome, IfSome};
ghost use Rattle.apl_arrays.specs.Glyph.{IsGlyph, digit, digit_value, is_blank, is_digit, is_letter};
ghost use Rattle.apl_arrays.specs.Name.{goes_on};

use std::marker::Model;

/// The Unicode scalars of the codes from 128 on, in the order of their codes.
pub const SCALARS: [u16; 35] = [
    0x2374, 0x2373, 0x220A, 0x2191, 0x2193, 0x234B, 0x2352, 0x233D, 0x2296, 0x2349, 0x2308, 0x230A,
    0xD7, 0xF7, 0x2264, 0x2265, 0x2260, 0x2227, 0x2228, 0x2372, 0x2371, 0x2190, 0x2192, 0x2395,
    0xAF, 0x2207, 0x2206, 0x2218, 0x235D, 0x22A5, 0x22A4, 0x233F, 0x2340, 0x2355, 0x234E,
];

/// One of the 130 characters in which lines are written, seen as its code: 32 to 126 as in ASCII, and 128 to 162
/// for those of `SCALARS`.
#[derive(Clone, Copy, Debug, PartialEq, Eq, PartialOrd, Ord, Hash)]
pub struct Glyph {
    code: u8,
}

impl Model for Glyph {
    ghost use Rattle.std.specs.Prelude.{ℕ};
    ghost use Rattle.apl_arrays.specs.Glyph.{IsGlyph};

    ghost Value = { ℕ };

    ghost view = { λ g. g.code };

    ghost invariant = { λ g. IsGlyph g.code };

    ghost inverse = { λ code. record { code = code } };
}

impl Glyph {
    /// The glyph of a code, or `None` where the table has no such code.
    pub fn of_code(code: u8) -> Option<Glyph>
        ensures known { IsSome result ↔ IsGlyph code }
        ensures value { IfSome result (λ g. g ≡ code) }
    {
        if code >= 32 && code <= 162 && code != 127 {
            Some(Glyph { code })
        } else {
            None
        }
    }

    /// The glyph of a code that the table has.
    pub fn with_code(code: u8) -> Glyph
        requires { IsGlyph code }
        ensures { result ≡ code }
    {
        Glyph { code }
    }

    /// The code.
    pub fn code(self) -> u8
        ensures value { result ≡ self }
        ensures glyph { IsGlyph result }
    {
        self.code
    }

    /// The digit of a value below ten.
    pub fn digit(value: u8) -> Glyph
        requires { value < 10 }
        ensures { result ≡ digit value }
    {
        Glyph { code: b'0' + value }
    }

    /// The value of a digit, or `None` where the glyph is none.
    pub fn digit_value(self) -> Option<u8>
        ensures { result ≡ digit_value self }
    {
        if self.is_digit() {
            Some(self.code - b'0')
        } else {
            None
        }
    }

    /// Whether it is a digit, `0` to `9`.
    pub fn is_digit(self) -> bool
        ensures { result ≡ is_digit self }
    {
        self.code.is_ascii_digit()
    }

    /// Whether it is a letter, with which a name begins: `A` to `Z`, `a` to `z`, or `∆`.
    pub fn is_letter(self) -> bool
        ensures { result ≡ is_letter self }
    {
        self.code.is_ascii_alphabetic() || self == Glyph::DELTA
    }

    /// Whether a name goes on with it: a letter, a digit, or `_`.
    pub fn goes_on(self) -> bool
        ensures { result ≡ goes_on self }
    {
        self.is_letter() || self.is_digit() || self == Glyph::UNDERSCORE
    }

    /// Whether it is a blank.
    pub fn is_blank(self) -> bool
        ensures { result ≡ is_blank self }
    {
        self == Glyph::BLANK
    }
}

/// The signs of the language by name.
impl Glyph {
    /// The blank.
    pub const BLANK: Glyph = Glyph { code: 32 };
    /// `!`.
    pub const EXCLAMATION: Glyph = Glyph { code: 33 };
    /// `'`.
    pub const QUOTE: Glyph = Glyph { code: 39 };
    /// `(`.
    pub const LEFT_PARENTHESIS: Glyph = Glyph { code: 40 };
    /// `)`.
    pub const RIGHT_PARENTHESIS: Glyph = Glyph { code: 41 };
    /// `*`.
    pub const STAR: Glyph = Glyph { code: 42 };
    /// `+`.
    pub const PLUS: Glyph = Glyph { code: 43 };
    /// `,`.
    pub const COMMA: Glyph = Glyph { code: 44 };
    /// `-`.
    pub const MINUS: Glyph = Glyph { code: 45 };
    /// `.`.
    pub const PERIOD: Glyph = Glyph { code: 46 };
    /// `/`.
    pub const SLASH: Glyph = Glyph { code: 47 };
    /// `:`.
    pub const COLON: Glyph = Glyph { code: 58 };
    /// `;`.
    pub const SEMICOLON: Glyph = Glyph { code: 59 };
    /// `<`.
    pub const LESS: Glyph = Glyph { code: 60 };
    /// `=`.
    pub const EQUAL: Glyph = Glyph { code: 61 };
    /// `>`.
    pub const GREATER: Glyph = Glyph { code: 62 };
    /// `[`.
    pub const LEFT_BRACKET: Glyph = Glyph { code: 91 };
    /// `\`.
    pub const BACKSLASH: Glyph = Glyph { code: 92 };
    /// `]`.
    pub const RIGHT_BRACKET: Glyph = Glyph { code: 93 };
    /// `_`.
    pub const UNDERSCORE: Glyph = Glyph { code: 95 };
    /// `|`.
    pub const BAR: Glyph = Glyph { code: 124 };
    /// `~`.
    pub const TILDE: Glyph = Glyph { code: 126 };
    /// `⍴`.
    pub const RHO: Glyph = Glyph { code: 128 };
    /// `⍳`.
    pub const IOTA: Glyph = Glyph { code: 129 };
    /// `∊`.
    pub const EPSILON: Glyph = Glyph { code: 130 };
    /// `↑`.
    pub const UP_ARROW: Glyph = Glyph { code: 131 };
    /// `↓`.
    pub const DOWN_ARROW: Glyph = Glyph { code: 132 };
    /// `⍋`.
    pub const GRADE_UP: Glyph = Glyph { code: 133 };
    /// `⍒`.
    pub const GRADE_DOWN: Glyph = Glyph { code: 134 };
    /// `⌽`.
    pub const REVERSE: Glyph = Glyph { code: 135 };
    /// `⊖`.
    pub const REVERSE_FIRST: Glyph = Glyph { code: 136 };
    /// `⍉`.
    pub const TRANSPOSE: Glyph = Glyph { code: 137 };
    /// `⌈`.
    pub const CEILING: Glyph = Glyph { code: 138 };
    /// `⌊`.
    pub const FLOOR: Glyph = Glyph { code: 139 };
    /// `×`.
    pub const TIMES: Glyph = Glyph { code: 140 };
    /// `÷`.
    pub const DIVIDE: Glyph = Glyph { code: 141 };
    /// `≤`.
    pub const NOT_GREATER: Glyph = Glyph { code: 142 };
    /// `≥`.
    pub const NOT_LESS: Glyph = Glyph { code: 143 };
    /// `≠`.
    pub const NOT_EQUAL: Glyph = Glyph { code: 144 };
    /// `∧`.
    pub const AND: Glyph = Glyph { code: 145 };
    /// `∨`.
    pub const OR: Glyph = Glyph { code: 146 };
    /// `⍲`.
    pub const NAND: Glyph = Glyph { code: 147 };
    /// `⍱`.
    pub const NOR: Glyph = Glyph { code: 148 };
    /// `←`.
    pub const LEFT_ARROW: Glyph = Glyph { code: 149 };
    /// `→`.
    pub const RIGHT_ARROW: Glyph = Glyph { code: 150 };
    /// `⎕`.
    pub const QUAD: Glyph = Glyph { code: 151 };
    /// `¯`.
    pub const OVERBAR: Glyph = Glyph { code: 152 };
    /// `∇`.
    pub const DEL: Glyph = Glyph { code: 153 };
    /// `∆`.
    pub const DELTA: Glyph = Glyph { code: 154 };
    /// `∘`.
    pub const JOT: Glyph = Glyph { code: 155 };
    /// `⍝`.
    pub const LAMP: Glyph = Glyph { code: 156 };
    /// `⊥`.
    pub const DECODE: Glyph = Glyph { code: 157 };
    /// `⊤`.
    pub const ENCODE: Glyph = Glyph { code: 158 };
    /// `⌿`.
    pub const SLASH_BAR: Glyph = Glyph { code: 159 };
    /// `⍀`.
    pub const BACKSLASH_BAR: Glyph = Glyph { code: 160 };
    /// `⍕`.
    pub const FORMAT: Glyph = Glyph { code: 161 };
    /// `⍎`.
    pub const EXECUTE: Glyph = Glyph { code: 162 };
}
