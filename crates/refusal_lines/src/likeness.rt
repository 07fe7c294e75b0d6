/// Glyphs of the language, each with characters behind it that look like it and are others.
const LIKENESSES: &str = "\
-\u{2010}\u{2011}\u{2012}\u{2013}\u{2014}\u{2015}\u{2212}\u{2796} \
'\u{2018}\u{2019}\u{201A}\u{201B}\u{2032}\u{02B9}\u{02BC}\u{00B4} \
*\u{2217}\u{22C6}\u{2605}\u{204E} \
|\u{00A6}\u{2223}\u{2502}\u{2758}\u{01C0} \
~\u{02DC}\u{223C}\u{301C} \
/\u{2044}\u{2215}\u{29F8} \
\\\u{2216}\u{29F5}\u{29F9} \
:\u{2236}\u{A789} \
.\u{2024}\u{00B7}\u{2219}\u{22C5} \
!\u{01C3} \
<\u{2039}\u{3008}\u{27E8} \
>\u{203A}\u{3009}\u{27E9} \
⍴\u{03C1}\u{03F1} \
⍳\u{03B9}\u{0269}\u{0131} \
∊\u{2208}\u{03B5}\u{03F5}\u{025B}\u{0454} \
↑\u{21E7}\u{21D1}\u{2B06} \
↓\u{21E9}\u{21D3}\u{2B07} \
⌽\u{03A6}\u{03C6}\u{0424} \
⊖\u{0398}\u{03B8}\u{229D} \
⍉\u{00D8}\u{2205} \
⌈\u{250C}\u{23A1} \
⌊\u{2514}\u{23A3} \
×\u{2715}\u{2A09}\u{2A2F} \
÷\u{2797}\u{2052} \
≤\u{2A7D}\u{2266} \
≥\u{2A7E}\u{2267} \
≠\u{2262}\u{01C2} \
∧\u{22C0}\u{028C}\u{02C4}\u{02C6}\u{2303} \
∨\u{22C1}\u{02C5}\u{2304} \
←\u{27F5}\u{21D0}\u{2B05}\u{FFE9} \
→\u{27F6}\u{21D2}\u{27A1}\u{FFEB} \
⎕\u{25A1}\u{25AF}\u{2610}\u{25FB} \
¯\u{02C9}\u{203E}\u{207B}\u{FFE3} \
∇\u{25BD}\u{25BC} \
∆\u{0394}\u{25B3}\u{25B2} \
∘\u{25E6}\u{00B0} \
⊥\u{27C2} \
⊤\u{22BA} \
A\u{0391}\u{0410} B\u{0392}\u{0412} C\u{0421} E\u{0395}\u{0415} H\u{0397}\u{041D} I\u{0399}\u{0406} J\u{0408} \
K\u{039A}\u{041A} M\u{039C}\u{041C} N\u{039D} O\u{039F}\u{041E} P\u{03A1}\u{0420} S\u{0405} T\u{03A4}\u{0422} \
X\u{03A7}\u{0425} Y\u{03A5} Z\u{0396} a\u{0430} c\u{0441} e\u{0435} i\u{0456} j\u{0458} o\u{03BF}\u{043E} \
p\u{0440} s\u{0455} x\u{0445} y\u{0443}";

// The glyph with which a group of the table begins, where the character is one of those behind it.
fn glyph_of_group(group: &str, character: char) -> Option<char> {
    let mut characters = group.chars();
    let glyph = characters.next()?;
    if characters.any(|other| other == character) {
        Some(glyph)
    } else {
        None
    }
}

// The character of ASCII that one of full width looks like.
fn narrow(character: char) -> Option<char> {
    let code = u32::from(character);
    if (0xFF01..=0xFF5E).contains(&code) {
        char::from_u32(code - 0xFEE0)
    } else {
        None
    }
}

/// Whether a character looks like a blank, or like nothing, and is no blank.
pub fn looks_blank(character: char) -> bool {
    matches!(
        character,
        '\u{A0}' | '\u{AD}' | '\u{2000}'..='\u{200F}'
            | '\u{202F}'
            | '\u{205F}'
            | '\u{2060}'
            | '\u{3000}'
            | '\u{FEFF}'
    )
}

/// The glyph that a character looks like and is not, if there is one.
pub fn glyph_like(character: char) -> Option<char> {
    for group in LIKENESSES.split(' ') {
        if let Some(glyph) = glyph_of_group(group, character) {
            return Some(glyph);
        }
    }
    narrow(character)
}
