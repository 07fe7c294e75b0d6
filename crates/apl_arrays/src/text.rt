ghost use Rattle.std.specs.Prelude.{◌≡◌, ◌≢◌, ◌+◌, ◌<◌, ◌≤◌, ◌^◌, ◌++◌, ◌∷◌, [], ◌⊎◌, ◌==◌, true, ℕ, List as ListOf, All, length, take, drop, IfOk, IfErr, OnOk, MatchResult, MatchOption, encode_utf8, nat_lt, vec_len, vec_capacity, OnErr};
ghost use Rattle.std.specs.List.{list_all, position};
ghost use Rattle.apl_arrays.specs.Front.{KeepsFront};
ghost use Rattle.apl_arrays.specs.Glyph.{IsGlyph, scalar_of, glyph_utf8, line_utf8, Spells, StartsWithNoGlyph, IsBadFrom};
ghost use Rattle.apl_arrays.specs.Text.{IsReasonToRefuse, StartsWithNoScalar};

use crate::glyph::SCALARS;
use crate::{Bytes, Glyph, Line, List, WantOfMemory};
use std::alloc::Global;
use std::error::Error;
use std::fmt;

/// Why bytes are not read as glyphs.
#[derive(Clone, Copy, Debug, PartialEq, Eq)]
pub enum GlyphRefused {
    /// No glyph stands at this offset. Glyphs stand before it.
    BadGlyph(u64),
    /// Memory ran out.
    WantOfMemory,
}

impl From<WantOfMemory> for GlyphRefused {
    ghost use Rattle.std.specs.Prelude.{◌≡◌};
    ghost use Rattle.apl_arrays.specs.declared.text.GlyphRefused.TheVariants.{WantOfMemory as Wanting};

    ghost from_gives = { λ _ e. e ≡ Wanting };

    fn from(_: WantOfMemory) -> Self {
        GlyphRefused::WantOfMemory
    }
}

impl fmt::Display for GlyphRefused {
    fn fmt<W: fmt::Write>(&self, f: &mut fmt::Formatter<W>) -> fmt::Result {
        match self {
            GlyphRefused::BadGlyph(offset) => write!(f, "no glyph at byte {offset}"),
            GlyphRefused::WantOfMemory => f.write_str("out of memory"),
        }
    }
}

impl Error for GlyphRefused {}

// The scalar that two bytes encode.
#[tactic(auto, using(crate::proofs::Scalars::bytes_of_two, crate::proofs::Scalars::two_from_bytes))]
fn scalar_of_two(first: u8, second: u8) -> Option<u16>
    ensures { MatchOption result ((scalar : ℕ) → 2 ^ 7 ≤ scalar → scalar < 2 ^ 11 → encode_utf8 scalar ≢ first ∷ second ∷ [])
        (λ scalar. encode_utf8 scalar ≡ first ∷ second ∷ []) }
{
    if first < 0xC2 || first >= 0xE0 || second < 0x80 || second >= 0xC0 {
        return None;
    }
    Some((u16::from(first) - 0xC0) * 64 + (u16::from(second) - 0x80))
}

// The scalar that three bytes encode.
#[tactic(auto, using(crate::proofs::Scalars::bytes_of_three, crate::proofs::Scalars::large_from_three, crate::proofs::Scalars::three_from_bytes))]
fn scalar_of_three(first: u8, second: u8, third: u8) -> Option<u16>
    ensures { MatchOption result ((scalar : ℕ) → 2 ^ 11 ≤ scalar → scalar < 2 ^ 16 → encode_utf8 scalar ≢ first ∷ second ∷ third ∷ [])
        (λ scalar. encode_utf8 scalar ≡ first ∷ second ∷ third ∷ []) }
{
    if first < 0xE0
        || first >= 0xF0
        || second < 0x80
        || second >= 0xC0
        || third < 0x80
        || third >= 0xC0
    {
        return None;
    }
    let scalar = (u16::from(first) - 0xE0) * 4096
        + (u16::from(second) - 0x80) * 64
        + (u16::from(third) - 0x80);
    if scalar < 0x800 {
        return None;
    }
    Some(scalar)
}

// The scalar of 16 bits at the front, and how many bytes it takes.
#[tactic(auto, using(crate::proofs::Scalars::none_of_none, crate::proofs::Scalars::none_of_one, crate::proofs::Scalars::none_of_two, crate::proofs::Scalars::none_as_two, crate::proofs::Scalars::none_as_three))]
fn scalar_at(bytes: &[u8]) -> Option<(u16, usize)>
    ensures { MatchOption result (StartsWithNoScalar bytes.now)
        (λ found. (bytes.now ≡ encode_utf8 found.0 ++ drop found.1 bytes.now) × (0 < found.1) × (found.1 ≤ length bytes.now)) }
{
    match bytes {
        [] => None,
        [first, ..] if *first < 0x80 => Some((u16::from(*first), 1)),
        [first, second, ..] if *first < 0xE0 => Some((scalar_of_two(*first, *second)?, 2)),
        [first, second, third, ..] => Some((scalar_of_three(*first, *second, *third)?, 3)),
        _ => None,
    }
}

// The place of a scalar among those of the codes from 128 on.
fn place_of(scalar: u16) -> Option<usize>
    ensures { result ≡ position (λ listed. listed == scalar) SCALARS }
{
    SCALARS.iter().position(|listed| *listed == scalar)
}

// The glyph of a scalar.
#[tactic(auto, using(crate::proofs::Glyphs::unlisted, crate::proofs::Glyphs::listed))]
fn glyph_of_scalar(scalar: u16) -> Option<Glyph>
    ensures { MatchOption result ((code : ℕ) → IsGlyph code → scalar_of code ≢ scalar)
        (λ glyph. IsGlyph glyph × (scalar_of glyph ≡ scalar)) }
{
    if scalar < 0x80 {
        return Glyph::of_code(scalar as u8);
    }
    let place = place_of(scalar)?;
    Glyph::of_code(0x80 + place as u8)
}

/// The glyph at the front, and how many bytes it takes; or `None` where no glyph stands there.
#[tactic(auto, using(crate::proofs::Glyphs::glyph_at_front, crate::proofs::Glyphs::no_glyph_of_scalar, crate::proofs::Glyphs::no_glyph_where_no_scalar))]
pub fn glyph_at(bytes: &[u8]) -> Option<(Glyph, usize)>
    ensures { MatchOption result (StartsWithNoGlyph bytes.now)
        (λ found. IsGlyph found.0 × (bytes.now ≡ glyph_utf8 found.0 ++ drop found.1 bytes.now)
        × (0 < found.1) × (found.1 ≤ length bytes.now)) }
{
    let (scalar, taken) = scalar_at(bytes)?;
    let glyph = glyph_of_scalar(scalar)?;
    Some((glyph, taken))
}

/// The line that bytes spell in UTF-8, read in one pass. `BadGlyph` says where the first thing stands that is no
/// glyph. It takes memory once, as if each byte were a glyph.
#[tactic(auto, using(crate::proofs::Spelling::bad_here, crate::proofs::Spelling::one_more))]
pub fn glyphs_of(alloc: Global, bytes: &[u8]) -> Result<Line, GlyphRefused>
    ensures line { IfOk result (λ line. Spells bytes.now line.items) }
    ensures bad { IfErr result (λ why. IsReasonToRefuse bytes.now why) }
    ensures only_line { (line : ListOf ℕ) → Spells bytes.now line →
        MatchResult result (λ read. read.items ≡ line) (λ why. why ≡ GlyphRefused.WantOfMemory) }
    ensures only_bad { (offset : ℕ) → IsBadFrom bytes.now offset →
        MatchResult result (λ _. ⊥) (λ why. (why ≡ GlyphRefused.BadGlyph offset) ⊎ (why ≡ GlyphRefused.WantOfMemory)) }
{
    let mut line = List::new(alloc);
    line.reserve(bytes.len())?;
    let mut rest = bytes;
    while let Some((glyph, taken)) = glyph_at(rest) {
        line.push(glyph)?;
        rest = &rest[taken..];
    }
    if rest.is_empty() {
        Ok(line)
    } else {
        Err(GlyphRefused::BadGlyph((bytes.len() - rest.len()) as u64))
    }
}

// The scalar of a glyph.
#[tactic(auto, using(crate::proofs::Glyphs::table_bound, crate::proofs::Glyphs::scalar_of_low, crate::proofs::Glyphs::scalar_of_high))]
fn char_of(glyph: Glyph) -> char
    ensures glyph { IsGlyph glyph }
    ensures value { result ≡ scalar_of glyph }
{
    let code = glyph.code();
    if code < 0x80 {
        return char::from(code);
    }
    char::from_u32(u32::from(SCALARS[usize::from(code) - 0x80])).unwrap()
}

// No glyph takes more bytes.
const GLYPH_BYTES: usize = 4;

// Adds a glyph in UTF-8, where there is room for it.
#[tactic(auto, using(crate::proofs::Spelling::bytes_of_low))]
fn add_glyph(bytes: &mut Vec<u8>, glyph: Glyph) -> Result<(), WantOfMemory>
    requires room { vec_len bytes.old + 4 ≤ vec_capacity bytes.old }
    ensures text { OnOk result (bytes.new.items ≡ bytes.old.items ++ glyph_utf8 glyph) }
    ensures err { OnErr result (bytes.new.items ≡ bytes.old.items) }
    ensures glyph { IsGlyph glyph }
    ensures len { vec_len bytes.new ≤ vec_len bytes.old + 4 }
    ensures capacity { vec_capacity bytes.old ≤ vec_capacity bytes.new }
{
    let code = glyph.code();
    if code < 0x80 {
        bytes.push_reserved(code);
        return Ok(());
    }
    let mut buffer = [0; 4];
    bytes.extend_from_slice(char_of(glyph).encode_utf8(&mut buffer).as_bytes())?;
    Ok(())
}

// Whether all glyphs are of ASCII.
fn is_ascii(line: &[Glyph]) -> bool
    ensures { result ≡ list_all (λ code. nat_lt code 128) line.now }
{
    line.iter().all(|glyph| glyph.code() < 0x80)
}

// Writes the codes of glyphs over the bytes from a place on.
fn write_codes(bytes: &mut [u8], start: usize, line: &[Glyph])
    requires { start + length line.now ≡ length bytes.old }
    ensures codes { bytes.new ≡ take start bytes.old ++ line.now }
    ensures glyphs { All IsGlyph line.now }
{
    for place in 0..line.len() {
        bytes[start + place] = line[place].code();
    }
}

// Adds glyphs of ASCII, each of which is one byte, its code.
#[tactic(auto, using(crate::proofs::Spelling::codes_are_bytes))]
fn add_codes(bytes: &mut Vec<u8>, line: &[Glyph]) -> Result<(), WantOfMemory>
    requires low { list_all (λ code. nat_lt code 128) line.now ≡ true }
    requires room { vec_len bytes.old + length line.now ≤ vec_capacity bytes.old }
    ensures text { OnOk result (bytes.new.items ≡ bytes.old.items ++ line_utf8 line.now) }
    ensures err { OnErr result (bytes.new.items ≡ bytes.old.items) }
    ensures glyphs { OnOk result (All IsGlyph line.now) }
{
    let start = bytes.len();
    bytes.resize(start + line.len(), 0)?;
    write_codes(bytes.as_mut_slice(), start, line);
    Ok(())
}

/// Adds glyphs in UTF-8. It takes memory once, as if each glyph took its most bytes; where that runs out, a part
/// of them may stand there, behind what stood there before.
pub fn add_utf8(bytes: &mut Vec<u8>, line: &[Glyph]) -> Result<(), WantOfMemory>
    ensures text { OnOk result (bytes.new.items ≡ bytes.old.items ++ line_utf8 line.now) }
    ensures front { OnErr result (KeepsFront bytes.old.items bytes.new.items) }
    ensures glyphs { OnOk result (All IsGlyph line.now) }
{
    let Some(room) = line.len().checked_mul(GLYPH_BYTES) else {
        return Err(WantOfMemory);
    };
    bytes.reserve(room)?;
    if is_ascii(line) {
        return add_codes(bytes, line);
    }
    for glyph in line {
        add_glyph(bytes, *glyph)?;
    }
    Ok(())
}

/// A line in UTF-8. Read again it is this line. It takes memory for the bytes.
pub fn utf8_of(alloc: Global, line: &Line) -> Result<Bytes, WantOfMemory>
    ensures text { IfOk result (λ bytes. bytes.items ≡ line_utf8 line.now.items) }
    ensures read_again { IfOk result (λ bytes. Spells bytes.items line.now.items) }
{
    let mut bytes = Vec::new(alloc);
    add_utf8(&mut bytes, line.as_slice())?;
    Ok(List::from(bytes))
}

/// What every text keeps: it spells at most one line, and then is bad nowhere; it is bad at one place at most; the
/// texts of two lines join to that of the joined line; and no byte of a line is a control character. The call does
/// nothing.
pub fn texts_are_read_in_one_way()
    ensures one_line { (bytes line other : ListOf ℕ) → Spells bytes line → Spells bytes other → line ≡ other }
    ensures bad_nowhere { (bytes line : ListOf ℕ) (offset : ℕ) → Spells bytes line → IsBadFrom bytes offset → ⊥ }
    ensures one_place { (bytes : ListOf ℕ) (offset other : ℕ) → IsBadFrom bytes offset → IsBadFrom bytes other → offset ≡ other }
    ensures joined { (line other : ListOf ℕ) → line_utf8 (line ++ other) ≡ line_utf8 line ++ line_utf8 other }
    ensures no_control { (line : ListOf ℕ) → All IsGlyph line → All (λ byte. 32 ≤ byte) (line_utf8 line) }
{}
