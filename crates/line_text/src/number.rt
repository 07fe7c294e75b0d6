ghost use Rattle.std.specs.Prelude.{◌≡◌, ◌+◌, ◌<◌, ◌≤◌, ◌^◌, FitsSigned, ◌++◌, ℤ, IsOk, OnOk, decimal, length, OnErr};
ghost use Rattle.std.specs.Int.{w64};
ghost use Rattle.apl_arrays.specs.Front.{KeepsFront};
ghost use Rattle.line_text.specs.Number.{sign_of, number_text, number_width};

use crate::text::add_text;
use apl_arrays::{Glyph, Line, WantOfMemory};
use itoa::Buffer;

/// How many decimal digits a number has.
#[tactic(auto, using(crate::proofs::Decimals::digit_limit_wide))]
pub fn digit_count(number: u64) -> usize
    ensures value { result ≡ length (decimal number) }
    ensures small { result ≤ 20 }
{
    let mut buffer = Buffer::new();
    buffer.format(number).len()
}

/// How many glyphs the text of a number has.
#[tactic(auto, using(crate::proofs::Decimals::digit_limit))]
pub fn number_width(number: i64) -> usize
    ensures value { result ≡ number_width number }
    ensures small { result ≤ 20 }
{
    usize::from(number < 0) + digit_count(number.unsigned_abs())
}

/// Adds a number in decimal digits at the end of a line. Where there is room for them it is granted and takes no
/// memory, else it takes memory for more; where that runs out, some of the digits may stand there.
#[tactic(auto, using(crate::proofs::Decimals::text_is_plain))]
pub fn add_count(line: &mut Line, count: u64) -> Result<(), WantOfMemory>
    ensures text { OnOk result (line.new.items ≡ line.old.items ++ decimal count) }
    ensures front { OnErr result (KeepsFront line.old.items line.new.items) }
    ensures granted { length (decimal count) ≤ line.old.room → IsOk result }
    ensures room { length (decimal count) ≤ line.old.room → line.new.room + length (decimal count) ≡ line.old.room }
    ensures printable { count < 2 ^ 64 }
{
    let mut buffer = Buffer::new();
    add_text(line, buffer.format(count))
}

// Adds the sign of a number: ¯ where it is negative.
fn add_sign(line: &mut Line, number: i64) -> Result<(), WantOfMemory>
    ensures text { OnOk result (line.new.items ≡ line.old.items ++ sign_of number) }
    ensures front { OnErr result (KeepsFront line.old.items line.new.items) }
    ensures granted { length (sign_of number) ≤ line.old.room → IsOk result }
    ensures room { length (sign_of number) ≤ line.old.room → line.new.room + length (sign_of number) ≡ line.old.room }
{
    if number < 0 {
        line.push(Glyph::OVERBAR)?;
    }
    Ok(())
}

/// Adds a number at the end of a line: its decimal digits, behind the sign ¯ where it is negative. Where there is room
/// for them it is granted and takes no memory, else it takes memory for more; where that runs out, a part of the text
/// may stand there.
pub fn add_number(line: &mut Line, number: i64) -> Result<(), WantOfMemory>
    ensures text { OnOk result (line.new.items ≡ line.old.items ++ number_text number) }
    ensures front { OnErr result (KeepsFront line.old.items line.new.items) }
    ensures granted { number_width number ≤ line.old.room → IsOk result }
    ensures room { number_width number ≤ line.old.room → line.new.room + number_width number ≡ line.old.room }
    ensures printable { FitsSigned w64 number }
{
    add_sign(line, number)?;
    add_count(line, number.unsigned_abs())
}

/// The text of a number of 64 bits tells the number. The call does nothing.
pub fn a_text_tells_its_number()
    ensures { (number other : ℤ) → FitsSigned w64 number → FitsSigned w64 other
        → number_text number ≡ number_text other → number ≡ other }
{}
