ghost use Rattle.std.specs.Prelude.{◌≡◌, ◌<◌, ◌≤◌, IfSome, length};

use std::str;

// The character that bytes are the UTF-8 of.
fn char_of(bytes: &[u8]) -> Option<char> {
    match str::from_utf8(bytes) {
        Ok(text) => text.chars().next(),
        Err(_) => None,
    }
}

/// The character whose UTF-8 stands in front, and how many bytes that has; or `None` where none does.
pub fn first_char(bytes: &[u8]) -> Option<(char, usize)>
    ensures { IfSome result (λ found. (0 < found.1) × (found.1 ≤ length bytes.now)) }
{
    for shorter in 0..bytes.len().min(4) {
        let count = shorter + 1;
        if let Some(character) = char_of(&bytes[..count]) {
            return Some((character, count));
        }
    }
    None
}
