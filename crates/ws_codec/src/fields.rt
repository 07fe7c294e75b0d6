ghost use Rattle.std.specs.Prelude.{◌≡◌, IfOk, length};
ghost use Rattle.ws_codec.specs.Fields.{read_bytes, cut};
ghost use Rattle.ws_codec.specs.Reading.{Gives};

use crate::saved::SavedRule;
use crate::unread::{Unread, flawed};

/// That the input ends in a field. It takes no memory.
pub fn cut() -> Unread
    ensures { result ≡ Unread.Flawed cut }
{
    flawed(SavedRule::Short, 0)
}

/// So many bytes at the front, and those behind them. It takes no memory.
#[tactic(auto, unfolding(crate::specs::Fields::read_bytes))]
pub fn bytes_at(count: usize, bytes: &[u8]) -> Result<(&[u8], &[u8]), Unread>
    ensures value { Gives (λ found. (found.0.now, found.1.now)) result (read_bytes count bytes.now) }
    ensures count { IfOk result (λ found. length found.0.now ≡ count) }
{
    if count <= bytes.len() {
        Ok(bytes.split_at(count))
    } else {
        Err(cut())
    }
}
