ghost use Rattle.std.specs.Prelude.{◌≡◌, ◌<◌, ◌^◌, length};
ghost use Rattle.run_picture.specs.Window.{are_there, entries_in, window_of, window_from};

/// The most entries of a picture.
const MOST: u64 = 2000;

/// Entries of a journal that a picture shows: the place of the first, how many there are, and how many that were asked for
/// are left out behind them.
#[derive(Clone, Copy, Debug, PartialEq, Eq)]
pub struct Window {
    pub first: u64,
    pub shown: u64,
    pub left_out: u64,
}

// Whether these entries are there, in this order.
fn are_there(count: u64, first: u64, last: u64) -> bool
    ensures { result ≡ are_there count first last }
{
    1 <= first && first <= last && last <= count
}

// The first entries from one place to another, where entries are there.
fn window_from(count: u64, first: u64, last: u64) -> Option<Window>
    requires { count < 2 ^ 63 }
    ensures { result ≡ window_from count first last }
{
    if are_there(count, first, last) {
        let asked = last + 1 - first;
        Some(Window {
            first,
            shown: MOST.min(asked),
            left_out: asked.saturating_sub(MOST),
        })
    } else {
        None
    }
}

/// The entries from one place to another of a journal of so many, 2,000 at most; where a place is not named, from the first,
/// or up to the last. `None` where a place is past the end, where the second is in front of the first, and where there is no
/// entry.
pub fn window_of(count: u64, from: Option<u64>, to: Option<u64>) -> Option<Window>
    requires { count < 2 ^ 63 }
    ensures { result ≡ window_of count from to }
{
    window_from(count, from.unwrap_or(1), to.unwrap_or(count))
}

/// The entries of a window, of a journal in which they stand.
pub(crate) fn entries_in<'a, T>(window: &Window, entries: &'a [T]) -> &'a [T]
    ensures { result.now ≡ entries_in window.now entries.now }
{
    let front = window.first.saturating_sub(1).min(entries.len() as u64) as usize;
    let behind = &entries[front..];
    let shown = window.shown.min(behind.len() as u64) as usize;
    &behind[..shown]
}
