ghost use Rattle.std.specs.Prelude.{◌≡◌, ◌+◌, ◌==◌, ◌≤◌, count_by, length, take};
ghost use Rattle.line_text.specs.Lines.{line_feed};
ghost use Rattle.refusal_lines.specs.Marked.{IsLineAt};

use line_text::first_line;

/// A line of a text and a place in it: the number of the line, the first of which is 1, the line without its line feed, and
/// how many bytes of it stand in front of the place.
#[derive(Clone, Copy, Debug)]
pub struct MarkedLine<'a> {
    pub number: u64,
    pub line: &'a [u8],
    pub at: usize,
}

// How many line feeds there are.
fn feeds(bytes: &[u8]) -> u64
    ensures value { result ≡ count_by (λ byte. byte == line_feed) bytes.now }
    ensures small { result ≤ length bytes.now }
{
    bytes.iter().filter(|byte| **byte == b'\n').count() as u64
}

// The line in which an offset is, and how many bytes of it stand in front of that.
fn line_at(bytes: &[u8], offset: usize) -> (&[u8], usize)
    requires { offset ≤ length bytes.now }
    ensures { IsLineAt bytes.now offset result.0.now result.1 }
{
    let mut rest = bytes;
    while let Some((line, after)) = first_line(rest) {
        let at = offset - (bytes.len() - rest.len());
        if at <= line.len() {
            return (line, at);
        }
        rest = after;
    }
    (rest, offset - (bytes.len() - rest.len()))
}

/// The line in which an offset is, which is one of the bytes or their end. A line feed belongs to the line that it
/// ends.
pub fn marked_line(bytes: &[u8], offset: usize) -> MarkedLine<'_>
    requires { offset ≤ length bytes.now }
    ensures number { result.number ≡ count_by (λ byte. byte == line_feed) (take offset bytes.now) + 1 }
    ensures line { IsLineAt bytes.now offset result.line.now result.at }
{
    let (line, at) = line_at(bytes, offset);
    MarkedLine {
        number: feeds(&bytes[..offset]) + 1,
        line,
        at,
    }
}
