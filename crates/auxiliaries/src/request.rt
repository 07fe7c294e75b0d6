ghost use Rattle.std.specs.Prelude.{◌≡◌, option_copied};
ghost use Rattle.auxiliaries.specs.Request.{request_of, request_in, bare_request, behind_word};
ghost use Rattle.auxiliaries.specs.Plain.{plain_request};

use apl_arrays::{Array, Glyph, ItemsRef};

/// A request of the text auxiliary. A name and a text are what stands behind the word and its blank.
#[derive(Drop)]
pub(crate) enum Request<'a> {
    Read(&'a [Glyph]),
    Next,
    Write(&'a [Glyph]),
    Put(&'a [Glyph]),
    Done,
    Other,
}

/// The request of a value: a character vector may be one, every other value is none.
pub(crate) fn request_of(value: &Array) -> Request<'_>
    ensures { plain_request result ≡ request_of value.now }
{
    match value.items() {
        ItemsRef::Chars(glyphs) if value.shape().len() == 1 => request_in(glyphs),
        _ => Request::Other,
    }
}

// The request of these glyphs.
fn request_in(glyphs: &[Glyph]) -> Request<'_>
    ensures { plain_request result ≡ request_in glyphs.now }
{
    match behind_word(b"READ ", glyphs) {
        Some(name) => Request::Read(name),
        None => match behind_word(b"WRITE ", glyphs) {
            Some(name) => Request::Write(name),
            None => match behind_word(b"PUT ", glyphs) {
                Some(text) => Request::Put(text),
                None => bare_request(glyphs),
            },
        },
    }
}

// The request that is one word, if it is one.
fn bare_request(glyphs: &[Glyph]) -> Request<'_>
    ensures { plain_request result ≡ bare_request glyphs.now }
{
    match behind_word(b"NEXT", glyphs) {
        Some([]) => Request::Next,
        _ => match behind_word(b"DONE", glyphs) {
            Some([]) => Request::Done,
            _ => Request::Other,
        },
    }
}

// What stands behind a word at the front.
fn behind_word<'a>(word: &[u8], glyphs: &'a [Glyph]) -> Option<&'a [Glyph]>
    ensures { option_copied result ≡ behind_word word.now glyphs.now }
{
    match word {
        [] => Some(glyphs),
        [byte, word @ ..] => match glyphs {
            [glyph, glyphs @ ..] if glyph.code() == *byte => behind_word(word, glyphs),
            _ => None,
        },
    }
}
