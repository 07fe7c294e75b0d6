ghost use Rattle.std.specs.Prelude.{◌≡◌};
ghost use Rattle.aux_components.specs.Request.{change_in, request_in, request_of, get, next_in, numbered_request, replace};
ghost use Rattle.aux_components.specs.Plain.{plain_request};

use apl_arrays::{Array, Glyph, ItemsRef};
use aux_words::{behind_word, cut_at_blank, number_of};

/// A request of component files: the name of a file is what stands behind the word and its blank, up to the blank before a
/// number.
#[derive(Drop)]
pub(crate) enum Request<'a> {
    Count(&'a [Glyph]),
    Get(&'a [Glyph], u32),
    Next,
    Append(&'a [Glyph]),
    Replace(&'a [Glyph], u32),
    Other,
}

/// The request of a value: a character vector may be one, every other value is none.
pub(crate) fn request_of(value: &Array) -> Request<'_>
    ensures { plain_request result ≡ request_of value.now }
{
    match value.items() {
        ItemsRef::Chars(glyphs) if value.shape().len() == 1 => request_in(glyphs),
        _ => Request::Other,
    }
}

// The request of these glyphs.
fn request_in(glyphs: &[Glyph]) -> Request<'_>
    ensures { plain_request result ≡ request_in glyphs.now }
{
    match behind_word(b"COUNT ", glyphs) {
        Some(name) => Request::Count(name),
        None => match behind_word(b"GET ", glyphs) {
            Some(rest) => get_in(rest),
            None => match behind_word(b"NEXT", glyphs) {
                Some(rest) => next_in(rest),
                None => change_in(glyphs),
            },
        },
    }
}

// The request that changes a file.
fn change_in(glyphs: &[Glyph]) -> Request<'_>
    ensures { plain_request result ≡ change_in glyphs.now }
{
    match behind_word(b"APPEND ", glyphs) {
        Some(name) => Request::Append(name),
        None => match behind_word(b"REPLACE ", glyphs) {
            Some(rest) => replace_in(rest),
            None => Request::Other,
        },
    }
}

// The request, where nothing stands behind its word.
fn next_in(glyphs: &[Glyph]) -> Request<'_>
    ensures { plain_request result ≡ next_in glyphs.now }
{
    match glyphs {
        [] => Request::Next,
        [_, ..] => Request::Other,
    }
}

// Which component is asked for.
fn get_in(glyphs: &[Glyph]) -> Request<'_>
    ensures { plain_request result ≡ numbered_request get glyphs.now }
{
    match cut_at_blank(glyphs) {
        None => Request::Other,
        Some((name, number)) => match number_of(number) {
            None => Request::Other,
            Some(number) => Request::Get(name, number),
        },
    }
}

// Which component is replaced.
fn replace_in(glyphs: &[Glyph]) -> Request<'_>
    ensures { plain_request result ≡ numbered_request replace glyphs.now }
{
    match cut_at_blank(glyphs) {
        None => Request::Other,
        Some((name, number)) => match number_of(number) {
            None => Request::Other,
            Some(number) => Request::Replace(name, number),
        },
    }
}
