ghost use Rattle.std.specs.Prelude.{◌≡◌, IfSome, length};
ghost use Rattle.std.specs.Option.{option_copied};
ghost use Rattle.apl_arrays.specs.Limits.{most_elements};
ghost use Rattle.aux_relay.specs.Request.{HasTextUpTo, request_in, request_of, send_in, take_in, user_in, waiting_in};
ghost use Rattle.aux_relay.specs.Plain.{plain_request};

use apl_arrays::{Array, FIRST_USER, Glyph, ItemsRef, LAST_USER};
use aux_words::{behind_word, cut_at_blank, number_of};

/// A request of the relay: a text for a user, the next text of a user, or who has sent texts.
#[derive(Drop)]
pub(crate) enum Request<'a> {
    Send(u32, &'a [Glyph]),
    Take(u32),
    Waiting,
    Other,
}

/// The request of a value: a character vector may be one, every other value is none.
pub(crate) fn request_of(value: &Array) -> Request<'_>
    ensures value { plain_request result ≡ request_of value.now }
    ensures short { HasTextUpTo most_elements (plain_request result) }
{
    match value.items() {
        ItemsRef::Chars(glyphs) if value.shape().len() == 1 => request_in(glyphs),
        _ => Request::Other,
    }
}

// The request of these glyphs.
fn request_in(glyphs: &[Glyph]) -> Request<'_>
    ensures value { plain_request result ≡ request_in glyphs.now }
    ensures short { HasTextUpTo (length glyphs.now) (plain_request result) }
{
    match behind_word(b"SEND ", glyphs) {
        Some(rest) => send_in(rest),
        None => match behind_word(b"TAKE ", glyphs) {
            Some(rest) => take_in(rest),
            None => match behind_word(b"WAITING", glyphs) {
                Some(rest) => waiting_in(rest),
                None => Request::Other,
            },
        },
    }
}

// What is sent: a user's number, a blank, and the text.
fn send_in(glyphs: &[Glyph]) -> Request<'_>
    ensures value { plain_request result ≡ send_in glyphs.now }
    ensures short { HasTextUpTo (length glyphs.now) (plain_request result) }
{
    match cut_at_blank(glyphs) {
        None => Request::Other,
        Some((number, text)) => match user_of(number) {
            None => Request::Other,
            Some(user) => Request::Send(user, text),
        },
    }
}

// Of whom a text is taken.
fn take_in(glyphs: &[Glyph]) -> Request<'_>
    ensures value { plain_request result ≡ take_in glyphs.now }
    ensures short { HasTextUpTo (length glyphs.now) (plain_request result) }
{
    match user_of(glyphs) {
        None => Request::Other,
        Some(user) => Request::Take(user),
    }
}

// The request, where nothing stands behind its word.
fn waiting_in(glyphs: &[Glyph]) -> Request<'_>
    ensures value { plain_request result ≡ waiting_in glyphs.now }
    ensures short { HasTextUpTo (length glyphs.now) (plain_request result) }
{
    match glyphs {
        [] => Request::Waiting,
        [_, ..] => Request::Other,
    }
}

// The user whose number these glyphs are.
fn user_of(glyphs: &[Glyph]) -> Option<u32>
    ensures { result ≡ user_in glyphs.now }
{
    match number_of(glyphs) {
        Some(number) if number >= FIRST_USER && number <= LAST_USER => Some(number),
        _ => None,
    }
}
