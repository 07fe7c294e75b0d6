ghost use Rattle.std.specs.Prelude.{◌≡◌, ◌<◌, length};
ghost use Rattle.apl_items.specs.Extension.{is_single, ranks_differ, shapes_differ, leader, place_in, number_at, char_at};

use apl_arrays::{Array, Glyph};

/// Whether an array has one element.
pub fn is_single(array: &Array) -> bool
    ensures { result ≡ is_single array.now }
{
    array.items().len() == 1
}

/// Whether the ranks differ where neither array extends.
pub fn ranks_differ(a: &Array, b: &Array) -> bool
    ensures { result ≡ ranks_differ a.now b.now }
{
    !is_single(a) && !is_single(b) && a.shape().len() != b.shape().len()
}

/// Whether the shapes differ where neither array extends.
pub fn shapes_differ(a: &Array, b: &Array) -> bool
    ensures { result ≡ shapes_differ a.now b.now }
{
    !is_single(a) && !is_single(b) && a.shape() != b.shape()
}

/// The array whose shape the result has.
pub fn leader<'a>(a: &'a Array, b: &'a Array) -> &'a Array
    ensures { result.now ≡ leader a.now b.now }
{
    if is_single(a) && (!is_single(b) || a.shape().len() < b.shape().len()) {
        b
    } else {
        a
    }
}

/// The number for a place of the result.
pub fn number_at(list: &[i64], place: usize) -> i64
    requires { place_in (length list.now) place < length list.now }
    ensures { result ≡ number_at list.now place }
{
    list[place_in(list.len(), place)]
}

/// The character for a place of the result.
pub fn glyph_at(list: &[Glyph], place: usize) -> Glyph
    requires { place_in (length list.now) place < length list.now }
    ensures { result ≡ char_at list.now place }
{
    list[place_in(list.len(), place)]
}

/// The place in a list that extends where it has one item.
fn place_in(count: usize, place: usize) -> usize
    ensures { result ≡ place_in count place }
{
    if count == 1 { 0 } else { place }
}
