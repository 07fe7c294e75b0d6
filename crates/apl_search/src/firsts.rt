ghost use Rattle.std.specs.Prelude.{◌≡◌, ◌==◌, ◌≤◌, IfOk, length};
ghost use Rattle.std.specs.List.{position_or_len};
ghost use Rattle.std.specs.Ordering.{int_eq};
ghost use Rattle.apl_search.specs.Classes.{AreFirsts, AreFirstsFromLeast};

use crate::classes::Classes;
use crate::spans::distance;
use apl_arrays::{Glyph, WantOfMemory};
use std::alloc::Global;

/// For each of so many classes its first place in a list, or the count of the items. An item of a class past these is passed
/// over. It takes memory for the places.
pub(crate) fn firsts_of<T: Copy + Drop, C: Classes<T>>(
    alloc: Global,
    list: &[T],
    classes: &C,
    count: usize,
) -> Result<Vec<u16>, WantOfMemory>
    requires few { length list.now ≤ 16384 }
    ensures span { IfOk result (λ firsts. length firsts.items ≡ count) }
    ensures firsts { IfOk result (λ firsts. AreFirsts (C.class classes.now) list.now firsts.items) }
{
    let long = list.len();
    let mut firsts = Vec::new(alloc);
    firsts.resize(count, long as u16)?;
    for gone in 0..long {
        let place = long - 1 - gone;
        let of = classes.class_of(list[place]);
        if of < count {
            firsts[of] = place as u16;
        }
    }
    Ok(firsts)
}

/// The first place of a number, from 0, or the count of the numbers, by the first places of distances from the least of them.
pub(crate) fn first_near(list: &[i64], base: i64, firsts: &[u16], number: i64) -> usize
    requires { AreFirstsFromLeast list.now base firsts.now }
    ensures value { result ≡ position_or_len (int_eq number) list.now }
    ensures inside { result ≤ length list.now }
{
    let far = distance(base, number);
    if number < base {
        list.len()
    } else if far < firsts.len() {
        usize::from(firsts[far])
    } else {
        list.len()
    }
}

/// The first place of a character, from 0, or the count of the characters, by the first places of all codes.
pub(crate) fn first_by_code(list: &[Glyph], firsts: &[u16], glyph: Glyph) -> usize
    requires span { length firsts.now ≡ 256 }
    requires firsts { AreFirsts (λ code. code) list.now firsts.now }
    ensures value { result ≡ position_or_len (λ other. glyph == other) list.now }
    ensures inside { result ≤ length list.now }
{
    usize::from(firsts[usize::from(glyph.code())])
}
