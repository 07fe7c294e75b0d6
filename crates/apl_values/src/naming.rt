ghost use Rattle.std.specs.Prelude.{◌≡◌, ◌<◌, [], IfOk, is_none, map, not, option_map, slice_index_or};
ghost use Rattle.std.specs.List.{list_any};
ghost use Rattle.apl_arrays.specs.Array.{chars_in};
ghost use Rattle.apl_meaning.specs.Naming.{has_rows, naming_count, naming_in, naming_of, namings_of, rows_of};
ghost use Rattle.apl_values.specs.Rows.{plain_naming};

use apl_arrays::{Array, Glyph, ItemsRef, Name, WantOfMemory, next_word};
use std::alloc::Global;

/// The names of a row: a local one, and the surrogate.
#[derive(Clone, Copy, Debug, PartialEq, Eq)]
pub struct Naming {
    pub local: Name,
    pub surrogate: Name,
}

/// The one or two names that a row holds, if it does.
pub fn naming_in(row: &[Glyph]) -> Option<Naming>
    ensures { option_map plain_naming result ≡ naming_in row.now }
{
    let (local, rest) = next_word(row)?;
    match next_word(rest) {
        None => naming_of(local, local),
        Some((surrogate, rest)) => {
            if next_word(rest).is_none() {
                naming_of(local, surrogate)
            } else {
                None
            }
        }
    }
}

// Two words, where both are names.
fn naming_of(local: &[Glyph], surrogate: &[Glyph]) -> Option<Naming>
    ensures { option_map plain_naming result ≡ naming_of local.now surrogate.now }
{
    let local = Name::of(local)?;
    let surrogate = Name::of(surrogate)?;
    Some(Naming { local, surrogate })
}

/// Whether an array is a matrix, so that each row has its own result.
pub fn has_rows(n: &Array) -> bool
    ensures { result ≡ has_rows n.now }
{
    n.shape().len() == 2
}

/// How many rows it has; a scalar or a vector is one.
pub fn naming_count(n: &Array) -> usize
    ensures { result ≡ naming_count n.now }
{
    if has_rows(n) {
        n.shape()[0] as usize
    } else {
        1
    }
}

// The characters; none where it holds numbers.
fn glyphs_in(n: &Array) -> &[Glyph]
    ensures { result.now ≡ chars_in n.now.items }
{
    match n.items() {
        ItemsRef::Numbers(_) => &[],
        ItemsRef::Chars(line) => line,
    }
}

// The glyphs of a row.
fn row_at(n: &Array, row: usize) -> &[Glyph]
    requires { row < naming_count n.now }
    ensures { result.now ≡ slice_index_or (rows_of n.now) row [] }
{
    let glyphs = glyphs_in(n);
    if !has_rows(n) {
        return glyphs;
    }
    let columns = n.shape()[1] as usize;
    let rest = &glyphs[glyphs.len().min(row * columns)..];
    &rest[..rest.len().min(columns)]
}

/// The one or two names that a row holds, if it does.
pub fn naming_at(n: &Array, row: usize) -> Option<Naming>
    requires { row < naming_count n.now }
    ensures { option_map plain_naming result ≡ naming_in (slice_index_or (rows_of n.now) row []) }
{
    naming_in(row_at(n, row))
}

/// Whether each row holds one or two names.
#[tactic(auto, using(crate::proofs::NamingSteps::named_more, crate::proofs::NamingSteps::one_unnamed, crate::proofs::NamingSteps::all_named))]
pub fn names_all(n: &Array) -> bool
    ensures { result ≡ not (list_any (λ row. is_none (naming_in row)) (rows_of n.now)) }
{
    for row in 0..naming_count(n) {
        if naming_in(row_at(n, row)).is_none() {
            return false;
        }
    }
    true
}

/// The names of all rows that hold names. It takes memory for them.
#[tactic(auto, using(crate::proofs::NamingSteps::namings_more, crate::proofs::NamingSteps::namings_all))]
pub fn namings_of(alloc: Global, n: &Array) -> Result<Vec<Naming>, WantOfMemory>
    ensures { IfOk result (λ namings. map plain_naming namings.items ≡ namings_of n.now) }
{
    let mut namings = Vec::new(alloc);
    for row in 0..naming_count(n) {
        if let Some(naming) = naming_in(row_at(n, row)) {
            namings.push(naming)?;
        }
    }
    Ok(namings)
}
