ghost use Rattle.std.specs.Prelude.{◌≡◌, ◌≢◌, ◌+◌, ◌<◌, ◌≤◌, ◌↔◌, ℕ, List as ListOf, Some, None, min, IsSome, IfOk, IsOk, OnOk, OnErr, length};
ghost use Rattle.std.specs.List.{list_all};
ghost use Rattle.apl_arrays.specs.Limits.{most_axes, most_elements};
ghost use Rattle.apl_arrays.specs.Shape.{is_small, shape_fault};
ghost use Rattle.apl_arrays.specs.Storage.{lone_number};
ghost use Rattle.apl_arrays.specs.Array.{plain_items, seen_items, item_count, numbers_in, element_count, is_chars, scalar, FitsLimits, IsArray, IsItemOf};

use crate::shaped::Shaped;
use crate::{Item, Items, ItemsRef, WantOfMemory};
use std::alloc::Global;
use std::error::Error;
use std::marker::Model;
use std::{fmt, slice};

/// The most axes that an array has.
pub const RANK_LIMIT: usize = 8;

/// The most elements of an array, and the greatest length of an axis.
pub const ELEMENT_LIMIT: usize = 16_384;

/// Why an array of a shape would pass the limits.
#[derive(Clone, Copy, Debug, PartialEq, Eq, Hash)]
pub enum ShapeFault {
    /// Over eight axes.
    Rank,
    /// No more axes, but one of them or the product of all is over 16,384.
    Size,
}

/// Why shape and items make no array.
#[derive(Clone, Copy, Debug, PartialEq, Eq, Hash)]
pub enum ArrayRefused {
    /// Over eight axes, or an axis or the product of all over 16,384.
    TooLarge,
    /// As many items as the product were not given.
    BadShape,
    /// Memory ran out.
    WantOfMemory,
}

impl fmt::Display for ArrayRefused {
    fn fmt<W: fmt::Write>(&self, f: &mut fmt::Formatter<W>) -> fmt::Result {
        f.write_str(match self {
            ArrayRefused::TooLarge => "array too large",
            ArrayRefused::BadShape => "shape and items differ",
            ArrayRefused::WantOfMemory => "out of memory",
        })
    }
}

impl Error for ArrayRefused {}

// Where an array is: the scalar of a number stands in place and takes no memory, any other array stands apart.
#[derive(Debug, Drop)]
enum Storage {
    Lone(i64),
    Apart(Box<Shaped>),
}

/// An array: a shape of at most eight axes, and the items in row-major order, all numbers or all characters. Two
/// arrays are equal where their shapes, kinds and items are.
#[derive(Debug, Drop)]
pub struct Array {
    storage: Storage,
}

impl Model for Array {
    ghost use Rattle.apl_arrays.specs.Array.{PlainArray};
    ghost use Rattle.apl_arrays.specs.Storage.{IsStored, stored};

    ghost Value = { PlainArray };

    ghost view = { λ a. stored a.storage };

    ghost invariant = { λ a. IsStored a.storage };
}

impl Array {
    /// The array of a shape and as many items. ISO 8485, with limits: `TooLarge` where there are over
    /// eight axes, or an axis or the product of all is over 16,384, else `BadShape` where the product is not the
    /// number of items. It takes memory, but for the scalar of a number.
    #[tactic(auto, using(crate::proofs::Shapes::no_fault_fits, crate::proofs::Shapes::what_fits_has_no_fault, crate::proofs::Shapes::size_is_too_large, crate::proofs::Shapes::too_large_by_size))]
    pub fn try_new(alloc: Global, shape: &[u32], items: Items) -> Result<Array, ArrayRefused>
        ensures array { IfOk result (λ array. array ≡ record { shape = shape.now; items = plain_items items }) }
        ensures too_large { (result ≡ Err ArrayRefused.TooLarge) ↔ ¬ FitsLimits shape.now }
        ensures bad_shape { (result ≡ Err ArrayRefused.BadShape)
            ↔ (FitsLimits shape.now × (element_count shape.now ≢ item_count (plain_items items))) }
        ensures granted { IsSome (lone_number shape.now (plain_items items)) → IsOk result }
    {
        if shape_fault(shape).is_some() {
            discard(items);
            return Err(ArrayRefused::TooLarge);
        }
        if capped_count(shape) != items.len() {
            discard(items);
            return Err(ArrayRefused::BadShape);
        }
        match Array::shaped(alloc, shape, items) {
            Ok(array) => Ok(array),
            Err(WantOfMemory) => Err(ArrayRefused::WantOfMemory),
        }
    }

    /// The array of a shape within the limits, and of as many items. ISO 8485. It takes memory, but for the scalar of a
    /// number.
    pub fn shaped(alloc: Global, shape: &[u32], items: Items) -> Result<Array, WantOfMemory>
        requires fits { FitsLimits shape.now }
        requires whole { element_count shape.now ≡ item_count (plain_items items) }
        ensures array { IfOk result (λ array. array ≡ record { shape = shape.now; items = plain_items items }) }
        ensures granted { IsSome (lone_number shape.now (plain_items items)) → IsOk result }
    {
        match lone_number(shape, &items) {
            Some(number) => {
                discard(items);
                Ok(Array::of_number(number))
            }
            None => Array::apart(alloc, Shaped::of(shape, items)),
        }
    }

    // An array that stands apart. It takes memory.
    fn apart(alloc: Global, shaped: Shaped) -> Result<Array, WantOfMemory>
        requires { lone_number shaped.shape shaped.items ≡ None }
        ensures { IfOk result (λ array. array ≡ shaped) }
    {
        Ok(Array {
            storage: Storage::Apart(Box::new(alloc, shaped)?),
        })
    }

    /// The scalar of a number. ISO 8485.
    pub fn of_number(number: i64) -> Array
        ensures { result ≡ scalar number }
    {
        Array {
            storage: Storage::Lone(number),
        }
    }

    /// The scalar of a number. ISO 8485. It asks for no memory, and so is always granted.
    pub fn scalar(_alloc: Global, number: i64) -> Result<Array, WantOfMemory>
        ensures value { IfOk result (λ array. array ≡ scalar number) }
        ensures granted { IsOk result }
    {
        Ok(Array::of_number(number))
    }

    /// An equal array. It takes memory, but for the scalar of a number. ISO 8485.
    pub fn copy(&self, alloc: Global) -> Result<Array, WantOfMemory>
        ensures array { IfOk result (λ array. array ≡ self.now) }
        ensures granted { IsSome (lone_number self.now.shape self.now.items) → IsOk result }
    {
        match &self.storage {
            Storage::Lone(number) => Ok(Array::of_number(*number)),
            Storage::Apart(shaped) => Array::apart(alloc, shaped.copy(alloc)?),
        }
    }

    /// Becomes equal to another. It takes no memory where the other is the scalar of a number, or where neither is and its
    /// items are of the kind of the other's and as many; else it may take memory for the other. `WantOfMemory` leaves it as
    /// it was.
    pub fn renew(&mut self, alloc: Global, other: &Array) -> Result<(), WantOfMemory>
        ensures ok { OnOk result (self.new ≡ other.now) }
        ensures err { OnErr result (self.new ≡ self.old) }
        ensures granted { IsSome (lone_number other.now.shape other.now.items) → IsOk result }
    {
        match (&mut self.storage, &other.storage) {
            (Storage::Apart(shaped), Storage::Apart(other)) => shaped.renew(alloc, other),
            _ => {
                *self = other.copy(alloc)?;
                Ok(())
            }
        }
    }

    /// The lengths of the axes. ISO 8485.
    pub fn shape(&self) -> &[u32]
        ensures value { result.now ≡ self.now.shape }
        ensures array { IsArray self.now }
    {
        match &self.storage {
            Storage::Lone(_) => &[],
            Storage::Apart(shaped) => shaped.shape(),
        }
    }

    /// The items. ISO 8485.
    pub fn items(&self) -> ItemsRef<'_>
        ensures value { seen_items result ≡ self.now.items }
        ensures array { IsArray self.now }
    {
        match &self.storage {
            Storage::Lone(number) => ItemsRef::Numbers(slice::from_ref(number)),
            Storage::Apart(shaped) => shaped.items(),
        }
    }

    /// The item at a place, in row-major order from 0. ISO 8485.
    pub fn item(&self, at: usize) -> Item
        requires { at < item_count self.now.items }
        ensures { IsItemOf self.now.items at result }
    {
        match self.items() {
            ItemsRef::Numbers(numbers) => Item::Number(numbers[at]),
            ItemsRef::Chars(glyphs) => Item::Char(glyphs[at]),
        }
    }

    /// The numbers; none where the kind is characters.
    pub fn numbers(&self) -> &[i64]
        ensures { result.now ≡ numbers_in self.now.items }
    {
        self.items().numbers()
    }

    /// Whether it holds characters, or is empty and of their kind. ISO 8485.
    pub fn is_chars(&self) -> bool
        ensures { result ≡ is_chars self.now.items }
    {
        matches!(self.items(), ItemsRef::Chars(_))
    }
}

/// Equal arrays have the same shape, kind and items.
impl PartialEq for Array {
    ghost use Rattle.apl_arrays.specs.Array.{same_array};
    ghost use Rattle.std.specs.Cmp.Rules.{comparing};
    ghost use Rattle.std.proofs.Common.{rules};

    ghost eq = { same_array };

    ghost laws = { Prim.search (comparing, rules) depth 9 };

    fn eq(&self, other: &Array) -> bool {
        self.shape() == other.shape() && self.items() == other.items()
    }
}

impl Eq for Array {
    ghost use Rattle.std.specs.Cmp.Rules.{comparing};
    ghost use Rattle.std.proofs.Common.{rules};

    ghost laws = { Prim.search (comparing, rules) depth 9 };
}

fn discard(_items: Items) {}

// The number of which shape and items are the scalar.
fn lone_number(shape: &[u32], items: &Items) -> Option<i64>
    ensures { result ≡ lone_number shape.now (plain_items items.now) }
{
    match (shape, items) {
        ([], Items::Numbers(list)) => match list.as_slice() {
            [number] => Some(*number),
            _ => None,
        },
        _ => None,
    }
}

fn has_small_axes(shape: &[u32]) -> bool
    ensures { result ≡ list_all is_small shape.now }
{
    shape.iter().all(|axis| *axis as usize <= ELEMENT_LIMIT)
}

/// The number of elements, or one more than the limit where it is greater.
fn capped_count(shape: &[u32]) -> usize
    ensures { result ≡ min (element_count shape.now) (most_elements + 1) }
{
    let mut count = 1;
    for axis in shape {
        count = (count * *axis as usize).min(ELEMENT_LIMIT + 1);
    }
    count
}

/// Why an array of this shape would pass the limits, if it would: `Rank` where there are over eight axes, else `Size`
/// where an axis or the product of all is over 16,384. ISO 8485, with limits.
pub fn shape_fault(shape: &[u32]) -> Option<ShapeFault>
    ensures { result ≡ shape_fault shape.now }
{
    if shape.len() > RANK_LIMIT {
        Some(ShapeFault::Rank)
    } else if has_small_axes(shape) && capped_count(shape) <= ELEMENT_LIMIT {
        None
    } else {
        Some(ShapeFault::Size)
    }
}

/// How many elements an array of this shape has. ISO 8485.
pub fn count_of_elements(shape: &[u32]) -> usize
    requires { FitsLimits shape.now }
    ensures { result ≡ element_count shape.now }
{
    capped_count(shape)
}

/// A shape is faulty exactly where it passes the limits: by `Rank` where it has over eight axes, else by `Size`. The
/// call does nothing.
#[tactic(auto, using(crate::proofs::Shapes::no_fault_fits, crate::proofs::Shapes::what_fits_has_no_fault, crate::proofs::Shapes::size_is_too_large, crate::proofs::Shapes::too_large_by_size))]
pub fn faulty_shapes_pass_the_limits()
    ensures none { (shape : ListOf ℕ) → (shape_fault shape ≡ None) ↔ FitsLimits shape }
    ensures rank { (shape : ListOf ℕ) → (shape_fault shape ≡ Some ShapeFault.Rank) ↔ (most_axes < length shape) }
    ensures size { (shape : ListOf ℕ) → (shape_fault shape ≡ Some ShapeFault.Size) ↔ ((length shape ≤ most_axes) × ¬ FitsLimits shape) }
{}
