ghost use Rattle.std.specs.Prelude.{◌≡◌, ◌*◌, ◌<◌, ◌^◌, ℕ, IfOk, length, slice_index};
ghost use Rattle.apl_arrays.specs.Array.{FitsLimits, element_count};
ghost use Rattle.apl_items.specs.Shapes.{stride_of};

use apl_arrays::WantOfMemory;
use apl_items::Split;
use std::alloc::Global;

/// How far apart two neighbours along each axis of a shape stand. It takes memory for them.
pub fn strides_of(alloc: Global, shape: &[u32]) -> Result<Vec<u16>, WantOfMemory>
    requires fits { FitsLimits shape.now }
    requires elements { 0 < element_count shape.now }
    ensures whole { IfOk result (λ strides. length strides.items ≡ length shape.now) }
    ensures each { IfOk result (λ strides. (axis : ℕ) → axis < length shape.now → slice_index strides.items axis ≡ stride_of shape.now axis) }
{
    let mut strides = Vec::new(alloc);
    for axis in 0..shape.len() {
        strides.push(stride_at(shape, axis))?;
    }
    Ok(strides)
}

/// How far apart two neighbours along an axis stand.
fn stride_at(shape: &[u32], axis: usize) -> u16
    requires fits { FitsLimits shape.now }
    requires elements { 0 < element_count shape.now }
    requires axis { axis < length shape.now }
    ensures { result ≡ stride_of shape.now axis }
{
    Split::at(shape, axis).inner as u16
}

/// The stride of an axis, and 0 past the last.
pub fn stride_in(strides: &[u16], axis: usize) -> u16
    ensures { result ≡ slice_index strides.now axis }
{
    match strides.get(axis) {
        Some(stride) => *stride,
        None => 0,
    }
}

/// So many strides.
pub fn scaled(places: usize, stride: u16) -> usize
    requires { places < 2 ^ 16 }
    ensures value { result ≡ places * stride }
    ensures small { result < 2 ^ 32 }
{
    places * stride as usize
}

/// The length of an axis, 0 past the last.
pub fn length_of(shape: &[u32], axis: usize) -> u32
    ensures { result ≡ slice_index shape.now axis }
{
    match shape.get(axis) {
        Some(length) => *length,
        None => 0,
    }
}
