ghost use Rattle.std.specs.Prelude.{◌≡◌, ◌⊎◌, List, IfOk};
ghost use Rattle.std.specs.Option.{option_copied};
ghost use Rattle.apl_arrays.specs.Array.{PlainArray};
ghost use Rattle.apl_io.specs.Replies.{plain_read};
ghost use Rattle.auxiliaries.specs.Protocol.{code};
ghost use Rattle.aux_components.specs.File.{AreComponents, AreNoComponents, component_asked};
ghost use Rattle.aux_components.specs.Plain.{code_number, plain_state};
ghost use Rattle.aux_components.specs.Protocol.{AfterAsked, Finds, idle};

use crate::code::Code;
use crate::file::{component, components_of};
use crate::state::FileState;
use apl_arrays::{Array, Bytes, WantOfMemory};
use apl_io::StoreError;
use std::alloc::Global;

/// What follows from the store's answer about a file, of which the component of a number is asked for, or without a number
/// how many there are. It takes memory for the components.
pub(crate) fn found(
    alloc: Global,
    reply: Result<Option<Bytes>, StoreError>,
    number: Option<u32>,
) -> Result<(Code, FileState), WantOfMemory>
    ensures { IfOk result (λ next. AfterAsked number (plain_read reply) (code (code_number next.0)) (plain_state next.1)) }
{
    match reply {
        Ok(Some(bytes)) => found_in_file(alloc, bytes.as_slice(), number),
        Ok(None) => Ok((Code::Missing, FileState::Idle)),
        Err(StoreError::Failed) => Ok((Code::Fault, FileState::Idle)),
        Err(StoreError::WantOfMemory) => Err(WantOfMemory),
    }
}

// What follows from the bytes of the file.
fn found_in_file(
    alloc: Global,
    bytes: &[u8],
    number: Option<u32>,
) -> Result<(Code, FileState), WantOfMemory>
    ensures { IfOk result (λ next. ((arrays : List PlainArray) × AreComponents bytes.now arrays × Finds (component_asked number arrays) (code (code_number next.0)) (plain_state next.1))
        ⊎ (AreNoComponents bytes.now × (code (code_number next.0) ≡ code 4) × (plain_state next.1 ≡ idle))) }
{
    match components_of(alloc, bytes)? {
        Some(arrays) => found_among(alloc, &arrays, number),
        None => Ok((Code::NoFile, FileState::Idle)),
    }
}

// What follows from the components of the file.
fn found_among(
    alloc: Global,
    arrays: &[Array],
    number: Option<u32>,
) -> Result<(Code, FileState), WantOfMemory>
    ensures { IfOk result (λ next. Finds (component_asked number arrays.now) (code (code_number next.0)) (plain_state next.1)) }
{
    match number {
        None => Ok((
            Code::Done,
            FileState::Holding(Array::of_number(arrays.len() as i64)),
        )),
        Some(number) => held(alloc, component(arrays, number)),
    }
}

// What follows from the component that was asked for. It takes memory for an equal one.
fn held(alloc: Global, array: Option<&Array>) -> Result<(Code, FileState), WantOfMemory>
    ensures { IfOk result (λ next. Finds (option_copied array.entry) (code (code_number next.0)) (plain_state next.1)) }
{
    match array {
        Some(array) => Ok((Code::Done, FileState::Holding(array.copy(alloc)?))),
        None => Ok((Code::NoComponent, FileState::Idle)),
    }
}
