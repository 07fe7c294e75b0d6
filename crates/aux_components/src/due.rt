ghost use Rattle.std.specs.Prelude.{◌≡◌, ◌⊎◌, List, IfOk, length, nat_le, if◌then◌else◌};
ghost use Rattle.apl_arrays.specs.Array.{PlainArray};
ghost use Rattle.apl_io.specs.Replies.{plain_read};
ghost use Rattle.auxiliaries.specs.File.{most_file_bytes};
ghost use Rattle.aux_components.specs.File.{AreComponents, AreNoComponents, components_changed};
ghost use Rattle.aux_components.specs.Plain.{plain_due};
ghost use Rattle.aux_components.specs.Protocol.{IsDue, due_of, due_of_none, refuses, writes};

use crate::code::Code;
use crate::file::{FILE_LIMIT, changed_bytes, components_of};
use apl_arrays::{Array, Bytes as FileBytes, WantOfMemory};
use apl_io::StoreError;
use std::alloc::Global;

/// What is due of a file that is to be changed, once it was read.
#[derive(Debug, Drop)]
pub(crate) enum DueChange {
    /// The change is refused.
    Refusal(Code),
    /// The file is replaced by these bytes.
    Bytes(Vec<u8>),
}

/// What is due by the store's answer about a file, into which an array comes in the place of the component of a number, or
/// without a number goes last. It takes memory for the components and for the bytes.
pub(crate) fn what_is_due(
    alloc: Global,
    reply: Result<Option<FileBytes>, StoreError>,
    number: Option<u32>,
    value: &Array,
) -> Result<DueChange, WantOfMemory>
    ensures { IfOk result (λ due. IsDue number value.now (plain_read reply) (plain_due due)) }
{
    match reply {
        Ok(Some(bytes)) => due_of_file(alloc, bytes.as_slice(), number, value),
        Ok(None) => due_of_none(alloc, number, value),
        Err(StoreError::Failed) => Ok(DueChange::Refusal(Code::Fault)),
        Err(StoreError::WantOfMemory) => Err(WantOfMemory),
    }
}

// What is due by the bytes of the file.
fn due_of_file(
    alloc: Global,
    bytes: &[u8],
    number: Option<u32>,
    value: &Array,
) -> Result<DueChange, WantOfMemory>
    ensures { IfOk result (λ due. ((arrays : List PlainArray) × AreComponents bytes.now arrays × (plain_due due ≡ due_of (components_changed number arrays value.now)))
        ⊎ (AreNoComponents bytes.now × (plain_due due ≡ refuses 4))) }
{
    match components_of(alloc, bytes)? {
        Some(arrays) => due_of(alloc, &arrays, number, value),
        None => Ok(DueChange::Refusal(Code::NoFile)),
    }
}

// What is due where there is no file.
fn due_of_none(alloc: Global, number: Option<u32>, value: &Array) -> Result<DueChange, WantOfMemory>
    ensures { IfOk result (λ due. plain_due due ≡ due_of_none number value.now) }
{
    match number {
        None => due_of(alloc, &[], None, value),
        Some(_) => Ok(DueChange::Refusal(Code::Missing)),
    }
}

// What is due by the components of the file.
fn due_of(
    alloc: Global,
    arrays: &[Array],
    number: Option<u32>,
    value: &Array,
) -> Result<DueChange, WantOfMemory>
    ensures { IfOk result (λ due. plain_due due ≡ due_of (components_changed number arrays.now value.now)) }
{
    match changed_bytes(alloc, arrays, number, value)? {
        Some(bytes) => Ok(within_limit(bytes)),
        None => Ok(DueChange::Refusal(Code::NoComponent)),
    }
}

// What is due of bytes: they are written, unless they are too many.
fn within_limit(bytes: Vec<u8>) -> DueChange
    ensures { plain_due result ≡ (if nat_le (length bytes.items) most_file_bytes then writes bytes.items else refuses 4) }
{
    if bytes.len() <= FILE_LIMIT {
        DueChange::Bytes(bytes)
    } else {
        DueChange::Refusal(Code::NoFile)
    }
}
