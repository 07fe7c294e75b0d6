ghost use Rattle.std.specs.Prelude.{◌≡◌, ◌∷◌, ◌++◌, IfOk, IsTrue, codes, decimal, string_bytes};
ghost use Rattle.apl_arrays.specs.File.{IsFileName};
ghost use Rattle.apl_arrays.specs.Glyph.{line_utf8};
ghost use Rattle.aplsv_devices.specs.Paths.{slash, beside};

use crate::fault::{no_memory, no_path};
use apl_arrays::{FileName, Name, add_utf8};
use std::alloc::{AllocError, Global};
use std::io;

/// The path of what stands in a folder under a name. It takes memory for the path.
pub fn path_in(alloc: Global, folder: &str, name: &str) -> Result<String, AllocError>
    ensures { IfOk result (λ path. string_bytes path ≡ folder.now ++ slash ∷ name.now) }
{
    let mut path = String::from_str(alloc, folder)?;
    path.push_str("/")?;
    path.push_str(name)?;
    Ok(path)
}

/// The path of the hidden file that is written before it takes the place of the file of a name: behind the folder a dot,
/// the name, another dot, and the mark of whoever writes it. It takes memory for the path.
pub fn hidden_path(
    alloc: Global,
    folder: &str,
    name: &str,
    mark: u32,
) -> Result<String, AllocError> {
    format!(in alloc; "{folder}/.{name}.{mark}")
}

/// The path of a user's folder, which is the user's number, in the place of a shelf; an error where there is no place. It
/// takes memory for the path.
pub fn user_path(alloc: Global, place: &str, user: u32) -> io::Result<String>
    ensures { IfOk result (λ path. string_bytes path ≡ beside place.now (decimal user)) }
{
    if place.is_empty() {
        return Err(no_path());
    }
    Ok(format!(in alloc; "{place}/{user}")?)
}

/// The name of a saved workspace as that of its file: its glyphs in UTF-8. It takes memory for the text.
pub fn name_text(alloc: Global, name: &Name) -> io::Result<String>
    ensures { IfOk result (λ text. string_bytes text ≡ line_utf8 name.now) }
{
    let mut bytes = Vec::new(alloc);
    if add_utf8(&mut bytes, name.glyphs()).is_err() {
        return Err(no_memory());
    }
    match String::from_utf8(bytes) {
        Ok(text) => Ok(text),
        Err(_) => Err(no_path()),
    }
}

/// The path of a text file in the place of a store; an error where the name is that of no file, or where there is no place.
/// It takes memory for the path.
pub fn text_path(alloc: Global, place: &str, name: &str) -> io::Result<String>
    ensures path { IfOk result (λ path. string_bytes path ≡ beside place.now name.now) }
    ensures name { IfOk result (λ _. IsFileName name.now) }
{
    if place.is_empty() || FileName::of(name).is_none() {
        return Err(no_path());
    }
    Ok(path_in(alloc, place, name)?)
}
