ghost use Rattle.std.specs.Prelude.{◌≡◌, IfOk, IsTrue, MatchOption, ℕ, List};
ghost use Rattle.std.specs.List.Sorted.{IsStrictlySortedBy};
ghost use Rattle.apl_arrays.specs.Glyph.{Spells};
ghost use Rattle.apl_arrays.specs.Name.{IsName, name_order};

use crate::fault::no_memory;
use crate::kind::{PathKind, kind_of};
use apl_arrays::{GlyphRefused, Name, NameList, WantOfMemory, glyphs_of};
use std::alloc::Global;
use std::collections::BTreeSet;
use std::fs::{self, DirEntry};
use std::io::{self, ErrorKind};
use std::rt::Files;

/// The names of the plain files of a folder, ascending. What has no name of the language is left out, and so is what is no
/// plain file. It takes memory for the names.
pub fn names_in<R: Files + AllocGlobal + Clone + Drop>(rt: &R, folder: &str) -> io::Result<NameList>
    ensures { IfOk result (λ names. IsStrictlySortedBy name_order names.items) }
{
    let mut names = BTreeSet::new(rt.alloc());
    for entry in fs::read_dir(rt, folder)? {
        add_entry(rt.alloc(), &mut names, entry)?;
    }
    match list_of(rt.alloc(), &names) {
        Ok(list) => Ok(list),
        Err(WantOfMemory) => Err(no_memory()),
    }
}

// Adds the name of an entry. One whose name is no UTF-8 has none.
fn add_entry<R: Files + Drop>(
    alloc: Global,
    names: &mut BTreeSet<Name>,
    entry: io::Result<DirEntry<R>>,
) -> io::Result<()> {
    match entry {
        Ok(entry) => add_file(alloc, names, &entry),
        Err(error) if error.kind() == ErrorKind::InvalidFilename => Ok(()),
        Err(error) => Err(error),
    }
}

// Adds the name of an entry, where it has one and is a plain file.
fn add_file<R: Files>(
    alloc: Global,
    names: &mut BTreeSet<Name>,
    entry: &DirEntry<R>,
) -> io::Result<()> {
    let Some(name) = name_of(alloc, entry.file_name())? else {
        return Ok(());
    };
    if is_plain(entry)? {
        names.insert(name)?;
    }
    Ok(())
}

// Whether an entry is a plain file, and still there.
fn is_plain<R: Files>(entry: &DirEntry<R>) -> io::Result<bool> {
    match entry.metadata() {
        Ok(metadata) => Ok(matches!(kind_of(&metadata), PathKind::Plain(_))),
        Err(error) if error.kind() == ErrorKind::NotFound => Ok(false),
        Err(error) => Err(error),
    }
}

// The name that a text spells, or `None` where it spells none.
fn name_of(alloc: Global, text: &str) -> io::Result<Option<Name>>
    ensures { IfOk result (λ found. MatchOption found ((name : List ℕ) → Spells text.now name → ¬ IsName name) (λ name. Spells text.now name)) }
{
    match glyphs_of(alloc, text.as_bytes()) {
        Ok(line) => Ok(Name::of(line.as_slice())),
        Err(GlyphRefused::BadGlyph(_)) => Ok(None),
        Err(GlyphRefused::WantOfMemory) => Err(no_memory()),
    }
}

// Names as a list, ascending.
fn list_of(alloc: Global, names: &BTreeSet<Name>) -> Result<NameList, WantOfMemory>
    ensures list { IfOk result (λ list. list.items ≡ names.now.keys) }
    ensures ascending { IfOk result (λ list. IsStrictlySortedBy name_order list.items) }
{
    let mut list = NameList::new(alloc);
    for name in names {
        list.push(*name)?;
    }
    Ok(list)
}
