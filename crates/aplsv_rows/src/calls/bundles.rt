use crate::calls::helping::bundle_of;
use anyhow::Result;
use apl_arrays::WantOfMemory;
use bundle_text::{Bundle, BundleRefused, BundleRule};
use case_tables::{Calls, Looks};
use std::alloc::Global;

/// A bundle with all sections, what it has, and how the reasons are told for which bytes are none.
#[derive(Clone, Copy, Debug)]
pub struct Bundles;

const TEXT: &str =
    "user 1001\n|X←3\n|X\nuser 1999\n|Y\norder 1999 10\nfile A\n|ONE\n|\nclock 5\nclock 6\nend";

// What the sections have.
fn has_sections(looks: &mut Looks, bundle: &Bundle) {
    looks.holds(bundle.users().len() == 2);
    looks.holds(bundle.offset_of(0, 1) == 17);
    looks.holds(bundle.offset_of(1, 0) == 30);
    looks.holds(bundle.order() == [1999, 10].as_slice());
    looks.holds(bundle.clock() == [5, 6].as_slice());
}

// Its only file.
fn has_file(looks: &mut Looks, bundle: &Bundle) {
    let files = bundle.files();
    looks.holds(files.len() == 1);
    let first = files.first();
    looks.holds(matches!(first, Some(file) if file.name.as_bytes() == b"A".as_slice()));
    looks.holds(matches!(first, Some(file) if file.bytes.as_slice() == b"ONE\n\n".as_slice()));
}

// The parts that it comes apart into.
fn has_parts(looks: &mut Looks, bundle: Bundle) {
    let parts = bundle.into_parts();
    looks.holds(parts.clock.as_slice().len() == 2);
    let users = parts.users.into_vec();
    looks.holds(matches!(users.get(1), Some(second) if second.number == 1999));
    looks.holds(matches!(users.first(), Some(first) if first.lines.as_slice().len() == 2));
}

fn reads_sections(alloc: Global, looks: &mut Looks) -> Result<()> {
    match bundle_of(alloc, TEXT)? {
        Some(bundle) => {
            has_sections(looks, &bundle);
            has_file(looks, &bundle);
            has_parts(looks, bundle);
        }
        None => looks.holds(false),
    }
    Ok(())
}

fn tells_reasons(alloc: Global, looks: &mut Looks) -> Result<()> {
    let malformed = BundleRefused::Malformed {
        offset: 12,
        rule: BundleRule::Party,
    };
    looks.holds(malformed.to_string(alloc)?.as_str() == "malformed at 12: party");
    let wanting = BundleRefused::from(WantOfMemory);
    looks.holds(wanting.to_string(alloc)?.as_str() == "out of memory");
    Ok(())
}

impl Calls for Bundles {
    fn make(&self, alloc: Global, looks: &mut Looks) -> Result<()> {
        reads_sections(alloc, looks)?;
        tells_reasons(alloc, looks)
    }
}
