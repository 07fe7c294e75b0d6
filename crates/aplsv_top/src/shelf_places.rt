ghost use Rattle.std.specs.Prelude.{◌≡◌, ◌≤◌, OnOk, vec_len};
ghost use Rattle.aplsv_top.specs.Headline.{AreToldTheirPlace};

use apl_arrays::WantOfMemory;
use apl_io::Shelf;

/// Tells so many shelves their place.
pub(crate) fn place_shelves<K: Shelf>(
    shelves: &mut Vec<K>,
    count: usize,
    place: &str,
) -> Result<(), WantOfMemory>
    requires { count ≤ vec_len shelves.old }
    ensures placed { OnOk result (AreToldTheirPlace K.told K.faults place.now count shelves.old.items shelves.new.items) }
    ensures many { vec_len shelves.new ≡ vec_len shelves.old }
{
    for at in 0..count {
        shelves[at].set_place(place)?;
    }
    Ok(())
}
