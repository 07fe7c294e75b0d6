ghost use Rattle.std.specs.Prelude.{◌≡◌, ◌<◌, pos, true, length, slice_index_or};
ghost use Rattle.apl_scalar.specs.Reading.{AllFit};
ghost use Rattle.apl_arrays.specs.Number.{fits};

/// Each number of a list is in 64 bits, as it is read. The call does nothing else.
pub fn read_all(list: &[i64])
    ensures { AllFit list.now }
{
    for place in 0..list.len() {
        let _number = read(list, place);
    }
}

/// The number at a place.
fn read(list: &[i64], place: usize) -> i64
    requires { place < length list.now }
    ensures value { result ≡ slice_index_or list.now place (pos 0) }
    ensures small { fits result ≡ true }
{
    list[place]
}
