ghost use Rattle.std.specs.Prelude.{◌≡◌, ◌*◌, ◌<◌, ◌≤◌, length};
ghost use Rattle.apl_arrays.specs.Array.{element_count};
ghost use Rattle.apl_display.specs.Matrices.{extent_of, row_count};

/// How many matrices an array of rank 2 or more has, and their size.
#[derive(Clone, Copy)]
pub struct Extent {
    pub matrices: usize,
    pub rows: usize,
    pub columns: usize,
}

/// The matrices of an array of rank 2 or more that has elements.
pub fn extent_of(shape: &[u32], elements: usize) -> Extent
    requires rank { 2 ≤ length shape.now }
    requires elements { element_count shape.now ≡ elements }
    requires some { 0 < elements }
    ensures value { result ≡ extent_of shape.now }
    ensures whole { row_count result * result.columns ≡ elements }
    ensures counted { row_count result ≤ elements }
{
    let columns = shape[shape.len() - 1] as usize;
    let rows = shape[shape.len() - 2] as usize;
    Extent {
        matrices: elements / (rows * columns),
        rows,
        columns,
    }
}
