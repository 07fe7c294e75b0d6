ghost use Rattle.std.specs.Prelude.{◌≡◌};

/// What is wrong in a line: the place, as so many bytes of the line that stand in front of it, and what is wanted there.
#[derive(Clone, Copy, Debug)]
pub struct Finding {
    pub at: usize,
    pub wanted: &'static str,
}

impl Finding {
    /// What is wanted at a place.
    pub fn new(at: usize, wanted: &'static str) -> Finding
        ensures { result.at ≡ at }
    {
        Finding { at, wanted }
    }
}
