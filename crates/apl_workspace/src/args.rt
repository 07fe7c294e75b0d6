use apl_arrays::Array;

/// The arguments that a function is called with.
#[derive(Debug, Drop)]
pub struct Args {
    pub left: Option<Array>,
    pub right: Option<Array>,
}
