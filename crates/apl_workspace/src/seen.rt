use crate::Function;
use apl_arrays::Array;

/// What a name stands for, as it is looked up.
#[derive(Clone, Copy, Debug)]
pub enum Seen<'a> {
    Nothing,
    Value(&'a Array),
    Function(&'a Function),
    Label(u32),
    Shared(Option<&'a Array>),
}
