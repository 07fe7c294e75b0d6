/// The axis along which a function works where none is given: the last one or the first.
#[derive(Clone, Copy, Debug, PartialEq, Eq, Hash)]
pub enum Way {
    Last,
    First,
}
