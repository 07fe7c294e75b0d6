/// Whether a value equals another. It is let go.
pub fn is_equal<T: PartialEq + Drop>(value: T, wanted: &T) -> bool {
    let is_so = value == *wanted;
    drop(value);
    is_so
}
