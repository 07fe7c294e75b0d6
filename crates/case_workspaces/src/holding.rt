use anyhow::Result;

/// What comes of a value that is lent, and let go then.
pub fn lent<T: Drop, R, F: FnOnce(&T) -> Result<R>>(value: Result<T>, tell: F) -> Result<R>
    requires { F.IsAlwaysCallable tell }
{
    let value = value?;
    tell(&value)
}

/// A value where what was done with it succeeded.
pub fn kept<T: Drop>(value: T, outcome: Result<()>) -> Result<T> {
    outcome?;
    Ok(value)
}

/// Two values, or the first error.
pub fn both<A: Drop, B: Drop>(first: Result<A>, second: Result<B>) -> Result<(A, B)> {
    let first = first?;
    let second = second?;
    Ok((first, second))
}
