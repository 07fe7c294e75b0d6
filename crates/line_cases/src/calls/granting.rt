use anyhow::{Result, bail};
use apl_arrays::Fail;
use case_tables::Looks;

/// What a call gave, or nothing where it was refused with a report. An `Err` says that memory was refused.
pub fn given<T: Drop>(outcome: Result<T, Fail>) -> Result<Option<T>> {
    match outcome {
        Ok(value) => Ok(Some(value)),
        Err(Fail::Report(_)) => Ok(None),
        Err(Fail::WantOfMemory) => bail!("out of memory"),
    }
}

/// Whether a call was granted, and not refused with a report. An `Err` says that memory was refused.
pub fn is_granted(outcome: Result<(), Fail>) -> Result<bool> {
    Ok(given(outcome)?.is_some())
}

/// A value where a call on it was granted.
pub fn kept<T: Drop>(value: T, is_granted: Result<bool>) -> Result<Option<T>> {
    Ok(if is_granted? { Some(value) } else { None })
}

/// What comes of a value that is lent, and let go then, or a case that differs where there is none.
pub fn lent<T: Drop, F: FnOnce(&T, &mut Looks) -> Result<()>>(
    value: Option<T>,
    looks: &mut Looks,
    look: F,
) -> Result<()>
    requires { F.IsAlwaysCallable look }
{
    match value {
        Some(value) => look(&value, looks),
        None => {
            looks.holds(false);
            Ok(())
        }
    }
}
