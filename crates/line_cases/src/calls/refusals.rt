use anyhow::Result;
use case_tables::Looks;
use std::alloc::Global;
use std::fmt;

/// Counts a case, which differs where a refusal has another text.
pub fn look_at_text<T: fmt::Display>(
    alloc: Global,
    refusal: &T,
    text: &str,
    looks: &mut Looks,
) -> Result<()> {
    looks.holds(refusal.to_string(alloc)?.as_str() == text);
    Ok(())
}
