use anyhow::Result;
use apl_io::CallNumbers;
use std::alloc::Global;

/// The number of the call that is to fail, or none where it is 0.
pub fn failing_at(alloc: Global, call: u64) -> Result<CallNumbers> {
    let mut numbers = CallNumbers::new(alloc);
    if call != 0 {
        numbers.push(call)?;
    }
    Ok(numbers)
}
