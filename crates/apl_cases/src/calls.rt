mod arrays;
mod given;
mod items;
mod operators;
mod scalar;
mod search;
mod selection;
mod structure;

use self::arrays::ArrayCalls;
use self::items::ItemCalls;
use self::operators::OperatorCalls;
use self::scalar::ScalarCalls;
use self::search::SearchCalls;
use self::selection::SelectionCalls;
use self::structure::StructureCalls;
use anyhow::Result;
use case_tables::{Tally, run_calls};

/// Makes calls of the crates of arrays, of items and of functions, one after another, and looks at what they give. Where memory
/// was refused they are made once more.
pub fn all_calls(rt: &HostRuntime) -> Result<Tally> {
    let mut tally = run_calls(rt, "apl_arrays", &ArrayCalls)?;
    tally.add(run_calls(rt, "apl_items", &ItemCalls)?);
    tally.add(run_calls(rt, "apl_scalar", &ScalarCalls)?);
    tally.add(run_calls(rt, "apl_selection", &SelectionCalls)?);
    tally.add(run_calls(rt, "apl_structure", &StructureCalls)?);
    tally.add(run_calls(rt, "apl_search", &SearchCalls)?);
    tally.add(run_calls(rt, "apl_operators", &OperatorCalls)?);
    Ok(tally)
}
