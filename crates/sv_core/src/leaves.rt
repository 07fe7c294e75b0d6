ghost use Rattle.std.specs.Prelude.{◌≡◌, ◌+◌, ◌<◌, All, IfOk, length, vec_len};
ghost use Rattle.sv_core.specs.Core.{IsSpare};

use apl_arrays::WantOfMemory;
use std::alloc::Global;
use sv_events::PairList;
use sv_rules::OFFER_LIMIT;

/// So many empty lists, each with room for the pairs of a leave. It takes memory for them.
pub fn spare_lists(alloc: Global, count: usize) -> Result<Vec<PairList>, WantOfMemory>
    ensures count { IfOk result (λ spares. vec_len spares ≡ count) }
    ensures spares { IfOk result (λ spares. All IsSpare spares.items) }
{
    let mut spares = Vec::new(alloc);
    for _made in 0..count {
        spares.push(spare_list(alloc)?)?;
    }
    Ok(spares)
}

// An empty list with room for the pairs of a leave.
fn spare_list(alloc: Global) -> Result<PairList, WantOfMemory>
    ensures { IfOk result IsSpare }
{
    let mut pairs = PairList::new(alloc);
    pairs.reserve(OFFER_LIMIT)?;
    Ok(pairs)
}

/// Takes out one of such lists.
pub fn take_spare(spares: &mut Vec<PairList>) -> PairList
    requires some { 0 < vec_len spares.old }
    requires room { All IsSpare spares.old.items }
    ensures spare { IsSpare result }
    ensures rest { All IsSpare spares.new.items }
    ensures count { length spares.new.items + 1 ≡ length spares.old.items }
{
    let Some(made) = spares.pop() else {
        unreachable!()
    };
    made
}
