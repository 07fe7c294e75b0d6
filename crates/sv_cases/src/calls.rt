mod access;
mod events;
mod offers;
mod processor;
mod samples;
mod story;

use self::access::Access;
use self::events::EventCalls;
use self::offers::OfferCalls;
use self::processor::CoreCalls;
use self::story::StoryCalls;
use anyhow::Result;
use case_tables::{Tally, run_calls};

/// Makes calls of the access table, the events, the share of a coupling, the table of offers and the processor, one after
/// another, and looks at what they give. Where memory was refused a table or a journal is what it was before, and the call is
/// made once more.
pub fn all_calls(rt: &HostRuntime) -> Result<Tally> {
    let mut tally = run_calls(rt, "sv_access", &Access)?;
    tally.add(run_calls(rt, "sv_events", &EventCalls)?);
    tally.add(run_calls(rt, "sv_kept", &StoryCalls)?);
    tally.add(run_calls(rt, "sv_offers", &OfferCalls)?);
    tally.add(run_calls(rt, "sv_core", &CoreCalls)?);
    Ok(tally)
}
