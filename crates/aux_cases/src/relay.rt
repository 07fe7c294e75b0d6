use crate::sessions::answers_to_parties;
use anyhow::{Result, bail};
use aux_relay::Relay;
use case_tables::Trial;
use std::alloc::Global;

/// Sequences of values that parties give to a relay: the values, each behind its party; the answers.
#[derive(Clone, Copy, Debug)]
pub struct RelaySequences;

impl Trial for RelaySequences {
    fn given(&self) -> usize {
        1
    }

    fn found(&self, alloc: Global, fields: &[&str]) -> Result<String> {
        let [steps, ..] = fields else {
            bail!("values are wanted");
        };
        let mut relay = Relay::new(alloc);
        let told = answers_to_parties(alloc, &mut relay, *steps);
        drop(relay);
        told
    }
}
