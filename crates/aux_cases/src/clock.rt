use crate::sessions::answers;
use anyhow::{Result, bail};
use apl_io::MemoryClock;
use auxiliaries::ClockAux;
use case_devices::calls_of;
use case_fields::numbers_of;
use case_tables::Trial;
use std::alloc::Global;

/// Sessions with the clock auxiliary: the readings of its clock, the calls of the clock that are to fail, and the values
/// given to the auxiliary; its answers.
#[derive(Clone, Copy, Debug)]
pub struct ClockSessions;

impl Trial for ClockSessions {
    fn given(&self) -> usize {
        3
    }

    fn found(&self, alloc: Global, fields: &[&str]) -> Result<String> {
        let [readings, fails, values, ..] = fields else {
            bail!("readings, calls and values are wanted");
        };
        let fails = calls_of(alloc, *fails)?;
        let clock = MemoryClock::new(numbers_of(alloc, *readings)?, fails);
        let mut aux = ClockAux::new(clock);
        let told = answers(alloc, &mut aux, *values);
        drop(aux);
        told
    }
}
