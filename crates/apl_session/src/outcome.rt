use crate::transcripts::Transcripts;
use apl_io::Devices;
use sv_events::Journal;

/// How a run ended.
#[derive(Debug, Drop)]
pub enum Ended {
    /// All users have left: each user's transcript, and the journal.
    Whole {
        transcripts: Transcripts,
        journal: Journal,
    },
    /// Memory ran out for one of the parties.
    WantOfMemory,
}

/// How a run over devices ended, and the devices that it was lent.
#[derive(Debug, Drop)]
pub struct FinishedRun<T, C, K> {
    pub ended: Ended,
    pub devices: Devices<T, C, K>,
}

/// How a run with the auxiliaries 10 and 20 ended, with what answered behind these, and the users' shelves.
#[derive(Debug, Drop)]
pub struct RunOf<X, Y, K> {
    pub ended: Ended,
    pub ten: X,
    pub twenty: Y,
    pub shelves: Vec<K>,
}
