use apl_arrays::Report;
use sv_events::Act;

/// Where a run of the machine stops: the line is over, or ended by a report, or it asks an act.
#[derive(Debug, Drop)]
pub enum Stop {
    Done,
    Failed(Report),
    Asks(Act),
}
