use crate::evaluation::Evaluation;
use apl_arrays::Name;
use apl_values::LineReading;
use std::sync::Arc;

/// A function under way: its name, the number of its line under evaluation, the readings of its lines that are kept, which
/// were read since it was entered, and the statement that called it.
#[derive(Debug, Drop)]
pub struct Waiting {
    pub name: Name,
    pub number: usize,
    pub readings: Vec<Option<Arc<LineReading>>>,
    pub caller: Evaluation,
}
