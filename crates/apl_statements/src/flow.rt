use crate::evaluation::Evaluation;
use apl_values::ActPurpose;

/// Which line of a function follows: the next one, or the one that a branch names.
#[derive(Clone, Copy, Debug, PartialEq, Eq)]
pub enum Next {
    GoesOn,
    GoesTo(i64),
}

/// What is done next: the statement under evaluation goes on, another one does, that begins or that called a function; a
/// statement led somewhere; an act is opened, behind which a statement goes on; or the line is over.
#[derive(Debug, Drop)]
pub enum Flow {
    Evaluates(Evaluation),
    Begins(Evaluation),
    Leads(Next),
    Opens(Box<ActPurpose>, Evaluation),
    Ends,
}

/// Where nothing more is done for now: the line is over, or an act is opened, behind which a statement goes on.
#[derive(Debug, Drop)]
pub enum Pause {
    Ends,
    Opens(Box<ActPurpose>, Evaluation),
}
