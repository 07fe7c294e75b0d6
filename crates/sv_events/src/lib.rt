//! What happens between workspaces: acts, answers, and the entries of the journal.
#![tactic(auto)]

mod entry;
mod event;
mod fitting;
mod journal;
mod row;
mod weight;
mod work;

pub use entry::{Entry, Pair, PairList};
pub use event::{Act, Answer, Hold, Retry, copy_value};
pub use journal::Journal;
pub use row::{
    Accessing, ActRow, AnswerKind, AnswerRow, Controlling, Ending, Opening, Question, fits,
};
pub use work::{Work, act_of};
