//! The evaluation of one statement: its values, the interpreter that it stands on, and what each step owes.
#![tactic(auto)]

mod evaluation;
mod flow;
mod giving;
mod interpreter;
mod printing;
mod room;
mod waiting;

pub use evaluation::{Evaluation, Operands, Purpose};
pub use flow::{Flow, Next, Pause};
pub use interpreter::Interpreter;
pub use printing::print_lines;
pub use waiting::Waiting;
