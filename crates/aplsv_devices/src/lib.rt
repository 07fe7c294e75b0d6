//! The devices of the machine that the program runs on: the standard streams, folders of files, and the clock; and the gate that
//! its parties pass. Each device counts its faults. A folder and the clock tell nothing of what they hold.
#![tactic(auto)]

mod clock;
mod fault;
mod gate;
mod kept;
mod kind;
mod laws;
mod listing;
mod paths;
mod plain;
mod replacing;
mod shelf;
mod sink;
mod source;
mod text;

pub use clock::SystemClock;
pub use gate::OpenGate;
pub use kept::KEPT_LIMIT;
pub use laws::names_stay_in_their_folder;
pub use shelf::DirShelf;
pub use sink::StdSink;
pub use source::StdSource;
pub use text::DirText;
