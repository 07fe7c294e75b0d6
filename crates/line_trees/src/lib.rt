//! The trees of lines: which statement the tokens of a line are.
#![tactic(auto)]

mod builder;
mod class;
pub mod laws;
mod machine;
mod marking;
mod node_list;
mod parsing;
mod pending;
mod place_stack;
mod refused;
mod signs;
mod stack;
mod symbol;
mod tree;

pub use class::{Class, Classes};
pub use node_list::NodeList;
pub use parsing::parse;
pub use refused::ParseRefused;
pub use tree::{Form, Fun, Node, Places, Tree};
