//! Worked statements: what lines print and ask.

pub mod executed;
pub mod functions;
pub mod limits;
pub mod order;
pub mod reports;
pub mod rows;
pub mod shared;
pub mod single;
pub mod systems;
pub mod wrong;
