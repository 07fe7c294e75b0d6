//! The operators of APL, reduction, scan, inner and outer product, and the one door to all functions.
#![tactic(auto)]

mod applying;
mod identities;
mod inner_product;
mod items;
pub mod laws;
mod lines;
mod lone;
mod outer_product;
mod parts;
mod products;
mod reducing;
mod reduction;
mod rows;
mod running;
mod scanning;
mod steps;
mod sums;

pub use applying::apply;
pub use inner_product::inner;
pub use outer_product::outer;
pub use reducing::reduce;
pub use scanning::scan;
pub use steps::Steps;
