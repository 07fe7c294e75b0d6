//! A run on one thread, in turns, over the devices that the words ask for.

mod behind_ten;
mod behind_twenty;
mod over_shelves;
mod run;

pub(crate) use run::run_as_asked;
