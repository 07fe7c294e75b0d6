//! The same on threads. The functions that choose the devices stand here once more, since no method of a trait may hand to a
//! thread what it knows by a bound alone.

mod answer;
mod behind_ten;
mod behind_twenty;
mod over_shelves;
mod run;
mod server;

pub(crate) use answer::served;
pub(crate) use server::Server;
