ghost use Rattle.std.specs.Prelude.{◌≡◌, ◌+◌, ◌-◌, ◌<◌, ◌≤◌, ◌++◌, ◌∷◌, [], OnOk, OnErr, IsOk, vec_len, vec_capacity};

use crate::WantOfMemory;
use crate::seat::Seat;
use std::alloc::Global;

/// Seats, in the order of their parties.
#[derive(Drop)]
pub struct Seats<E> {
    pub(crate) list: Vec<Seat<E>>,
}

impl<E> Seats<E> {
    /// No seats.
    pub fn new(alloc: Global) -> Seats<E>
        ensures { result.list.items ≡ [] }
    {
        Seats {
            list: Vec::new(alloc),
        }
    }

    /// The seats of a `Vec`, in its order.
    pub fn of_vec(list: Vec<Seat<E>>) -> Seats<E>
        ensures { result.list ≡ list }
    {
        Seats { list }
    }

    /// The seats, in their order.
    pub fn as_slice(&self) -> &[Seat<E>]
        ensures { result.now ≡ self.now.list.items }
    {
        &self.list
    }

    /// The seats as a `Vec`.
    pub fn into_vec(self) -> Vec<Seat<E>>
        ensures { result ≡ self.list }
    {
        self.list
    }

    /// Makes room for at least so many pushes, and takes memory for it. `WantOfMemory` leaves the list as it was.
    pub fn reserve(&mut self, room: usize) -> Result<(), WantOfMemory>
        ensures seats { self.new.list.items ≡ self.old.list.items }
        ensures room { OnOk result (room ≤ vec_capacity self.new.list - vec_len self.new.list) }
        ensures err { OnErr result (vec_capacity self.new.list ≡ vec_capacity self.old.list) }
        ensures granted { room ≤ vec_capacity self.old.list - vec_len self.old.list → IsOk result }
    {
        self.list.reserve(room)?;
        Ok(())
    }

    /// Adds a seat at the end. Where there is room it is granted and takes no memory, else it takes memory for more.
    /// `WantOfMemory` leaves the list as it was.
    pub fn push(&mut self, seat: Seat<E>) -> Result<(), WantOfMemory>
        ensures ok { OnOk result (self.new.list.items ≡ self.old.list.items ++ seat ∷ []) }
        ensures err { OnErr result ((self.new.list.items ≡ self.old.list.items) × (vec_capacity self.new.list ≡ vec_capacity self.old.list)) }
        ensures granted { vec_len self.old.list < vec_capacity self.old.list → IsOk result }
        ensures room { vec_len self.old.list < vec_capacity self.old.list → vec_capacity self.new.list ≡ vec_capacity self.old.list }
    {
        if self.list.len() == self.list.capacity() {
            self.list.reserve(1)?;
        }
        self.list.push_reserved(seat);
        Ok(())
    }
}
