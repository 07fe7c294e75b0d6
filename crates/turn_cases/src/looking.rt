//! What is looked at once the threads are done.
use crate::log::Log;
use crate::turns::Plan;
use case_tables::Looks;
use std::alloc::{AllocError, Global};
use sv_turn::{History, Seat};

// How often each place stands among those of all seats; the place 0 is nobody's.
fn marks_of(alloc: Global, len: usize, seats: &[Seat<u32>]) -> Result<Vec<u32>, AllocError> {
    let mut marks = Vec::new(alloc);
    marks.resize(len.saturating_add(1), 0u32)?;
    for seat in seats {
        for place in seat.mine() {
            if let Some(mark) = marks.get_mut(*place as usize) {
                *mark = mark.saturating_add(1);
            }
        }
    }
    Ok(marks)
}

fn places_in_all(seats: &[Seat<u32>]) -> u64 {
    let mut places = 0u64;
    for seat in seats {
        places = places.saturating_add(seat.mine().len() as u64);
    }
    places
}

// Whether each place of a seat is one of the journal, and the entry there is its party's.
fn are_own(log: &Log, seat: &Seat<u32>) -> bool {
    for place in seat.mine() {
        if *place == 0 || *place > log.len() || log.party_at(*place) != seat.party() {
            return false;
        }
    }
    true
}

fn ascend(places: &[u64]) -> bool {
    let mut last = 0;
    for place in places {
        if *place <= last {
            return false;
        }
        last = *place;
    }
    true
}

/// Looks at the journal and at the places of the seats, where so many entries of each seat that took turns are wanted.
pub fn look_at(
    alloc: Global,
    log: &Log,
    seats: &[Seat<u32>],
    plan: Plan,
    each: u32,
    looks: &mut Looks,
) -> Result<(), AllocError> {
    let wanted = u64::from(each).saturating_mul(u64::from(plan.entering));
    looks.holds(log.len() == wanted);
    looks.holds(places_in_all(seats) == wanted);
    looks.holds(seats.len() as u64 == u64::from(plan.seats));
    let marks = marks_of(alloc, log.len() as usize, seats)?;
    looks.holds(marks.iter().skip(1).all(|mark| *mark == 1));
    for seat in seats {
        let own = if seat.party() <= plan.entering {
            each
        } else {
            0
        };
        looks.holds(seat.mine().len() as u64 == u64::from(own));
        looks.holds(are_own(log, seat) && ascend(seat.mine()));
    }
    Ok(())
}
