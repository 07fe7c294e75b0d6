use apl_io::Gate;
use std::sync::Wait;
use std::sync::atomic::{AtomicU64, Ordering};

/// How often a user looks whether the others have come, before it goes on alone.
const MOST_LOOKS: u64 = 100_000_000;

/// The greatest number of an auxiliary party.
const LAST_AUXILIARY: u32 = 1000;

/// A gate at which users meet: before its first turn each waits until so many have come there. Where none are to meet it stands
/// open. An auxiliary passes at once.
#[derive(Drop)]
pub struct Meeting {
    users: u64,
    came: AtomicU64,
    went_alone: AtomicU64,
}

impl Meeting {
    /// A gate at which so many users are to meet, and nobody has come.
    pub fn of(users: u64) -> Self {
        Meeting {
            users,
            came: AtomicU64::new(0),
            went_alone: AtomicU64::new(0),
        }
    }

    /// Whether all users that were to meet have met.
    pub fn have_met(&self) -> bool {
        self.came.load(Ordering::SeqCst) >= self.users
            && self.went_alone.load(Ordering::SeqCst) == 0
    }

    /// How many users have come to their first turns.
    pub fn came(&self) -> u64 {
        self.came.load(Ordering::SeqCst)
    }

    /// Forgets who has come: the gate stands as it was made, for a run that is made once more.
    pub fn reset(&self) {
        self.came.store(0, Ordering::SeqCst);
        self.went_alone.store(0, Ordering::SeqCst);
    }

    // Waits until all have come; whoever looked too often goes on alone.
    fn wait(&self) {
        for _look in 0..MOST_LOOKS {
            if self.came.load(Ordering::SeqCst) >= self.users {
                return;
            }
        }
        self.went_alone.store(1, Ordering::SeqCst);
    }
}

impl Gate for Meeting {
    fn pass<R: Wait>(&self, _rt: &R, party: u32, turn: u64) {
        if turn == 1 && party > LAST_AUXILIARY {
            self.came.fetch_add(1, Ordering::SeqCst);
            self.wait();
        }
    }
}
