use crate::lots::Lots;
use apl_io::Gate;
use std::sync::Wait;
use std::sync::atomic::{AtomicU64, Ordering};

/// A gate at which some parties dawdle before some of their turns: how long is drawn by lot, so that turns fall otherwise from
/// bundle to bundle.
#[derive(Drop)]
pub struct Dawdling {
    seed: u64,
    looks: AtomicU64,
}

impl Dawdling {
    /// The gate of a seed.
    pub fn of(seed: u64) -> Self {
        Dawdling {
            seed,
            looks: AtomicU64::new(0),
        }
    }
}

impl Gate for Dawdling {
    fn pass<R: Wait>(&self, _rt: &R, party: u32, turn: u64) {
        let mut lots = Lots::of(self.seed.wrapping_add(u64::from(party)).wrapping_add(turn));
        let most = lots.below(4).saturating_mul(1000);
        for _look in 0..lots.below(most) {
            let _looks = self.looks.load(Ordering::SeqCst);
        }
    }
}
