use crossbeam_utils::CachePadded;
use crossbeam_utils::sync::EventCount;
use std::sync::Wait;
use std::sync::atomic::{AtomicBool, AtomicU64, Ordering};

/// A bell that wakes the workers which wait, and a mark beside it that is set for good.
#[derive(Drop)]
pub struct Bell {
    // How often it was rung. Each entry writes it, so it stands in a line of the cache of its own.
    rings: CachePadded<AtomicU64>,
    is_marked: AtomicBool,
    rung: EventCount,
}

impl Bell {
    /// A bell that nobody rang. It takes no memory.
    pub fn new() -> Bell {
        Bell {
            rings: CachePadded::new(AtomicU64::new(0)),
            is_marked: AtomicBool::new(false),
            rung: EventCount::new(),
        }
    }

    /// Rings the bell.
    pub fn ring(&self) {
        self.rings.fetch_add(1, Ordering::SeqCst);
        self.rung.notify_all();
    }

    /// Sets the mark, and rings the bell.
    pub fn mark(&self) {
        self.is_marked.store(true, Ordering::SeqCst);
        self.ring();
    }

    /// Whether the mark is set.
    pub fn is_marked(&self) -> bool {
        self.is_marked.load(Ordering::SeqCst)
    }

    // How often it was rung: a worker looks before it gives its tasks their turns.
    pub(crate) fn count(&self) -> u64 {
        self.rings.load(Ordering::SeqCst)
    }

    // Waits until it was rung since then. No ring is missed: a worker says that it waits before it looks at the count, and who
    // rings counts before it looks whether somebody waits, so one of the two sees the other.
    pub(crate) fn wait_past<R: Wait>(&self, rt: &R, seen: u64) {
        for _ in rt.forever() {
            let key = self.rung.prepare_wait();
            if self.count() != seen {
                return;
            }
            key.wait(rt);
        }
        unreachable!()
    }
}
