//! Numbers that threads wait for.
use std::sync::atomic::{AtomicU64, Ordering};
use std::thread::yield_now;

/// The number of times that a thread looks before it gives up waiting.
pub const LOOK_LIMIT: u64 = 100_000_000;

/// A number that threads raise, and that others wait for. No lock guards it.
#[derive(Drop)]
pub struct Count {
    number: AtomicU64,
}

impl Count {
    /// Creates a count of 0.
    pub fn new() -> Count {
        Count {
            number: AtomicU64::new(0),
        }
    }

    /// Raises the number by 1.
    pub fn raise(&self) {
        self.number.fetch_add(1, Ordering::SeqCst);
    }

    /// Returns once the number is at least `least`, or None once it was less at each of LOOK_LIMIT looks. Lets other threads run
    /// between two looks.
    pub fn wait_for(&self, least: u64) -> Option<()> {
        for _ in 0..LOOK_LIMIT {
            if self.number.load(Ordering::SeqCst) >= least {
                return Some(());
            }
            yield_now();
        }
        None
    }
}
