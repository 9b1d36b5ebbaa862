//! What a session and the thread beside it share.
use crate::progress::Progress;
use std::alloc::Global;
use std::sync::{Condvar, Mutex, MutexGuard, Wait};
use std::time::Clock;

/// Says on standard error for how many seconds a line of a session is being answered, from the first second on, once a second, on
/// one line that is written anew. The session's thread says when lines begin and end, and another shows it. Whoever writes to
/// standard error has a lock meanwhile, so that nothing is shown any more once a line has ended.
#[derive(Drop)]
pub struct Ticker {
    progress: Mutex<Progress>,
    changed: Condvar,
}

impl Ticker {
    /// Creates a ticker of a session that has read no line.
    pub fn new(alloc: Global) -> Ticker {
        Ticker {
            progress: Mutex::new(Progress::new(alloc)),
            changed: Condvar::new(),
        }
    }

    // Notes that a line is being answered from now on.
    pub(crate) fn begin<R: Clock + Wait>(&self, rt: &R, line: &[u8]) {
        let mut progress = self.progress.lock(rt);
        progress.begin(rt, line);
        if progress.is_asleep {
            self.changed.notify_one();
        }
    }

    // Notes that no line is being answered any more, and clears what is shown.
    pub(crate) fn end<R: Eprint + Wait>(&self, rt: &R) {
        self.progress.lock(rt).end(rt);
    }

    /// Shows for how long lines are being answered, until it is stopped. May wait.
    pub fn tick<R: Clock + Eprint + Wait>(&self, rt: &R) {
        let mut progress = self.progress.lock(rt);
        for _ in rt.forever() {
            if progress.is_over {
                break;
            }
            progress = match progress.show(rt) {
                Some(left) => self.changed.wait_timeout(rt, progress, left).0,
                None => self.sleep(rt, progress),
            };
        }
    }

    // Waits until a line begins, or the ticker is stopped.
    fn sleep<'a, R: Wait>(
        &self,
        rt: &R,
        progress: MutexGuard<'a, Progress>,
    ) -> MutexGuard<'a, Progress> {
        let mut progress = progress;
        progress.is_asleep = true;
        let mut progress = self.changed.wait(rt, progress);
        progress.is_asleep = false;
        progress
    }

    /// Stops the thread that shows it, and clears what is shown. May wait.
    pub fn stop<R: Eprint + Wait>(&self, rt: &R) {
        let mut progress = self.progress.lock(rt);
        progress.end(rt);
        progress.is_over = true;
        self.changed.notify_one();
    }
}
