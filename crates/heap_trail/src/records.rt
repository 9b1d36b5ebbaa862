//! The records of retained steps, lent to be read.
ghost use Rattle.std.specs.Prelude.{◌≡◌, ◌<◌, Some, slice_get};
ghost use Rattle.heap_trail.specs.Trail.{retained};

use crate::Machine;
use heap_step::Undo;

impl Machine {
    /// Returns the record of the step that led from the state of `n + 1` steps ago to that of `n` steps ago, which must be
    /// retained. Takes no memory.
    pub fn record_ago(&self, n: u64) -> &Undo
        requires { n < retained self.now.trail }
        ensures { slice_get self.now.trail.records n ≡ Some result.now }
    {
        match self.records.nth_front(n as usize) {
            Some(left) => left,
            None => unreachable!(),
        }
    }
}
