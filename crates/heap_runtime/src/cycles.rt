//! Cycles one after another, at the pace of the mutators.
ghost use Rattle.heap_runtime.specs.Cycles.{MarksCycles, SweepsCycles};

use crate::actor::{Actor, Denial};
use crate::pace::Pace;
use heap_lock::Heap;
use heap_work::{MarkEnd, Open, SweepEnd};
use std::sync::Wait;

/// Why a marker or a sweeper stops before its last cycle.
#[derive(Clone, Copy, PartialEq, Eq, Debug)]
pub enum Halt {
    /// It gave up waiting for the others.
    GaveUp,
    /// It was denied what it asked for.
    Denied(Denial),
    /// The cycle isn't finished.
    Marking(MarkEnd),
    /// Not all regions are swept.
    Sweeping(SweepEnd),
}

impl<'a, L: Heap, R: Wait> Actor<'a, L, R> {
    /// Marks `cycles` cycles as `mark_cycle` does, each once the pace allows it, and keeps the claims of their ends. Fails at the
    /// first that it can't finish, and says why. May wait.
    pub fn mark_cycles(&mut self, pace: &Pace, cycles: u64) -> Result<(), Halt>
        ensures { MarksCycles L.config cycles self.old result self.new }
    {
        for cycle in 0..cycles {
            pace.begin_marking(cycle).ok_or(Halt::GaveUp)?;
            match self.mark_cycle(&mut Open, u64::MAX) {
                Ok(MarkEnd::Finished(_)) => pace.end_marking(),
                Ok(end) => return Err(Halt::Marking(end)),
                Err(denial) => return Err(Halt::Denied(denial)),
            }
        }
        Ok(())
    }

    /// Sweeps all regions after each of `cycles` cycles as `sweep_regions` does, once the pace allows it, and keeps no claims.
    /// Fails at the first cycle after which it can't sweep all, and says why. May wait.
    pub fn sweep_cycles(&mut self, pace: &Pace, cycles: u64) -> Result<(), Halt>
        ensures { SweepsCycles L.config cycles self.old result self.new }
    {
        for cycle in 0..cycles {
            pace.begin_sweeping(cycle).ok_or(Halt::GaveUp)?;
            match self.sweep_regions(&mut Open, u64::MAX) {
                Ok(SweepEnd::Swept) => pace.end_sweeping(),
                Ok(end) => return Err(Halt::Sweeping(end)),
                Err(denial) => return Err(Halt::Denied(denial)),
            }
        }
        Ok(())
    }
}
