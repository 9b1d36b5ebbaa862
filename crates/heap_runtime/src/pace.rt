//! The pace of mutators and a collector that work in rounds.
use crate::count::Count;

/// The pace of mutators and a collector that work in rounds: once all mutators have ended a round, a cycle is marked, and swept
/// before the next one begins. No lock guards it. Each wait gives up as `Count::wait_for` does, and returns None.
#[derive(Drop)]
pub struct Pace {
    mutators: u64,
    ahead: u64,
    ended: Count,
    marked: Count,
    swept: Count,
}

impl Pace {
    /// Creates the pace of `mutators` mutators, none of which is more than `ahead` rounds ahead of the sweeper.
    pub fn new(mutators: u64, ahead: u64) -> Pace {
        Pace {
            mutators,
            ahead,
            ended: Count::new(),
            marked: Count::new(),
            swept: Count::new(),
        }
    }

    /// Returns once a mutator may begin the round of this number, counted from 0.
    pub fn begin_round(&self, round: u64) -> Option<()> {
        self.swept.wait_for(round.saturating_sub(self.ahead))
    }

    /// Tells that a mutator has ended a round.
    pub fn end_round(&self) {
        self.ended.raise();
    }

    /// Returns once the cycle of this number, counted from 0, may be marked: all mutators have ended their round of this number,
    /// and the cycle before is swept.
    pub fn begin_marking(&self, cycle: u64) -> Option<()> {
        let rounds = cycle.saturating_add(1);
        self.ended.wait_for(self.mutators.saturating_mul(rounds))?;
        self.swept.wait_for(cycle)
    }

    /// Tells that a cycle is marked.
    pub fn end_marking(&self) {
        self.marked.raise();
    }

    /// Returns once the cycle of this number, counted from 0, is marked, so that it may be swept.
    pub fn begin_sweeping(&self, cycle: u64) -> Option<()> {
        self.marked.wait_for(cycle.saturating_add(1))
    }

    /// Tells that a cycle is swept.
    pub fn end_sweeping(&self) {
        self.swept.raise();
    }
}
