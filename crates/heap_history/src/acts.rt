//! An act on a machine, with its entry.
ghost use Rattle.std.specs.Prelude.{◌≡◌, ◌≢◌, ◌<◌, ◌≤◌, false, length, IfErr, IfOk, MatchBool, MatchOption, OnErr, OnOk};
ghost use Rattle.heap_class.specs.declared.Refusal.TheVariants.{NoMemory};
ghost use Rattle.heap_trail.specs.Limits.{last_place};
ghost use Rattle.heap_trail.specs.Machine.{is_dump_action};
ghost use Rattle.heap_history.specs.Acts.{IsEntered, IsNotEntered};
ghost use Rattle.heap_history.specs.History.{entry, Enters};
ghost use Rattle.heap_history.specs.Limits.{entry_limit};

use crate::chronicle::Chronicle;
use crate::entry::{Entry, Outcome};
use heap_class::Refusal;
use heap_trail::{Action, Machine};
use std::snapshot::Snapshot;

// Does an event or a rewind and returns the answer, or None if an allocation failed.
fn take_step(machine: &mut Machine, action: &Action) -> Option<Outcome>
    requires deed { is_dump_action action.now ≡ false }
    requires place { machine.old.trail.place < last_place }
    ensures { MatchOption result (machine.new ≡ machine.old)
        (λ o. Enters machine.old action.now machine.new o) }
{
    match action {
        Action::Step(event) => match machine.step(event) {
            Ok(answer) => Some(Outcome::Answered(answer)),
            Err(refusal) => {
                if is_no_memory(refusal) {
                    None
                } else {
                    Some(Outcome::Refused(refusal))
                }
            }
        },
        Action::Rewind(n) => match machine.rewind(*n) {
            Ok(place) => Some(Outcome::Place(place)),
            Err(refusal) => Some(Outcome::Refused(refusal)),
        },
        _ => unreachable!(),
    }
}

// Tells whether an allocation failed.
fn is_no_memory(refusal: Refusal) -> bool
    ensures { MatchBool result (refusal ≡ NoMemory) (refusal ≢ NoMemory) }
{
    matches!(refusal, Refusal::NoMemory)
}

impl Chronicle {
    // Makes room for an entry, does an event or a rewind, and returns the answer; the entry is still to be pushed. Fails with
    // ChronicleFull or NoMemory; then the machine is as before.
    fn try_step(&mut self, machine: &mut Machine, action: &Action) -> Result<Outcome, Refusal>
        requires deed { is_dump_action action.now ≡ false }
        requires place { machine.old.trail.place ≤ length self.old.entries }
        ensures moves { IfOk result (λ o. Enters machine.old action.now machine.new o) }
        ensures room { OnOk result
            ((0 < self.new.room) × (length self.new.entries < entry_limit self.new.rolls)) }
        ensures entries { (self.new.entries ≡ self.old.entries)
            × (self.new.rolls ≡ self.old.rolls) }
        ensures refused { IfErr result (λ e. IsNotEntered e self.old self.new) }
        ensures unchanged { OnErr result (machine.new ≡ machine.old) }
    {
        if self.is_full() {
            return Err(Refusal::ChronicleFull);
        }
        self.reserve()?;
        let Some(answer) = take_step(machine, action) else {
            return Err(Refusal::NoMemory);
        };
        Ok(answer)
    }

    /// Does an event or a rewind of a seat on a machine, and appends the entry with its answer; a refused one is an entry too.
    /// Returns the answer, and the entry for contracts. Fails with ChronicleFull if the chronicle takes no more entries, and
    /// with NoMemory; then machine and entries are as before.
    pub fn act(
        &mut self,
        machine: &mut Machine,
        seat: u64,
        action: Action,
    ) -> Result<(Outcome, Snapshot<Entry>), Refusal>
        requires deed { is_dump_action action ≡ false }
        requires place { machine.old.trail.place ≤ length self.old.entries }
        ensures moves { IfOk result (λ r. Enters machine.old action machine.new r.0) }
        ensures entered { IfOk result (λ r. IsEntered (entry seat action r.0) self.old self.new) }
        ensures seen { IfOk result (λ r. r.1.value ≡ entry seat action r.0) }
        ensures refused { IfErr result (λ e. IsNotEntered e self.old self.new) }
        ensures unchanged { OnErr result (machine.new ≡ machine.old) }
    {
        let answer = self.try_step(machine, &action)?;
        let entry = Entry {
            seat,
            action,
            answer,
        };
        let seen = Snapshot::of(&entry);
        self.push(entry);
        Ok((answer, seen))
    }
}
