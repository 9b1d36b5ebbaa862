//! Trials, each on a new machine.
use super::drive::is_driven;
use super::pin_pump::is_pumped;
use super::saves::is_saved_beside_pins;
use crate::scripts::{new, point};
use heap_lock::{Config, Event, Machine};
use session_text::Local;
use std::alloc::Global;
use std::sync::Wait;
use std::thread::Threads;

/// A trial. The function of the same name says what it is.
#[derive(Clone, Copy)]
pub enum Trial {
    IsDriven,
    IsPumped,
    IsSavedBesidePins,
}

/// Holds a trial on a new machine, which keeps two steps. Returns whether all goes as it must.
pub fn goes_alone<R: Threads + Wait + Sync>(rt: &R, alloc: Global, trial: Trial) -> bool {
    let Some(config) = Config::new(1, 1, 2) else {
        return false;
    };
    match Machine::new(alloc, config) {
        Ok(machine) => {
            let mut local = Local::new(machine);
            goes(rt, alloc, &mut local, trial)
        }
        Err(_) => false,
    }
}

// Holds a trial on a machine. Returns whether all goes as it must.
fn goes<R: Threads + Wait + Sync>(rt: &R, alloc: Global, local: &mut Local, trial: Trial) -> bool {
    match trial {
        Trial::IsDriven => is_driven(alloc, &mut local.machine),
        Trial::IsPumped => is_pumped(alloc, &mut local.machine),
        Trial::IsSavedBesidePins => is_saved_beside_pins(rt, alloc, local),
    }
}

/// Takes a step. Returns whether it was answered.
pub fn takes(machine: &mut Machine, event: Event) -> bool {
    machine.step(&event).is_ok()
}

/// Defines the class of points and makes one in the first register. Returns whether both were answered.
pub fn has_point(alloc: Global, machine: &mut Machine) -> bool {
    match point(alloc) {
        Ok(class) => takes(machine, class) && takes(machine, new(0)),
        Err(_) => false,
    }
}
