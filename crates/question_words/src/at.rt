//! The states that questions are about.
ghost use Rattle.std.specs.Prelude.{◌≡◌, ◌≤◌, Ok, Err, IfOk, IfErr, option_map};
ghost use Rattle.heap_pins.specs.Pin.{pin_image};
ghost use Rattle.heap_trail.specs.Listings.{status_of};
ghost use Rattle.heap_trail.specs.Pins.{pin_at};
ghost use Rattle.heap_trail.specs.Trail.{retained};
ghost use Rattle.question_words.specs.Moments.{ago_at, ago_of_pin, steps_ago, IsMomentOf, IsRefusedAt, image_at, moment_image};
ghost use Rattle.question_words.specs.declared.at.At.TheVariants.{Current, Place};

use heap_class::Refusal;
use heap_pins::{Pin, PinView};
use heap_trail::{Machine, PinStatus};

/// The state that a question is about.
#[derive(Clone, Copy)]
pub enum At {
    /// The current state: `-`.
    Current,
    /// What an open pin shows: its number.
    Pin(u64),
    /// The retained state at a place: `@` and the place.
    Place(u64),
}

/// A state that a question is about, held to be looked at.
#[derive(Drop)]
pub enum Moment {
    /// A pin of the question's own.
    Own(Pin),
    /// The number of an open pin.
    Open(u64),
}

/// Returns how many steps ago the state at a place was, or 0 if no place is given. Fails with NotRetained if it isn't retained.
#[tactic(auto, unfolding(crate::specs::Moments::steps_ago))]
pub fn steps_ago(machine: &Machine, to: Option<u64>) -> Result<u64, Refusal>
    ensures steps { result ≡ steps_ago to machine.now.trail }
    ensures within { IfOk result (λ ago. ago ≤ retained machine.now.trail) }
{
    match to {
        None => Ok(0),
        Some(place) => {
            if machine.has_retained(place) {
                Ok(machine.place() - place)
            } else {
                Err(Refusal::NotRetained)
            }
        }
    }
}

/// Returns how many steps ago the state was that a question is about; a pin stands for its place. Fails with NotRetained if the
/// state isn't retained, with NoPin if no such pin is open, and with Lost and its cause if the pin is lost.
#[tactic(auto, unfolding(crate::specs::Moments::ago_at))]
pub fn ago_at(machine: &Machine, at: At) -> Result<u64, Refusal>
    ensures steps { result ≡ ago_at at machine.now }
    ensures within { IfOk result (λ ago. ago ≤ retained machine.now.trail) }
{
    match at {
        At::Current => Ok(0),
        At::Pin(pin) => ago_of_pin(machine, pin),
        At::Place(place) => steps_ago(machine, Some(place)),
    }
}

// Returns how many steps ago the state at the place of a pin was. Fails with NoPin, Lost and NotRetained.
fn ago_of_pin(machine: &Machine, pin: u64) -> Result<u64, Refusal>
    ensures steps { result ≡ ago_of_pin (pin_at pin machine.now.pins) machine.now.trail }
    ensures within { IfOk result (λ ago. ago ≤ retained machine.now.trail) }
{
    match status_of_pin(machine, pin) {
        Some(PinStatus::Kept { place, .. }) => steps_ago(machine, Some(place)),
        Some(PinStatus::Lost { cause, .. }) => Err(Refusal::Lost { cause }),
        None => Err(Refusal::NoPin),
    }
}

// Returns the status of a pin, or None if no such pin is open.
fn status_of_pin(machine: &Machine, pin: u64) -> Option<PinStatus>
    ensures { result ≡ option_map status_of (pin_at pin machine.now.pins) }
{
    let mut index = 0;
    while let Some(listed) = machine.nth_pin(index) {
        if listed.number == pin {
            return Some(listed.status);
        }
        index += 1;
    }
    None
}

/// Returns the moment that a question is about. Fails with NotRetained if the state of its place isn't retained, and with
/// NoMemory. A pin by its number is looked up when it is viewed.
pub fn moment_at(machine: &Machine, at: At) -> Result<Moment, Refusal>
    ensures image { IfOk result
        (λ h. IsMomentOf machine.now h
        × (moment_image machine.now h ≡ image_at at machine.now)) }
    ensures refused { IfErr result (IsRefusedAt (image_at at machine.now)) }
{
    match at {
        At::Current => moment_now(machine),
        At::Pin(pin) => Ok(Moment::Open(pin)),
        At::Place(place) => moment_of_place(machine, place),
    }
}

// Returns the moment of the current state. Fails with NoMemory.
fn moment_now(machine: &Machine) -> Result<Moment, Refusal>
    ensures image { IfOk result
        (λ h. IsMomentOf machine.now h
        × (moment_image machine.now h ≡ image_at Current machine.now)) }
    ensures refused { IfErr result (IsRefusedAt (image_at Current machine.now)) }
{
    let pin = machine.pin_ago(0)?;
    Ok(Moment::Own(pin))
}

// Returns the moment of a place. Fails with NotRetained if its state isn't retained, and with NoMemory.
fn moment_of_place(machine: &Machine, place: u64) -> Result<Moment, Refusal>
    ensures image { IfOk result
        (λ h. IsMomentOf machine.now h
        × (moment_image machine.now h ≡ image_at (Place place) machine.now)) }
    ensures refused { IfErr result (IsRefusedAt (image_at (Place place) machine.now)) }
{
    if machine.has_retained(place) {
        let pin = machine.pin_ago(machine.place() - place)?;
        Ok(Moment::Own(pin))
    } else {
        Err(Refusal::NotRetained)
    }
}

/// Returns the view of a moment. Fails with NoPin if it is that of a pin that isn't open, and with Lost and its cause if that
/// pin is lost. Takes no memory.
pub fn view_of<'a>(machine: &'a Machine, moment: &'a Moment) -> Result<PinView<'a>, Refusal>
    requires { IsMomentOf machine.now moment.now }
    ensures view { IfOk result
        (λ v. (v.ids ≡ machine.now.ids)
        × (moment_image machine.now moment.now ≡ Ok (pin_image v.pin v.state))) }
    ensures refused { IfErr result (λ e. moment_image machine.now moment.now ≡ Err e) }
{
    match moment {
        Moment::Own(pin) => Ok(machine.view(pin)),
        Moment::Open(pin) => machine.pin_view(*pin),
    }
}
