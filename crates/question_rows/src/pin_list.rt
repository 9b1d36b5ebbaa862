//! The answer of `pins`.
ghost use Rattle.std.specs.Prelude.{◌≡◌, flat_map, length, map, IfOk};
ghost use Rattle.heap_trail.specs.Listings.{listed_pin};
ghost use Rattle.question_words.specs.Appends.{Appends, ReturnsText};
ghost use Rattle.question_words.specs.Moments.{told_text};
ghost use Rattle.question_rows.specs.PinLists.{IsPinsText, pin_text, pins_text, status_words};

use heap_class::Refusal;
use heap_trail::{ListedPin, Machine, PinStatus};
use question_words::{Unanswered, push_count, push_number, push_row, push_words};
use session_text::cause_word;
use std::alloc::{AllocError, Global};

/// Returns the answer of `pins`. Fails with NoMemory if an allocation fails.
pub fn pins_answer(alloc: Global, machine: &Machine) -> Result<Vec<u8>, Unanswered>
    ensures { IsPinsText machine.now.pins (told_text result) }
{
    Ok(pins_text(alloc, machine)?)
}

// Returns the lines of the open pins, and their number. Fails with NoMemory.
fn pins_text(alloc: Global, machine: &Machine) -> Result<Vec<u8>, Refusal>
    ensures { ReturnsText (λ text. text ≡ pins_text machine.now.pins) result }
{
    let mut text = Vec::new(alloc);
    let count = push_pins(&mut text, machine)?;
    push_count(&mut text, count)?;
    Ok(text)
}

// Appends the lines of the open pins, and returns their number. Fails if an allocation fails.
fn push_pins(text: &mut Vec<u8>, machine: &Machine) -> Result<u64, AllocError>
    ensures appended { Appends (flat_map pin_text (map listed_pin machine.now.pins.open_pins))
        text.old.items text.new.items result }
    ensures count { IfOk result (λ n. n ≡ length machine.now.pins.open_pins) }
{
    let mut count = 0;
    while let Some(pin) = machine.nth_pin(count) {
        push_pin(text, pin)?;
        count += 1;
    }
    Ok(count)
}

// Appends the line of a pin. Fails if an allocation fails.
#[tactic(auto, unfolding(crate::specs::PinLists::pin_text))]
fn push_pin(text: &mut Vec<u8>, pin: ListedPin) -> Result<(), AllocError>
    ensures { Appends (pin_text pin) text.old.items text.new.items result }
{
    push_row(text, pin.number)?;
    push_status(text, pin.status)?;
    push_words(text, b"\n")
}

// Appends a pin's place, and the number of the pieces given or why the pin is lost. Fails if an allocation fails.
#[tactic(auto, unfolding(crate::specs::PinLists::status_words))]
fn push_status(text: &mut Vec<u8>, status: PinStatus) -> Result<(), AllocError>
    ensures { Appends (status_words status) text.old.items text.new.items result }
{
    match status {
        PinStatus::Kept { place, given } => {
            push_number(text, place)?;
            push_words(text, b" held")?;
            push_number(text, given)
        }
        PinStatus::Lost { place, cause } => {
            push_number(text, place)?;
            push_words(text, b" lost ")?;
            push_words(text, cause_word(cause))
        }
    }
}
