//! The answer of `life`.
ghost use Rattle.std.specs.Prelude.{All, flat_map};
ghost use Rattle.question_words.specs.Appends.{Appends, ReturnsText};
ghost use Rattle.question_rows.specs.Lives.{AreLivesTold, IsLifeText, and_loss, and_place_or, life_line};
ghost use Rattle.question_words.specs.Moments.{told_text};
ghost use Rattle.question_words.specs.Names.{IsClassThere};

use heap_class::{FirstClasses, Refusal};
use heap_questions::{Life, Loss, lives_of};
use heap_trail::Machine;
use question_words::{Unanswered, push_class_name, push_count, push_number, push_words};
use std::alloc::{AllocError, Global};

/// Returns the answer of `life`. Fails with NoMemory if an allocation fails.
pub fn life_answer(alloc: Global, machine: &Machine, id: u64) -> Result<Vec<u8>, Unanswered>
    ensures { IsLifeText id machine.now.trail (told_text result) }
{
    Ok(lives_text(alloc, machine, id)?)
}

// Returns the lines of the objects that had the id, and their number. Fails with NoMemory.
fn lives_text(alloc: Global, machine: &Machine, id: u64) -> Result<Vec<u8>, Refusal>
    ensures { ReturnsText (AreLivesTold id machine.now.trail) result }
{
    // Its contract says that the retained states are legal.
    let _place = machine.place();
    let lives = lives_of(alloc, machine, id)?;
    let classes = machine.world().classes().all();
    let mut text = Vec::new(alloc);
    push_lives(&mut text, &classes, lives.as_slice())?;
    push_count(&mut text, lives.len() as u64)?;
    Ok(text)
}

// Appends the lines of all. Fails if an allocation fails.
fn push_lives(
    text: &mut Vec<u8>,
    classes: &FirstClasses<'_>,
    lives: &[Life],
) -> Result<(), AllocError>
    requires { All (λ l. IsClassThere classes.now l.kind) lives.now }
    ensures { Appends (flat_map (life_line classes.now) lives.now)
        text.old.items text.new.items result }
{
    for life in lives {
        push_life(text, classes, *life)?;
    }
    Ok(())
}

// Appends the line of an object. Fails if an allocation fails.
#[tactic(auto, unfolding(crate::specs::Lives::life_line))]
fn push_life(text: &mut Vec<u8>, classes: &FirstClasses<'_>, life: Life) -> Result<(), AllocError>
    requires { IsClassThere classes.now life.kind }
    ensures { Appends (life_line classes.now life) text.old.items text.new.items result }
{
    push_words(text, b"row ")?;
    push_class_name(text, classes, life.kind)?;
    push_place_or(text, b" older", life.born)?;
    push_loss(text, life.lost)?;
    push_place_or(text, b" -", life.swept)?;
    push_words(text, b"\n")
}

// Appends a space and a place, or these words if there is none. Fails if an allocation fails.
fn push_place_or(text: &mut Vec<u8>, words: &[u8], place: Option<u64>) -> Result<(), AllocError>
    ensures { Appends (and_place_or words.now place) text.old.items text.new.items result }
{
    match place {
        Some(place) => push_number(text, place),
        None => push_words(text, words),
    }
}

// Appends when registers lost an object. Fails if an allocation fails.
fn push_loss(text: &mut Vec<u8>, lost: Loss) -> Result<(), AllocError>
    ensures { Appends (and_loss lost) text.old.items text.new.items result }
{
    match lost {
        Loss::Reached => push_words(text, b" -"),
        Loss::At(place) => push_number(text, place),
        Loss::Older => push_words(text, b" older"),
    }
}
