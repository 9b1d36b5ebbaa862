//! The answer of `registers`.
ghost use Rattle.std.specs.Prelude.{All};
ghost use Rattle.question_words.specs.Appends.{Appends, ReturnsText};
ghost use Rattle.question_rows.specs.Registers.{IsRegistersText, NamesKnown, named_words, register_text, register_texts};

use crate::referrers::push_register;
use heap_class::{FirstClasses, Refusal};
use heap_questions::{NamedObject, named_by_registers};
use hprof_text::View;
use question_words::{push_class_name, push_count, push_id, push_words};
use std::alloc::{AllocError, Global};

/// Returns the answer of `registers` about a view. Fails with NoMemory if an allocation fails. Reads each id once.
pub fn registers_answer<V: View>(alloc: Global, view: &V) -> Result<Vec<u8>, Refusal>
    ensures { ReturnsText (IsRegistersText (V.image view.now)) result }
{
    let all = named_by_registers(alloc, view)?;
    let classes = view.classes();
    let mut text = Vec::new(alloc);
    push_lines(&mut text, &classes, all.as_slice())?;
    push_count(&mut text, all.len() as u64)?;
    Ok(text)
}

// Appends the lines of all registers. Fails if an allocation fails.
fn push_lines(
    text: &mut Vec<u8>,
    classes: &FirstClasses<'_>,
    all: &[NamedObject],
) -> Result<(), AllocError>
    requires { All (NamesKnown classes.now) all.now }
    ensures { Appends (register_texts classes.now 0 all.now) text.old.items text.new.items result }
{
    for register in 0..all.len() {
        push_line(text, classes, register as u64, &all[register])?;
    }
    Ok(())
}

// Appends the line of a register. Fails if an allocation fails.
#[tactic(auto, unfolding(crate::specs::Registers::register_text))]
fn push_line(
    text: &mut Vec<u8>,
    classes: &FirstClasses<'_>,
    register: u64,
    named: &NamedObject,
) -> Result<(), AllocError>
    requires { NamesKnown classes.now named.now }
    ensures { Appends (register_text classes.now register named.now)
        text.old.items text.new.items result }
{
    push_words(text, b"row")?;
    push_register(text, register)?;
    push_named(text, classes, named)?;
    push_words(text, b"\n")
}

// Appends what a register names. Fails if an allocation fails.
fn push_named(
    text: &mut Vec<u8>,
    classes: &FirstClasses<'_>,
    named: &NamedObject,
) -> Result<(), AllocError>
    requires { NamesKnown classes.now named.now }
    ensures { Appends (named_words classes.now named.now) text.old.items text.new.items result }
{
    match named.kind {
        Some(kind) => {
            push_id(text, named.id)?;
            push_words(text, b" ")?;
            push_class_name(text, classes, kind)
        }
        None => push_words(text, b" null"),
    }
}
