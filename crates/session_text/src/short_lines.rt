//! Lines that ask for a step in their shortest form: single spaces, none at the end.
ghost use Rattle.std.specs.Prelude.{◌≡◌, ◌≤◌, Some, codes, length, take, drop, IfSome};
ghost use Rattle.session_grammar.specs.Grammar.{words_of_line, one_number, two_numbers, three_numbers, four_numbers};
ghost use Rattle.session_grammar.specs.Lines.{NoLf};
ghost use Rattle.session_text.specs.Mutators.{AreThreeThen, IsDigitThen, IsShortLine};

use crate::buffer::LF;
use heap_step::{
    ClearEvent, IntoEvent, LoadEvent, MarkEvent, MoveEvent, NewEvent, PutEvent, StoreEvent,
};
use session_grammar::number::{digit_then, number_then};
use session_grammar::words::SPACE;

/// An event that a line may ask for in its shortest form.
pub trait ShortLine: IntoEvent + Sized {
    ghost use Rattle.std.specs.Prelude.{◌≡◌, ℕ, List, take, IfSome};
    ghost use Rattle.heap_trail.specs.declared.Action.TheVariants.{Step};
    ghost use Rattle.session_grammar.specs.declared.command.Command.TheVariants.{Ask};
    ghost use Rattle.session_grammar.specs.Grammar.{command_of_text};
    ghost use Rattle.session_text.specs.Mutators.{IsShortLine};

    ghost begins: { List ℕ → Type 0 };

    /// Returns the event that the first line of a text asks for, and the line's end, or None if it has another form. The text
    /// must begin with the event's verb.
    fn read(text: &[u8]) -> Option<(Self, usize)>
        requires { begins text.now }
        ensures line { IfSome result (λ r. IsShortLine r.1 text.now) }
        ensures asks { IfSome result
            (λ r. command_of_text (take r.1 text.now) ≡ Ask (Step (Self.event r.0))) };
}

// Returns the number that the first line of a text has from a place on, and the line's end, or None if it has others.
#[inline(always)]
pub(crate) fn one_in(text: &[u8], at: usize) -> Option<(u64, usize)>
    requires { (at ≤ 7) × (at ≤ length text.now) × NoLf (take at text.now) }
    ensures line { IfSome result (λ r. IsShortLine r.1 text.now × (at ≤ r.1)) }
    ensures number { IfSome result
        (λ r. one_number (words_of_line (drop at (take r.1 text.now))) ≡ Some r.0) }
{
    let (n, end) = number_then(text, at, LF);
    if end == text.len() {
        return None;
    }
    Some((n, end))
}

// Returns the two numbers that the first line of a text has from a place on, and the line's end, or None if it has others.
#[inline(always)]
fn two_in(text: &[u8], at: usize) -> Option<(u64, u64, usize)>
    requires { (at ≤ 6) × (at ≤ length text.now) × NoLf (take at text.now) }
    ensures line { IfSome result (λ r. IsShortLine r.2 text.now × (at ≤ r.2)) }
    ensures numbers { IfSome result
        (λ r. two_numbers (words_of_line (drop at (take r.2 text.now))) ≡ Some (r.0, r.1)) }
{
    let (a, end) = number_then(text, at, SPACE);
    let (b, end) = number_then(text, end + 1, LF);
    if end == text.len() {
        return None;
    }
    Some((a, b, end))
}

// Returns the three numbers that the first line of a text has from a place on, and the line's end, or None if it has others.
#[inline(always)]
fn three_in(text: &[u8], at: usize) -> Option<(u64, u64, u64, usize)>
    requires { (at ≤ 6) × (at ≤ length text.now) × NoLf (take at text.now) }
    ensures line { IfSome result (λ r. IsShortLine r.3 text.now × (at ≤ r.3)) }
    ensures numbers { IfSome result
        (λ r. three_numbers (words_of_line (drop at (take r.3 text.now))) ≡ Some (r.0, r.1, r.2)) }
{
    let (a, b, c, end) = three_then(text, at, LF);
    if end == text.len() {
        return None;
    }
    Some((a, b, c, end))
}

// Returns the three numbers at a place, if a space ends the first two and this byte the last, and that byte's place; or the
// text's end if there are no such numbers.
#[inline(always)]
fn three_then(text: &[u8], at: usize, ender: u8) -> (u64, u64, u64, usize)
    requires { at ≤ length text.now }
    ensures numbers { AreThreeThen text.now at ender result.0 result.1 result.2 result.3 }
    ensures within { result.3 ≤ length text.now }
{
    if let Some((a, b, c)) = three_digits(&text[at..], ender) {
        return (a, b, c, at + 5);
    }
    let (a, end) = number_then(text, at, SPACE);
    let (b, end) = number_then(text, end + 1, SPACE);
    let (c, end) = number_then(text, end + 1, ender);
    (a, b, c, end)
}

// Returns the three numbers of one digit that a text begins with, each with a space behind it, and the last with this byte, or
// None if it begins with others.
#[inline(always)]
fn three_digits(text: &[u8], ender: u8) -> Option<(u64, u64, u64)>
    ensures { IfSome result
        (λ r. IsDigitThen text.now 0 SPACE r.0 × IsDigitThen text.now 2 SPACE r.1
        × IsDigitThen text.now 4 ender r.2) }
{
    let [a, after_a, b, after_b, c, after_c, ..] = text else {
        return None;
    };
    let a = digit_then(*a, *after_a, SPACE)?;
    let b = digit_then(*b, *after_b, SPACE)?;
    let c = digit_then(*c, *after_c, ender)?;
    Some((a, b, c))
}

// Returns the four numbers that the first line of a text has from a place on, and the line's end, or None if it has others.
#[inline(always)]
fn four_in(text: &[u8], at: usize) -> Option<(u64, u64, u64, u64, usize)>
    requires { (at ≤ 6) × (at ≤ length text.now) × NoLf (take at text.now) }
    ensures line { IfSome result (λ r. IsShortLine r.4 text.now × (at ≤ r.4)) }
    ensures numbers { IfSome result
        (λ r. four_numbers (words_of_line (drop at (take r.4 text.now)))
        ≡ Some (r.0, r.1, r.2, r.3)) }
{
    let (a, b, c, end) = three_then(text, at, SPACE);
    let (d, end) = number_then(text, end + 1, LF);
    if end == text.len() {
        return None;
    }
    Some((a, b, c, d, end))
}

// `load M TO FROM SLOT`.
impl ShortLine for LoadEvent {
    ghost use Rattle.std.specs.Prelude.{codes};
    ghost use Rattle.session_text.specs.Mutators.{FollowsIn};

    ghost begins = { λ text. FollowsIn (codes "load") text 5 };

    #[inline(always)]
    #[tactic(auto, using(crate::proofs::QuickLines::load_asks))]
    fn read(text: &[u8]) -> Option<(LoadEvent, usize)> {
        let (m, to, from, slot, end) = four_in(text, 5)?;
        Some((LoadEvent { m, to, from, slot }, end))
    }
}

// `store M TARGET SLOT SOURCE`.
impl ShortLine for StoreEvent {
    ghost use Rattle.std.specs.Prelude.{codes};
    ghost use Rattle.session_text.specs.Mutators.{FollowsIn};

    ghost begins = { λ text. FollowsIn (codes "store") text 6 };

    #[inline(always)]
    #[tactic(auto, using(crate::proofs::QuickLines::store_asks))]
    fn read(text: &[u8]) -> Option<(StoreEvent, usize)> {
        let (m, target, slot, source, end) = four_in(text, 6)?;
        Some((
            StoreEvent {
                m,
                target,
                slot,
                source,
            },
            end,
        ))
    }
}

// `put M TARGET SLOT VALUE`.
impl ShortLine for PutEvent {
    ghost use Rattle.std.specs.Prelude.{codes};
    ghost use Rattle.session_text.specs.Mutators.{FollowsIn};

    ghost begins = { λ text. FollowsIn (codes "put") text 4 };

    #[inline(always)]
    #[tactic(auto, using(crate::proofs::QuickLines::put_asks))]
    fn read(text: &[u8]) -> Option<(PutEvent, usize)> {
        let (m, target, slot, value, end) = four_in(text, 4)?;
        Some((
            PutEvent {
                m,
                target,
                slot,
                value,
            },
            end,
        ))
    }
}

// `move M TO FROM_M FROM`.
impl ShortLine for MoveEvent {
    ghost use Rattle.std.specs.Prelude.{codes};
    ghost use Rattle.session_text.specs.Mutators.{FollowsIn};

    ghost begins = { λ text. FollowsIn (codes "move") text 5 };

    #[inline(always)]
    #[tactic(auto, using(crate::proofs::QuickLines::move_asks))]
    fn read(text: &[u8]) -> Option<(MoveEvent, usize)> {
        let (m, to, from_m, from, end) = four_in(text, 5)?;
        Some((
            MoveEvent {
                m,
                to,
                from_m,
                from,
            },
            end,
        ))
    }
}

// `clear M R`.
impl ShortLine for ClearEvent {
    ghost use Rattle.std.specs.Prelude.{codes};
    ghost use Rattle.session_text.specs.Mutators.{FollowsIn};

    ghost begins = { λ text. FollowsIn (codes "clear") text 6 };

    #[inline(always)]
    #[tactic(auto, using(crate::proofs::QuickLines::clear_asks))]
    fn read(text: &[u8]) -> Option<(ClearEvent, usize)> {
        let (m, r, end) = two_in(text, 6)?;
        Some((ClearEvent { m, r }, end))
    }
}

// `new M R CLASS`.
impl ShortLine for NewEvent {
    ghost use Rattle.std.specs.Prelude.{codes};
    ghost use Rattle.session_text.specs.Mutators.{FollowsIn};

    ghost begins = { λ text. FollowsIn (codes "new") text 4 };

    #[inline(always)]
    #[tactic(auto, using(crate::proofs::QuickLines::new_asks))]
    fn read(text: &[u8]) -> Option<(NewEvent, usize)> {
        let (m, r, class, end) = three_in(text, 4)?;
        Some((NewEvent { m, r, class }, end))
    }
}

// `mark`.
impl ShortLine for MarkEvent {
    ghost use Rattle.std.specs.Prelude.{◌≡◌, codes, take};
    ghost use Rattle.session_text.specs.Mutators.{IsShortLine};

    ghost begins = { λ text. IsShortLine 4 text × (take 4 text ≡ codes "mark") };

    #[inline(always)]
    fn read(_text: &[u8]) -> Option<(MarkEvent, usize)> {
        Some((MarkEvent, 4))
    }
}
