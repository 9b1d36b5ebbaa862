//! The rule of a start's word, and the kinds of its seats.
use crate::start_side::StartSide;
use atomic_table::{Join, Play, Split, TableRule};

/// The rule: the word is 0, or 1 once the seat that begins was told that it has, or 2 once the seat that waits was told that it
/// gave the thread up. What either seat was told fits the word. A start has one seat of each kind.
pub struct Starts;

impl TableRule<(), StartSide, ()> for Starts {
    ghost use Rattle.std.specs.Prelude.{None};
    ghost use Rattle.dump_pipe.specs.declared.start_side.StartSide.TheVariants.{Both};
    ghost use Rattle.dump_pipe.specs.Starts.{IsStart};

    ghost holds = { λ _ s. IsStart s.words s.views };

    ghost first = { λ _. Both None None };
}

/// A kind of seats of a start.
pub trait StartKind {
    ghost use Rattle.std.specs.Prelude.{ℕ, Bool, Option};
    ghost use Rattle.dump_pipe.specs.declared.start_side.StartSide.{StartSide};

    // The side of a seat that was told this.
    ghost view: { Option Bool → StartSide };

    // What a seat is told that finds this word.
    ghost told: { ℕ → Bool };
}

/// The kind of the seat that begins.
pub struct Begins;

impl StartKind for Begins {
    ghost use Rattle.dump_pipe.specs.declared.start_side.StartSide.TheVariants.{Begins};
    ghost use Rattle.dump_pipe.specs.Starts.{may_begin};

    ghost view = { Begins };

    ghost told = { may_begin };
}

/// The kind of the seat that waits.
pub struct Waits;

impl StartKind for Waits {
    ghost use Rattle.dump_pipe.specs.declared.start_side.StartSide.TheVariants.{Waits};
    ghost use Rattle.dump_pipe.specs.Starts.{has_begun};

    ghost view = { Waits };

    ghost told = { has_begun };
}

/// The way in which a new start's seat is cut in two: the seat that begins, and the one that waits.
pub struct Parts;

impl Split<StartSide> for Parts {
    ghost use Rattle.std.specs.Prelude.{None};
    ghost use Rattle.dump_pipe.specs.declared.start_side.StartSide.TheVariants.{Begins, Waits};

    ghost left = { λ _. Begins None };

    ghost right = { λ _. Waits None };
}

/// The way in which the seat that begins takes in the one that waits, and the step by which they compare.
pub struct Compares;

impl Join<StartSide> for Compares {
    ghost use Rattle.dump_pipe.specs.declared.start_side.StartSide.TheVariants.{Both, Spent};
    ghost use Rattle.dump_pipe.specs.Starts.{told_to};

    ghost both = { λ v w. Both (told_to v) (told_to w) };

    ghost spent = { Spent };
}

impl Play<(), StartSide> for Compares {
    ghost use Rattle.dump_pipe.specs.Starts.{WereCompared};

    ghost then = { WereCompared };
}
