//! The rule of a meter's two words, and the kinds of its seats.
use crate::meter_side::MeterSide;
use crate::seats::SeatKind;
use atomic_table::{Join, Play, Split, TableRule};

/// The rule: the progress word is the sum of the out seat, and no reader saw more. The cancel word is 1 if the asker asked, else
/// 0, and it is 1 if a feeder found it so. A meter has one asker.
pub struct Counts;

impl TableRule<(), MeterSide, ()> for Counts {
    ghost use Rattle.dump_pipe.specs.declared.meter_side.MeterSide.TheVariants.{Whole};
    ghost use Rattle.dump_pipe.specs.Meters.{IsMeter};

    ghost holds = { λ _ s. IsMeter s.words s.views };

    ghost first = { λ _. Whole };
}

/// The kind of the out seat, which adds.
pub struct Adds;

impl SeatKind<u64> for Adds {
    ghost use Rattle.dump_pipe.specs.declared.meter_side.MeterSide.TheVariants.{Out};
    ghost use Rattle.dump_pipe.specs.Meters.{WasAdded};

    ghost view = { Out };

    ghost first = { 0 };

    ghost then = { WasAdded };
}

/// The kind of a reader, which reads.
pub struct Reads;

impl SeatKind<u64> for Reads {
    ghost use Rattle.dump_pipe.specs.declared.meter_side.MeterSide.TheVariants.{Read};
    ghost use Rattle.dump_pipe.specs.Meters.{WasRead};

    ghost view = { Read };

    ghost first = { 0 };

    ghost then = { WasRead };
}

/// The kind of the asker, which asks.
pub struct Asks;

impl SeatKind<bool> for Asks {
    ghost use Rattle.std.specs.Prelude.{false};
    ghost use Rattle.dump_pipe.specs.declared.meter_side.MeterSide.TheVariants.{Ask};
    ghost use Rattle.dump_pipe.specs.Meters.{WasAsked};

    ghost view = { Ask };

    ghost first = { false };

    ghost then = { WasAsked };
}

/// The kind of a feeder, which looks.
pub struct Looks;

impl SeatKind<bool> for Looks {
    ghost use Rattle.std.specs.Prelude.{false};
    ghost use Rattle.dump_pipe.specs.declared.meter_side.MeterSide.TheVariants.{Feed};
    ghost use Rattle.dump_pipe.specs.Meters.{WasLookedAt};

    ghost view = { Feed };

    ghost first = { false };

    ghost then = { WasLookedAt };
}

/// The way in which a new meter's seat is cut in two: the seat that adds, and the one that asks.
pub struct Opens;

impl Split<MeterSide> for Opens {
    ghost use Rattle.std.specs.Prelude.{false};
    ghost use Rattle.dump_pipe.specs.declared.meter_side.MeterSide.TheVariants.{Ask, Out};

    ghost left = { λ _. Out 0 };

    ghost right = { λ _. Ask false };
}

/// The way in which a feeder takes in the asker, and the step by which they compare.
pub struct Settles;

impl Join<MeterSide> for Settles {
    ghost use Rattle.dump_pipe.specs.declared.meter_side.MeterSide.TheVariants.{Met, Read};
    ghost use Rattle.dump_pipe.specs.Seats.{flag};

    ghost both = { λ v w. Met (flag v) (flag w) };

    ghost spent = { Read 0 };
}

impl Play<(), MeterSide> for Settles {
    ghost use Rattle.dump_pipe.specs.Meters.{WasSettled};

    ghost then = { WasSettled };
}
