//! Meters, and the making of one with its seats.
ghost use Rattle.std.specs.Prelude.{◌≡◌, ◌<◌, ◌≤◌, All, [], length, IfOk, false};
ghost use Rattle.dump_pipe.specs.declared.meter_side.MeterSide.TheVariants.{Out};
ghost use Rattle.dump_pipe.specs.Seats.{knows, meter_seat_limit};

use crate::cancel::Cancel;
use crate::meter_side::MeterSide;
use crate::progress::Progress;
use crate::rule::{Counts, Opens};
use crate::seats::{AskSeat, FeedSeat, MeterSeat, OutSeat, ReadSeat};
use crate::word::Word;
use atomic_table::{Seat, Shared, Table};
use std::alloc::{AllocError, Global};
use std::marker::Model;

/// The largest number of seats that read.
pub const SEAT_LIMIT: usize = 16;

/// A progress word and a cancel word. Contracts see which meter it is.
#[derive(Drop)]
pub struct Meter {
    table: Table<(), MeterSide, (), Counts, Global>,
}

impl Model for Meter {
    ghost use Rattle.std.specs.Prelude.{◌≡◌};
    ghost use Rattle.atomic_table.specs.Seated.{TableId, table_id_coded};

    ghost Value = { TableId };

    ghost coded = { table_id_coded };

    ghost view = { λ m. m.table.shared.table_id };

    ghost invariant = { λ m. m.table.shared.table_id.words ≡ 2 };
}

/// A meter with its seats: one that adds, those that read, one that asks, and one that looks whether it did.
#[derive(Drop)]
pub struct NewMeter {
    /// The meter.
    pub meter: Meter,
    /// The seat that adds.
    pub out: OutSeat,
    /// The seats that read.
    pub readers: Vec<ReadSeat>,
    /// The seat that asks.
    pub asker: AskSeat,
    /// The seat that looks whether it asked.
    pub feed: FeedSeat,
}

// Creates `count` seats that read, beside the one that adds. Fails if an allocation fails.
fn new_readers(
    alloc: Global,
    table: &Shared<(), MeterSide, (), Counts>,
    out: &mut Seat<(), MeterSide>,
    count: usize,
) -> Result<Vec<ReadSeat>, AllocError>
    requires table { (out.old.table_id ≡ table.now.table_id) × (0 < table.now.table_id.words) }
    requires adds { out.old.me ≡ (Out 0, []) }
    ensures out { (out.new.table_id ≡ out.old.table_id) × (out.new.me ≡ out.old.me) }
    ensures count { IfOk result (λ v. length v.items ≡ count) }
    ensures seats { IfOk result (λ v. All (λ s. s ≡ knows table.now.table_id 0) v.items) }
{
    let mut seats = Vec::new(alloc);
    for _ in 0..count {
        let seat = table.split_seat::<ReadSeat>(out);
        seats.push(MeterSeat::of(seat))?;
    }
    Ok(seats)
}

impl Meter {
    /// Creates a meter at 0 that nobody asked to cancel, with `readers` seats that read, at most 16. Fails if an allocation
    /// fails.
    pub fn new(alloc: Global, readers: usize) -> Result<NewMeter, AllocError>
        requires { readers ≤ meter_seat_limit }
        ensures out { IfOk result (λ m. m.out ≡ knows m.meter 0) }
        ensures reader_count { IfOk result (λ m. length m.readers.items ≡ readers) }
        ensures readers { IfOk result (λ m. All (λ s. s ≡ knows m.meter 0) m.readers.items) }
        ensures asker { IfOk result (λ m. m.asker ≡ knows m.meter false) }
        ensures feed { IfOk result (λ m. m.feed ≡ knows m.meter false) }
    {
        let (table, mut out) = Table::of_words(alloc, &[0, 0], &())?;
        let asker = table.shared.split_seat::<Opens>(&mut out);
        let read = new_readers(alloc, &table.shared, &mut out, readers)?;
        let feed = table.shared.split_seat::<FeedSeat>(&mut out);
        Ok(NewMeter {
            meter: Meter { table },
            out: MeterSeat::of(out),
            readers: read,
            asker: MeterSeat::of(asker),
            feed: MeterSeat::of(feed),
        })
    }

    /// Returns the progress word, lent.
    pub fn progress(&self) -> Progress<'_>
        ensures { result ≡ self.now }
    {
        Word::of(&self.table.shared)
    }

    /// Returns the cancel word, lent.
    pub fn cancel(&self) -> Cancel<'_>
        ensures { result ≡ self.now }
    {
        Word::of(&self.table.shared)
    }
}
