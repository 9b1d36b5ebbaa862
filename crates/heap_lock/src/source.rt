//! The source of a live dump: the pieces of a pin, with the lock for one at a time.
ghost use Rattle.std.specs.Prelude.{◌≡◌, ◌<◌, ◌≤◌, length, None as Nothing};
ghost use Rattle.dump_pump.specs.Sources.{IsNextPart};
ghost use Rattle.hprof_text.specs.Laws.{piece_limit, piece_size_limit};
ghost use Rattle.heap_lock.specs.Sources.{IsLoss, IsPieceRefusal, GivesPart, Supplies, count_after, locked_supply};

use crate::dumper::Dumper;
use crate::heap::Heap;
use dump_pump::{Next, Source, SourceEnd};
use heap_class::{LostCause, Refusal};
use hprof_text::{PIECE_LIMIT, Piece};
use std::sync::Wait;

/// The pieces that a pin of a shared heap has left. Each call of `next` takes the lock for one piece and has let it go when it
/// returns, so others act between two pieces and while a piece is written. Its fields are public: none is a guard.
#[derive(Drop)]
pub struct LockedSource<'a, L: Heap, R: Wait> {
    /// Who asks for the pieces.
    pub dumper: Dumper<'a, L, R>,
    pub pin: u64,
    /// The time in the header of the dump, in milliseconds.
    pub time: u64,
    /// The number of pieces given, at most `PIECE_LIMIT`.
    pub count: u64,
    /// How the source ended, if it has.
    pub ended: Option<SourceEnd>,
}

// Returns the cause of an end that is a refusal of a piece.
fn cause_of(refusal: Refusal) -> LostCause
    requires { IsPieceRefusal refusal }
    ensures { IsLoss refusal result }
{
    match refusal {
        Refusal::NoMemory => LostCause::Memory,
        Refusal::NoPin => LostCause::Closed,
        Refusal::Lost { cause } => cause,
        _ => unreachable!(),
    }
}

impl<'a, L: Heap, R: Wait> LockedSource<'a, L, R> {
    /// Creates a source that has given nothing yet. Takes neither the lock nor memory.
    pub fn new(dumper: Dumper<'a, L, R>, pin: u64, time: u64) -> Self
        ensures names { (result.pin ≡ pin) × (result.time ≡ time) × (result.dumper ≡ dumper.entry)
            × (result.count ≡ 0) }
        ensures fresh { locked_supply result.count result.ended ≡ locked_supply 0 Nothing }
    {
        LockedSource {
            dumper,
            pin,
            time,
            count: 0,
            ended: None,
        }
    }

    /// Gives the next piece, which is one of the dump of a legal state, or says why there is none: Lost with the cause with
    /// which the pin is lost, Lost(Memory) if the piece was refused NoMemory, Lost(Closed) if the pin isn't open or the piece
    /// would be that with the number `PIECE_LIMIT` and isn't the last. Never says Cancelled. May wait.
    pub fn next_part(&mut self) -> Next
        requires { self.old.count < piece_limit }
        ensures supplies { Supplies L.config self.old.pin self.old.time self.old.count
            self.old.dumper self.new.dumper result }
        ensures next { IsNextPart (locked_supply self.old.count self.old.ended)
            (locked_supply self.new.count self.new.ended) result }
        ensures names { (self.new.pin ≡ self.old.pin) × (self.new.time ≡ self.old.time) }
        ensures count { self.new.count ≡ count_after self.old.count result }
    {
        match self.dumper.next_piece(self.pin, self.time) {
            Ok(piece) => self.gives(piece),
            Err(refusal) => {
                let cause = cause_of(refusal);
                self.ended = Some(SourceEnd::Lost(cause));
                Next::Lost(cause)
            }
        }
    }

    // Counts a piece, and says what it is.
    fn gives(&mut self, piece: Piece) -> Next
        requires count { self.old.count < piece_limit }
        requires small { length piece.bytes ≤ piece_size_limit }
        ensures next { IsNextPart (locked_supply self.old.count self.old.ended)
            (locked_supply self.new.count self.new.ended) result }
        ensures given { GivesPart self.old.count piece result }
        ensures names { (self.new.pin ≡ self.old.pin) × (self.new.time ≡ self.old.time)
            × (self.new.dumper ≡ self.old.dumper) }
        ensures count { self.new.count ≡ count_after self.old.count result }
    {
        if piece.last {
            self.ended = Some(SourceEnd::Whole);
        } else if self.count + 1 == PIECE_LIMIT {
            self.ended = Some(SourceEnd::Lost(LostCause::Closed));
            return Next::Lost(LostCause::Closed);
        }
        self.count += 1;
        Next::Part(piece)
    }
}

impl<'a, L: Heap, R: Wait> Source for LockedSource<'a, L, R> {
    ghost use Rattle.std.specs.Prelude.{ℕ};
    ghost use Rattle.heap_lock.specs.Sources.{locked_supply};

    ghost Kept = { ℕ × ℕ };

    ghost kept = { λ s. (s.pin, s.time) };

    ghost seen = { λ s. locked_supply s.count s.ended };

    fn next(&mut self) -> Next {
        self.next_part()
    }

    fn parts_left(&self) -> u64 {
        PIECE_LIMIT.saturating_sub(self.count)
    }
}
