//! The trait of sources, which give the parts of a dump.
use heap_class::LostCause;
use hprof_text::Piece;

/// The answer of a source that is asked for its next part.
#[derive(Drop)]
pub enum Next {
    /// A part of the dump, of at most 2^27 bytes.
    Part(Piece),
    /// Nothing more: the dump is lost.
    Lost(LostCause),
    /// Nothing more: the dump was cancelled.
    Cancelled,
}

/// The way in which a source ended.
#[derive(Clone, Copy, PartialEq, Eq, Debug)]
pub enum SourceEnd {
    /// It gave the part that is the last.
    Whole,
    /// The dump is lost.
    Lost(LostCause),
    /// The dump was cancelled.
    Cancelled,
}

/// A source, which gives the parts of a dump, in order. Contracts see the parts that it gave since it was made, if it tells
/// them, how it ended, how many parts are left at most, and what stays as it was.
pub trait Source {
    ghost use Rattle.std.specs.Prelude.{◌≡◌, ◌<◌, ◌≤◌};
    ghost use Rattle.dump_pump.specs.Sources.{Supply, IsNextPart};
    ghost use Rattle.hprof_text.specs.Laws.{piece_limit};

    // The type of what no call of `next` changes.
    ghost Kept: { Type 0 } = { Unit {0} };

    ghost kept: { Self → Self.Kept };

    ghost seen: { Self → Supply };

    /// Returns the next part, or the reason why there is none. A part must be left. Each part lowers the number of parts left,
    /// and one that isn't the last leaves it above 0.
    fn next(&mut self) -> Next
        requires { 0 < (Self.seen self.old).left }
        ensures next { IsNextPart (Self.seen self.old) (Self.seen self.new) result }
        ensures kept { Self.kept self.new ≡ Self.kept self.old };

    /// Returns the largest number of parts that may be left, at most PIECE_LIMIT.
    fn parts_left(&self) -> u64
        ensures left { result ≡ (Self.seen self.now).left }
        ensures most { result ≤ piece_limit };
}
