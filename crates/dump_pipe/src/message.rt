//! The messages of a pipe.
use dump_pump::SourceEnd;
use hprof_text::Piece;

/// A message of a pipe: the parts of a dump come, in order, and then how it ended.
#[derive(Drop)]
pub enum Message {
    /// A part of the dump.
    Part(Piece),
    /// How the source ended. Nothing follows.
    End(SourceEnd),
}
