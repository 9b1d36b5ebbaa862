//! What a session may have at most.
ghost use Rattle.std.specs.Prelude.{◌≡◌, ◌≤◌};
ghost use Rattle.session_grammar.specs.declared.TheConstants.{LINE_LIMIT};
ghost use Rattle.session_text.specs.Limits.{longest_line, most_reads, session_limits};

use session_grammar::LINE_LIMIT;

/// The largest number of reads of a session of a wide heap, and so of any: 2^40.
pub const READ_LIMIT: u64 = 1_099_511_627_776;

/// The largest number of reads of a session whose heap isn't wide.
pub const NARROW_READS: u64 = 1_000_000;

/// The largest number of bytes of a line, without its LF, in a session whose heap isn't wide.
pub const NARROW_LINE: usize = 4096;

/// What a session may have at most. It stays the same as long as the session goes on.
#[derive(Clone, Copy)]
pub enum SessionLimits {
    /// As much as a session whose heap isn't wide: 1,000,000 reads, and lines of 4,096 bytes.
    Narrow,
    /// As much as a session of a wide heap: 2^40 reads, and lines of 32,768 bytes.
    Wide,
}

impl SessionLimits {
    /// Returns the largest number of reads.
    pub fn reads(self) -> u64
        ensures { result ≡ most_reads self }
    {
        match self {
            SessionLimits::Narrow => NARROW_READS,
            SessionLimits::Wide => READ_LIMIT,
        }
    }

    /// Returns the largest number of bytes of a line, without its LF.
    pub fn longest_line(self) -> usize
        ensures value { result ≡ longest_line self }
        ensures within { result ≤ LINE_LIMIT }
    {
        match self {
            SessionLimits::Narrow => NARROW_LINE,
            SessionLimits::Wide => LINE_LIMIT,
        }
    }
}

/// Returns what a session may have at most whose heap is wide, or isn't.
pub fn session_limits(is_wide: bool) -> SessionLimits
    ensures { result ≡ session_limits is_wide }
{
    if is_wide {
        SessionLimits::Wide
    } else {
        SessionLimits::Narrow
    }
}
