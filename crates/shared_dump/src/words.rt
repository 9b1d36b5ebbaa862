//! How dumps ended, in words.
ghost use Rattle.std.specs.Prelude.{◌≡◌, option_map};
ghost use Rattle.shared_dump.specs.Words.{word_of_cause, word_of_dump};

use dump_pump::Pumped;
use heap_lock::{LostCause, Refusal};

/// Returns the word for a dump that was refused or lost: the refusal's name, or the cause of the loss, which its source or its
/// client's socket found. Returns None if the dump is whole, if the client left, or if it was stopped.
pub fn word(ended: &Result<Pumped, Refusal>, found: Option<LostCause>) -> Option<&'static str>
    ensures { option_map (λ s. s.now) result ≡ word_of_dump ended.now found }
{
    match ended {
        Ok(Pumped::Done { bytes: _ }) => None,
        Ok(Pumped::Lost { cause, bytes: _ }) => Some(cause_word(*cause)),
        Ok(_) => found.map(cause_word),
        Err(refusal) => Some(refusal.name()),
    }
}

// Returns the word of a cause.
fn cause_word(cause: LostCause) -> &'static str
    ensures { result.now ≡ word_of_cause cause }
{
    match cause {
        LostCause::Rewound => "Rewound",
        LostCause::Memory => "Memory",
        LostCause::Closed => "Closed",
    }
}
