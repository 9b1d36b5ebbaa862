//! The seconds that an answer has taken.
ghost use Rattle.std.specs.Prelude.{◌≡◌, ◌<◌, ◌-◌, ◌/◌, ◌%◌, IfNone, IfSome};
ghost use Rattle.std.specs.Duration.{as_nanos};

use std::time::Duration;

// The nanoseconds of a second.
const SECOND: u64 = 1_000_000_000;

// Returns how many whole seconds have gone by, or None if it was less than one.
pub(crate) fn seconds_of(elapsed: Duration) -> Option<u64>
    ensures none { IfNone result (as_nanos elapsed < 1_000_000_000) }
    ensures some { IfSome result (λ s. (0 < s) × (s ≡ as_nanos elapsed / 1_000_000_000)) }
{
    let seconds = elapsed.as_secs();
    if seconds > 0 { Some(seconds) } else { None }
}

// Returns how long it takes until one second more has gone by.
pub(crate) fn until_next(elapsed: Duration) -> Duration
    ensures { as_nanos result ≡ 1_000_000_000 - as_nanos elapsed % 1_000_000_000 }
{
    Duration::from_nanos(SECOND - u64::from(elapsed.subsec_nanos()))
}
