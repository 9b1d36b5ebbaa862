//! The kinds of values, by their codes.
ghost use Rattle.std.specs.Prelude.{◌≡◌};
ghost use Rattle.hprof_reader.specs.Reading.{Gives};
ghost use Rattle.hprof_reader.specs.Kinds.{kind_coded, kind_parts};

use crate::fault::Fault;
use crate::numbers::u1_at;
use heap_class::Kind;

// Reads the code of a kind.
#[tactic(auto, unfolding(crate::specs::Kinds::kind_parts))]
pub(crate) fn kind_at(bytes: &[u8]) -> Result<(Kind, &[u8]), Fault>
    ensures { Gives (λ x. (x.0, x.1.now)) result (kind_parts bytes.now) }
{
    let (code, rest) = u1_at(bytes)?;
    match kind_of(code) {
        Some(kind) => Ok((kind, rest)),
        None => Err(Fault::Type),
    }
}

// Returns the kind with this code, if there is one.
fn kind_of(code: u8) -> Option<Kind>
    ensures { result ≡ kind_coded code }
{
    match code {
        2 => Some(Kind::Object),
        4 => Some(Kind::Boolean),
        5 => Some(Kind::Char),
        6 => Some(Kind::Float),
        7 => Some(Kind::Double),
        8 => Some(Kind::Byte),
        9 => Some(Kind::Short),
        10 => Some(Kind::Int),
        11 => Some(Kind::Long),
        _ => None,
    }
}
