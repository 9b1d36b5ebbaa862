//! What a client of a dump says first.
ghost use Rattle.std.specs.Prelude.{◌∷◌, ◌++◌, []};
ghost use Rattle.session_text.specs.Writes.{IsTextWritten};

use dump_pump::Outlet;
use secret_word::Secret;
use session_text::write_all;

/// Puts out the line of a secret word: the word and an LF. Returns whether all of it is out.
pub fn say_word<O: Outlet>(outlet: &mut O, secret: Secret) -> bool
    ensures { IsTextWritten (secret ++ 10 ∷ []) (O.seen outlet.old) (O.seen outlet.new) result }
{
    let line = secret.line();
    write_all(outlet, line.as_bytes())
}
