//! A worked example over the definitions alone.
ghost use Rattle.std.specs.Prelude.{◌≡◌, []};
ghost use Rattle.session_text.specs.declared.Ended.TheVariants.{Eof};
ghost use Rattle.session_text.specs.declared.ReadEnd.TheVariants.{Over};
ghost use Rattle.session_text.specs.declared.limits.SessionLimits.TheVariants.{Narrow};
ghost use Rattle.session_text.specs.Examples.{default_machine, point_answers, point_lines};
ghost use Rattle.session_text.specs.Session.{session_of};

/// States what a session of a new machine writes for the four lines that README shows: three answers, the dump of 301 bytes in
/// seven data lines, and its size. Each byte is spelled out. It ends at the end of its input.
pub fn worked_session()
    ensures answers { (session_of Narrow default_machine [] 0 point_lines Over).0.written
        ≡ point_answers }
    ensures ended { (session_of Narrow default_machine [] 0 point_lines Over).1 ≡ Eof }
{}
