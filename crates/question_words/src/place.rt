//! Answers that name a place.
ghost use Rattle.std.specs.Prelude.{◌≡◌, None, MatchOption};
ghost use Rattle.heap_world.specs.Regions.{object_of};
ghost use Rattle.session_text.specs.Replies.{line_answer_text};
ghost use Rattle.question_words.specs.Places.{StandsAt, older_text, place_text};

use heap_class::ObjRef;
use heap_questions::PastTrail;
use heap_trail::Machine;
use session_text::LineAnswer;

/// Returns the place of the object that an id names in the current state, dead or not, or None if it names none.
pub fn place_of_object(machine: &Machine, id: u64) -> Option<ObjRef>
    ensures { MatchOption result (object_of machine.now.trail.current.regions id ≡ None)
        (λ at. StandsAt machine.now.trail.current id at) }
{
    machine.world().regions().find(id)
}

/// Returns the line that names a place.
pub fn place_line(place: u64) -> LineAnswer
    ensures { line_answer_text result ≡ place_text place }
{
    LineAnswer::Number(b"ok place", place)
}

/// Returns the line of what is older than all steps of a trail.
pub fn older_line(past: &PastTrail<'_>) -> LineAnswer
    ensures { line_answer_text result ≡ older_text past.now }
{
    LineAnswer::Number(b"ok older", past.place() - past.retained_count())
}
