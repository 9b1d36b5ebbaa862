//! What holds of all `dump` lines over a shared heap.
ghost use Rattle.std.specs.Prelude.{ℕ, List};
ghost use Rattle.heap_lock.specs.HeapLimits.{HeapSettings};
ghost use Rattle.heap_lock.specs.Calls.{Call};
ghost use Rattle.heap_lock.specs.LockStates.{SeatModel};
ghost use Rattle.seat_session.specs.DumpAnswers.{AnswersPinDump, AnswersNewDump};

/// States that the answer to a `dump` line of a served session, if nobody else took pieces of its pin, spells a beginning of the
/// dump of the state at the pin's place, and all of it if its last line is `ok dump`. `seat` and `seen` are the session's seat
/// and what its witness has seen.
pub fn served_dumps_are_text<S>()
    ensures pin { (config : HeapSettings) (seat : S → SeatModel)
        (seen : S → List Call) (pin time : ℕ)
        (c d : S) (text : List ℕ) → AnswersPinDump config seat seen pin time c text d }
    ensures now { (config : HeapSettings) (seat : S → SeatModel) (seen : S → List Call) (time : ℕ)
        (c d : S) (text : List ℕ) → AnswersNewDump config seat seen time c text d }
{}
