//! The heap that the session of a dump makes.
ghost use Rattle.hprof_heap.specs.Laws.{IsTakenUnlessFull, MakesHeap, NewHeap, PlannedDump};

/// States that the events of the session of a dump make the heap of the dump, if a new heap accepts all of them. Each object that
/// the records tell is there once, with the class, the values and the references that its record says, and null for what isn't
/// made; and register 7 of mutator 0 names the array of the roots.
pub fn session_makes_heap()
    ensures { (d : PlannedDump) (h : NewHeap) → MakesHeap d h }
{}

/// States that a new heap that allows the classes and the arrays of the session of a dump accepts all of its events, or all up to
/// one that it refuses since it is full.
pub fn session_is_taken_unless_full()
    ensures { (d : PlannedDump) (h : NewHeap) → IsTakenUnlessFull d h }
{}
