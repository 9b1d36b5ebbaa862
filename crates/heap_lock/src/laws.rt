//! What holds of all calls on a heap.
ghost use Rattle.std.specs.Prelude.{ℕ, List, Option};
ghost use Rattle.heap_world.specs.Limits.{HeapSettings};
ghost use Rattle.heap_lock.specs.Calls.{Call};
ghost use Rattle.heap_lock.specs.Laws.{GiveText};

/// States that what all callers together are given of a pin, whatever else is called between, is a beginning of the dump of the
/// state at its place, and all of it once its last piece was given, if its pieces are asked for with one time.
pub fn pins_give_text()
    ensures { (config : HeapSettings) (before after : List Call) (at : Option ℕ)
        (pin place time : ℕ) → GiveText config before at pin place after time }
{}
