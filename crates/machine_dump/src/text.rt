//! The law on the pieces of a pin.
ghost use Rattle.std.specs.Prelude.{ℕ};
ghost use Rattle.heap_trail.specs.Machine.{Machine};
ghost use Rattle.machine_dump.specs.PinDumps.{AreText};

/// States that the pieces handed out of a pin that had given none are a beginning of the text of its image, and that they are
/// all of it if the last is among them.
pub fn pieces_are_text()
    ensures { (m : Machine) (pin time count : ℕ) → AreText m pin time count }
{}
