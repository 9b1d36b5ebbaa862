//! The size of a dump.
ghost use Rattle.std.specs.Prelude.{◌≡◌, ℕ, length, IfSome};
ghost use Rattle.hprof_text.specs.Segments.{dump_text};
ghost use Rattle.heap_world.specs.Legal.{IsLegal};
ghost use Rattle.heap_pins.specs.Images.{image_of};

use heap_class::IdSize;
use heap_pins::{Pin, PinView};
use heap_world::World;
use hprof_text::text_len;
use std::alloc::Global;

/// Returns the size in bytes of the dump of a state with ids of this size, or None if an allocation fails. It doesn't depend
/// on the time. No contract says that an allocation failed: callers may show no size.
pub fn dump_size(alloc: Global, world: &World, ids: IdSize) -> Option<u64>
    requires { IsLegal world.now }
    ensures { IfSome result
        (λ n. (time : ℕ) → n ≡ length (dump_text ids (image_of world.now) time)) }
{
    match Pin::open(alloc, world) {
        Ok(pin) => {
            let view = PinView::new(&pin, world, ids);
            Some(text_len(&view))
        }
        Err(_) => None,
    }
}
