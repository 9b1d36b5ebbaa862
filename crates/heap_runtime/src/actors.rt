//! Those who act on one shared heap.
ghost use Rattle.std.specs.Prelude.{◌≡◌, ◌∷◌, [], IfSome, IfNone};

use crate::actor::Actor;
use heap_lock::{Heap, Seats, Shared};
use std::alloc::Global;
use std::sync::Wait;

/// A shared heap, with the seats on it that no actor has yet.
#[derive(Drop)]
pub struct Actors<'a, L: Heap, R: Wait> {
    /// The runtime that actors wait by.
    pub rt: &'a R,
    /// Where actors keep their claims.
    pub alloc: Global,
    /// The heap.
    pub shared: &'a Shared<L>,
    /// The seats, the next one first.
    pub seats: Seats<L>,
}

impl<'a, L: Heap, R: Wait> Actors<'a, L, R> {
    /// Returns the actors of these seats. Takes no memory.
    pub fn new(rt: &'a R, alloc: Global, shared: &'a Shared<L>, seats: Seats<L>) -> Actors<'a, L, R>
        ensures { result.seats ≡ seats }
    {
        Actors {
            rt,
            alloc,
            shared,
            seats,
        }
    }

    /// Returns the actor of the next seat, without claims, or None if all seats are taken. Takes no memory.
    pub fn take(&mut self) -> Option<Actor<'a, L, R>>
        ensures seat { IfSome result (λ a. self.old.seats ≡ a.seat ∷ self.new.seats) }
        ensures claims { IfSome result (λ a. a.claims ≡ []) }
        ensures none { IfNone result (self.old.seats ≡ []) }
    {
        let seat = self.seats.take()?;
        Some(Actor::new(self.rt, self.alloc, self.shared, seat))
    }
}
