//! What mutators do, each on its own registers.
ghost use Rattle.std.specs.Prelude.{◌≡◌};
ghost use Rattle.heap_lock.specs.Event.TheVariants.{New, NewArray, NewPrim, Load, Store, Put, Move, Clear};
ghost use Rattle.heap_runtime.specs.Mutators.{mutator_of, IsMutation};

use crate::actor::{Actor, Denial};
use heap_class::{ClassNo, Kind};
use heap_lock::{Answer, Event, Heap, Role};
use std::sync::Wait;

// Returns the number of the mutator of a role. Fails with WrongRole if the role is no mutator's.
fn mutator(role: Role) -> Result<u64, Denial>
    ensures { result ≡ mutator_of role }
{
    match role {
        Role::Mutator(m) => Ok(m),
        _ => Err(Denial::WrongRole),
    }
}

impl<'a, L: Heap, R: Wait> Actor<'a, L, R> {
    /// Makes an instance of a class in register `r`. Fails with WrongRole if the seat is no mutator's, else as `act` does. May
    /// wait.
    pub fn make(&mut self, r: u64, class: ClassNo) -> Result<Answer, Denial>
        ensures { IsMutation L.config (λ m. New m r class) self.old result self.new }
    {
        let m = mutator(self.role())?;
        self.act(Event::New { m, r, class })
    }

    /// Makes an object array of a class in register `r`. Fails with WrongRole if the seat is no mutator's, else as `act` does.
    /// May wait.
    pub fn make_array(&mut self, r: u64, class: ClassNo, len: u64) -> Result<Answer, Denial>
        ensures { IsMutation L.config (λ m. NewArray m r class len) self.old result self.new }
    {
        let m = mutator(self.role())?;
        self.act(Event::NewArray { m, r, class, len })
    }

    /// Makes an array of values of a kind in register `r`. Fails with WrongRole if the seat is no mutator's, else as `act`
    /// does. May wait.
    pub fn make_prim(&mut self, r: u64, kind: Kind, len: u64) -> Result<Answer, Denial>
        ensures { IsMutation L.config (λ m. NewPrim m r kind len) self.old result self.new }
    {
        let m = mutator(self.role())?;
        self.act(Event::NewPrim { m, r, kind, len })
    }

    /// Reads a slot of the object in register `from`. A reference goes to register `to`. Fails with WrongRole if the seat is no
    /// mutator's, else as `act` does. May wait.
    pub fn load(&mut self, to: u64, from: u64, slot: u64) -> Result<Answer, Denial>
        ensures { IsMutation L.config (λ m. Load m to from slot) self.old result self.new }
    {
        let m = mutator(self.role())?;
        self.act(Event::Load { m, to, from, slot })
    }

    /// Writes the word of register `source` to a reference slot of the object in register `target`. Fails with WrongRole if the
    /// seat is no mutator's, else as `act` does. May wait.
    pub fn store(&mut self, target: u64, slot: u64, source: u64) -> Result<Answer, Denial>
        ensures { IsMutation L.config (λ m. Store m target slot source) self.old result self.new }
    {
        let m = mutator(self.role())?;
        self.act(Event::Store {
            m,
            target,
            slot,
            source,
        })
    }

    /// Writes a value slot of the object in register `target`. Fails with WrongRole if the seat is no mutator's, else as `act`
    /// does. May wait.
    pub fn put(&mut self, target: u64, slot: u64, value: u64) -> Result<Answer, Denial>
        ensures { IsMutation L.config (λ m. Put m target slot value) self.old result self.new }
    {
        let m = mutator(self.role())?;
        self.act(Event::Put {
            m,
            target,
            slot,
            value,
        })
    }

    /// Copies register `from` of mutator `from_m` to register `to`. Fails with WrongRole if the seat is no mutator's, else as
    /// `act` does. May wait.
    pub fn move_to(&mut self, to: u64, from_m: u64, from: u64) -> Result<Answer, Denial>
        ensures { IsMutation L.config (λ m. Move m to from_m from) self.old result self.new }
    {
        let m = mutator(self.role())?;
        self.act(Event::Move {
            m,
            to,
            from_m,
            from,
        })
    }

    /// Makes register `r` null. Fails with WrongRole if the seat is no mutator's, else as `act` does. May wait.
    pub fn clear(&mut self, r: u64) -> Result<Answer, Denial>
        ensures { IsMutation L.config (λ m. Clear m r) self.old result self.new }
    {
        let m = mutator(self.role())?;
        self.act(Event::Clear { m, r })
    }
}
