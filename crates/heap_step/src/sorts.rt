//! Events by their sort, for callers that know it: what they call holds no other sort, and is inlined whole.
ghost use Rattle.std.specs.Prelude.{◌≡◌};

use crate::events::{clear, copy, create, load, mark, put, store};
use crate::{Effect, Event};
use heap_class::ClassNo;
use heap_world::World;

/// An event, or one whose sort its type tells, as it is applied.
pub trait ApplyEvent: Drop {
    ghost use Rattle.heap_world.specs.Legal.{IsLegal};
    ghost use Rattle.heap_step.specs.declared.Event.{Event};
    ghost use Rattle.heap_step.specs.Laws.{IsApplied};

    ghost event: { Self → Event };

    /// Applies the event to a legal heap, and returns its answer and the record that undoes it. Fails as `apply` does.
    fn apply_to(&self, world: &mut World) -> Effect
        requires { IsLegal world.old }
        ensures { IsApplied (event self.now) world.old world.new result };
}

/// An event whose sort its type tells.
pub trait IntoEvent: ApplyEvent {
    ghost use Rattle.std.specs.Prelude.{◌≡◌};

    /// Returns the event.
    fn into_event(self) -> Event
        ensures { result ≡ Self.event self };
}

/// `Event::New`.
#[derive(Clone, Copy)]
pub struct NewEvent {
    pub m: u64,
    pub r: u64,
    pub class: ClassNo,
}

impl ApplyEvent for NewEvent {
    ghost use Rattle.heap_step.specs.declared.Event.{Event};

    ghost event = { λ e. Event.New e.m e.r e.class };

    #[inline(always)]
    fn apply_to(&self, world: &mut World) -> Effect {
        create(world, self.m, self.r, self.class)
    }
}

impl IntoEvent for NewEvent {
    #[inline(always)]
    fn into_event(self) -> Event {
        let NewEvent { m, r, class } = self;
        Event::New { m, r, class }
    }
}

/// `Event::Load`.
#[derive(Clone, Copy)]
pub struct LoadEvent {
    pub m: u64,
    pub to: u64,
    pub from: u64,
    pub slot: u64,
}

impl ApplyEvent for LoadEvent {
    ghost use Rattle.heap_step.specs.declared.Event.{Event};

    ghost event = { λ e. Event.Load e.m e.to e.from e.slot };

    #[inline(always)]
    fn apply_to(&self, world: &mut World) -> Effect {
        load(world, self.m, self.to, self.from, self.slot)
    }
}

impl IntoEvent for LoadEvent {
    #[inline(always)]
    fn into_event(self) -> Event {
        let LoadEvent { m, to, from, slot } = self;
        Event::Load { m, to, from, slot }
    }
}

/// `Event::Store`.
#[derive(Clone, Copy)]
pub struct StoreEvent {
    pub m: u64,
    pub target: u64,
    pub slot: u64,
    pub source: u64,
}

impl ApplyEvent for StoreEvent {
    ghost use Rattle.heap_step.specs.declared.Event.{Event};

    ghost event = { λ e. Event.Store e.m e.target e.slot e.source };

    #[inline(always)]
    fn apply_to(&self, world: &mut World) -> Effect {
        store(world, self.m, self.target, self.slot, self.source)
    }
}

impl IntoEvent for StoreEvent {
    #[inline(always)]
    fn into_event(self) -> Event {
        let StoreEvent {
            m,
            target,
            slot,
            source,
        } = self;
        Event::Store {
            m,
            target,
            slot,
            source,
        }
    }
}

/// `Event::Put`.
#[derive(Clone, Copy)]
pub struct PutEvent {
    pub m: u64,
    pub target: u64,
    pub slot: u64,
    pub value: u64,
}

impl ApplyEvent for PutEvent {
    ghost use Rattle.heap_step.specs.declared.Event.{Event};

    ghost event = { λ e. Event.Put e.m e.target e.slot e.value };

    #[inline(always)]
    fn apply_to(&self, world: &mut World) -> Effect {
        put(world, self.m, self.target, self.slot, self.value)
    }
}

impl IntoEvent for PutEvent {
    #[inline(always)]
    fn into_event(self) -> Event {
        let PutEvent {
            m,
            target,
            slot,
            value,
        } = self;
        Event::Put {
            m,
            target,
            slot,
            value,
        }
    }
}

/// `Event::Move`.
#[derive(Clone, Copy)]
pub struct MoveEvent {
    pub m: u64,
    pub to: u64,
    pub from_m: u64,
    pub from: u64,
}

impl ApplyEvent for MoveEvent {
    ghost use Rattle.heap_step.specs.declared.Event.{Event};

    ghost event = { λ e. Event.Move e.m e.to e.from_m e.from };

    #[inline(always)]
    fn apply_to(&self, world: &mut World) -> Effect {
        copy(world, self.m, self.to, self.from_m, self.from)
    }
}

impl IntoEvent for MoveEvent {
    #[inline(always)]
    fn into_event(self) -> Event {
        let MoveEvent {
            m,
            to,
            from_m,
            from,
        } = self;
        Event::Move {
            m,
            to,
            from_m,
            from,
        }
    }
}

/// `Event::Clear`.
#[derive(Clone, Copy)]
pub struct ClearEvent {
    pub m: u64,
    pub r: u64,
}

impl ApplyEvent for ClearEvent {
    ghost use Rattle.heap_step.specs.declared.Event.{Event};

    ghost event = { λ e. Event.Clear e.m e.r };

    #[inline(always)]
    fn apply_to(&self, world: &mut World) -> Effect {
        clear(world, self.m, self.r)
    }
}

impl IntoEvent for ClearEvent {
    #[inline(always)]
    fn into_event(self) -> Event {
        let ClearEvent { m, r } = self;
        Event::Clear { m, r }
    }
}

/// `Event::Mark`.
#[derive(Clone, Copy)]
pub struct MarkEvent;

impl ApplyEvent for MarkEvent {
    ghost use Rattle.heap_step.specs.declared.Event.{Event};

    ghost event = { λ e. Event.Mark };

    #[inline(always)]
    fn apply_to(&self, world: &mut World) -> Effect {
        mark(world)
    }
}

impl IntoEvent for MarkEvent {
    #[inline(always)]
    fn into_event(self) -> Event {
        Event::Mark
    }
}
