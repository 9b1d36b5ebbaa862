//! The machine: the current state, the retained past, and the pins on it.
#![tactic(auto)]

ghost use Rattle.std.specs.Prelude.{◌≡◌, true, false, ◌<◌, ◌≤◌, ◌-◌, ℕ, List, [], length, map, None, Some, IfOk, IfErr, OnOk, OnErr};
ghost use Rattle.std.specs.Vec.{vec_capacity};
ghost use Rattle.circular_buffer.specs.Buffer.{buffer};
ghost use Rattle.heap_world.specs.Limits.{keep_limit};
ghost use Rattle.heap_class.specs.declared.IdSize.{IdSize};
ghost use Rattle.heap_class.specs.declared.Refusal.TheVariants.{NoMemory};
ghost use Rattle.heap_step.specs.declared.Event.{Event};
ghost use Rattle.heap_step.specs.declared.Event.TheVariants.{Finish, Sweep};
ghost use Rattle.heap_step.specs.declared.Answer.{Answer};
ghost use Rattle.heap_step.specs.Laws.{IsStep};
ghost use Rattle.heap_world.specs.State.{HeapState};
ghost use Rattle.heap_world.specs.Legal.{IsLegal};
ghost use Rattle.heap_pins.specs.KeptCopies.{touched};
ghost use Rattle.heap_trail.specs.declared.Action.TheVariants.{OpenPin, Step, Rewind};
ghost use Rattle.heap_trail.specs.declared.Reply.TheVariants.{Answered, Pinned, Place, Refused};
ghost use Rattle.heap_trail.specs.Headline.{Headline};
ghost use Rattle.heap_trail.specs.Laws.{FindsSnapshot, IsTrail, GivesText, KeepsImage, DumpIsWhole, KeepsReached, KeepsTrail, LeadsBack, LeavesTrail, ReachesLive, SparesReached};
ghost use Rattle.heap_trail.specs.Machine.{IsSmall, Machine, Allocation, MayFail, MayReply, acted, opening_machine};
ghost use Rattle.heap_trail.specs.OpenPins.{AreAllBelow, EachMayKeep, EachSized, IsMade, slot_after_rewind};
ghost use Rattle.heap_trail.specs.Records.{IsRemembered};
ghost use Rattle.heap_trail.specs.Trail.{retained, rewound};
ghost use Rattle.heap_trail.specs.Pins.{after_rewind};

mod drive;
mod examples;
mod held;
mod listing;
mod numbers;
mod opening;
mod pins;
mod records;
mod ring;
mod views;

pub use examples::{worked_dumps, worked_examples};
use heap_class::{IdSize, ObjRef, Refusal};
use heap_pins::{ends_cycle, noted_region, touched_region};
use heap_step::step::undo;
use heap_step::{Answer, AnyEvent, ApplyEvent, Event, Undo, apply_sort, undo_restores};
use heap_world::{Config, World};
use held::NumberedPin;
use hprof_text::Piece;
pub use listing::{ListedPin, PinStatus};
use ring::RecordRing;
use std::alloc::Global;
use std::marker::Model;

// The last place: no step goes past 2^62.
const LAST_PLACE: u64 = 0x4000_0000_0000_0000;

/// A request to a machine.
#[derive(Drop)]
pub enum Action {
    /// A step of the heap.
    Step(Event),
    /// To undo the last `n` steps.
    Rewind(u64),
    /// A pin on the state at this place, or at the current one.
    OpenPin(Option<u64>),
    /// The next piece of a pin's dump.
    NextPiece { pin: u64, time: u64 },
    /// To close a pin.
    ClosePin(u64),
}

/// The reply to an action.
#[derive(Drop)]
pub enum Reply {
    /// The step's answer.
    Answered(Answer),
    /// The place after a rewind.
    Place(u64),
    /// The number of the new pin, and its place.
    Pinned { pin: u64, at: u64 },
    /// A piece of a pin's dump.
    Part(Piece),
    /// The pin is closed.
    Closed,
    /// Why nothing was done.
    Refused(Refusal),
}

/// A pin that was opened: its number, counted from 1, and its place.
#[derive(Clone, Copy, PartialEq, Eq)]
pub struct PinAt {
    pub pin: u64,
    pub at: u64,
}

/// The current state, the records of the last `keep` steps, newest first, the place, and the pins. Contracts see the states
/// and the images themselves.
#[derive(Drop)]
pub struct Machine {
    alloc: Global,
    world: World,
    records: RecordRing,
    place: u64,
    keep: u64,
    ids: IdSize,
    next: u64,
    pins: Vec<NumberedPin>,
}

impl Model for Machine {
    ghost use Rattle.heap_trail.specs.Machine.{Machine};
    ghost use Rattle.heap_trail.specs.Records.{machine_of, IsWholeMachine};

    ghost Value = { Machine };

    ghost view = { λ m. machine_of m.ids m.world m.records m.place m.keep m.next m.pins.items };

    ghost use Rattle.std.specs.Vec.{vec_capacity};

    ghost invariant = { λ m. IsWholeMachine m.ids m.world m.records m.place m.keep m.next
        m.pins.items (vec_capacity m.pins) };
}

// Does what `keep_and_add` does. The record goes to the ring at once, unless a pin has to copy a region or a cycle ended.
#[inline(always)]
fn remember(pins: &mut [NumberedPin], world: &World, records: &mut RecordRing, left: Undo)
    requires step { (e : Event) × (before : HeapState) × IsStep e before world.now left }
    requires sized { EachSized (length world.now.regions) pins.old }
    ensures { IsRemembered left world.now pins.old pins.new records.old records.new }
{
    if note_at_once(pins, world, &left) {
        records.push_front(left);
    } else {
        keep_and_add(pins, world, records, left);
    }
}

// Has each pin note the step that left this record and led to this state, if it made an object. Otherwise tells whether each pin
// is settled, and leaves all as they are.
#[inline(always)]
fn note_at_once(pins: &mut [NumberedPin], world: &World, left: &Undo) -> bool
    requires step { (e : Event) × (before : HeapState) × IsStep e before world.now left.now }
    requires sized { EachSized (length world.now.regions) pins.old }
    ensures noted { result ≡ true → EachMayKeep left.now world.now pins.old pins.new }
    ensures unchanged { result ≡ false → pins.new ≡ pins.old }
{
    if pins.is_empty() {
        return true;
    }
    match left {
        Undo::New { at, fresh, .. } => {
            note_new(pins, world, left, *at, *fresh);
            true
        }
        _ => are_settled(pins, world, left),
    }
}

// Has each pin note the step that left this record, that of an object made at `at`, and led to this state. Takes no memory.
#[inline(never)]
fn note_new(pins: &mut [NumberedPin], world: &World, left: &Undo, at: ObjRef, fresh: bool)
    requires step { (e : Event) × (before : HeapState) × IsStep e before world.now left.now }
    requires sized { EachSized (length world.now.regions) pins.old }
    requires made { IsMade at fresh left.now }
    ensures { EachMayKeep left.now world.now pins.old pins.new }
{
    for i in 0..pins.len() {
        pins[i].note_new(world, left, at, fresh);
    }
}

// Tells whether each pin is settled, so that the step that left this record and led to this state leaves all as they are.
#[inline(always)]
fn are_settled(pins: &[NumberedPin], world: &World, left: &Undo) -> bool
    requires step { (e : Event) × (before : HeapState) × IsStep e before world.now left.now }
    requires sized { EachSized (length world.now.regions) pins.now }
    ensures { result ≡ true → EachMayKeep left.now world.now pins.now pins.now }
{
    match noted_region(left) {
        Some(region) => {
            for i in 0..pins.len() {
                if !pins[i].is_settled(region) {
                    return false;
                }
            }
            true
        }
        None => !ends_cycle(left),
    }
}

// Has each pin keep what it needs of the step that left this record and led to this state, and puts the record into the ring.
#[inline(never)]
fn keep_and_add(pins: &mut [NumberedPin], world: &World, records: &mut RecordRing, left: Undo)
    requires step { (e : Event) × (before : HeapState) × IsStep e before world.now left }
    requires sized { EachSized (length world.now.regions) pins.old }
    ensures { IsRemembered left world.now pins.old pins.new records.old records.new }
{
    keep_each(pins, world, &left);
    records.push_front(left);
}

// Has each pin keep what it needs of the step that left this record and led to this state. The pins share the copy of a region.
// A pin is lost if memory for it can't be allocated.
fn keep_each(pins: &mut [NumberedPin], world: &World, left: &Undo)
    requires step { (e : Event) × (before : HeapState) × IsStep e before world.now left.now }
    requires sized { EachSized (length world.now.regions) pins.old }
    ensures { EachMayKeep left.now world.now pins.old pins.new }
{
    match touched_region(left) {
        Some(region) => {
            let mut shared = None;
            for i in 0..pins.len() {
                pins[i].keep(world, left, region, &mut shared);
            }
        }
        None => note_each(pins, world, left),
    }
}

// Has each pin note the step that left this record and led to this state, which touched no region. Takes no memory.
fn note_each(pins: &mut [NumberedPin], world: &World, left: &Undo)
    requires step { (e : Event) × (before : HeapState) × IsStep e before world.now left.now }
    requires sized { EachSized (length world.now.regions) pins.old }
    requires untouched { touched left.now ≡ None }
    ensures { EachMayKeep left.now world.now pins.old pins.new }
{
    for i in 0..pins.len() {
        pins[i].note(world, left);
    }
}

// Creates a ring with room for `keep` records, and a list with room for this many pins. Fails with NoMemory.
fn room_for(alloc: Global, keep: u64, pins: u64) -> Result<(RecordRing, Vec<NumberedPin>), Refusal>
    requires { keep ≤ keep_limit }
    ensures records { IfOk result (λ r. r.0 ≡ buffer [] keep) }
    ensures pins { IfOk result (λ r. (r.1.items ≡ []) × (pins ≤ vec_capacity r.1)) }
    ensures refused { IfErr result (λ e. e ≡ NoMemory) }
{
    let records = RecordRing::with_capacity(alloc, keep as usize)?;
    let pins = Vec::with_capacity(alloc, pins as usize)?;
    Ok((records, pins))
}

// Loses the pins above a place.
fn lose_above(pins: &mut [NumberedPin], to: u64)
    ensures { pins.new ≡ map (slot_after_rewind to) pins.old }
{
    for i in 0..pins.len() {
        pins[i].rewind(to);
    }
}

impl Machine {
    /// Creates a machine at place 0, with room for `keep` records and for as many pins as its heap allows. Fails with
    /// NoMemory if an allocation fails.
    pub fn new(alloc: Global, config: Config) -> Result<Machine, Refusal>
        ensures opened { IfOk result
            (λ m. m ≡ opening_machine config.limits config.ids config.regions config.mutators
            config.keep) }
        ensures refused { IfErr result (λ e. e ≡ NoMemory) }
    {
        let keep = config.keep();
        let ids = config.ids();
        let (records, pins) = room_for(alloc, keep, config.limits().pins)?;
        let world = World::new(alloc, config)?;
        // Its contract says that the heap is legal.
        world.phase();
        Ok(Machine {
            alloc,
            world,
            records,
            place: 0,
            keep,
            ids,
            next: 1,
            pins,
        })
    }

    /// Takes a step and keeps its record, instead of the oldest if `keep` are there. Fails with ChronicleFull at place 2^62,
    /// or as the event does; nothing has changed then. A pin is lost if memory for what the step overwrote can't be
    /// allocated.
    ///
    /// A sweep leaves each object that the registers reach as it was. After a finish all that they reach is live. What they
    /// reached when the cycle began, in the newest retained state in which none ran, is after its finish still there with its
    /// kind and as many words, and live: Yuasa's law.
    #[inline(always)]
    pub fn step(&mut self, event: &Event) -> Result<Answer, Refusal>
        ensures done { IfOk result (λ a. MayReply self.old (Step event.now) self.new (Answered a)) }
        ensures refused { IfErr result (λ e. MayFail self.old (Step event.now) self.new e) }
        ensures unchanged { OnErr result (self.new ≡ self.old) }
        ensures spares { OnOk result
            ((region : ℕ) → event.now ≡ Sweep region
            → SparesReached self.old.trail.current self.new.trail.current) }
        ensures live { OnOk result (event.now ≡ Finish → ReachesLive self.new.trail.current) }
        ensures finds { OnOk result
            (event.now ≡ Finish → FindsSnapshot self.old.trail.past self.new.trail.current) }
    {
        self.step_sort(&AnyEvent(event))
    }

    // Takes a step whose sort its type tells, as `step` does.
    #[inline(always)]
    fn step_sort<E: ApplyEvent>(&mut self, event: &E) -> Result<Answer, Refusal>
        ensures done { IfOk result
            (λ a. MayReply self.old (Step (E.event event.now)) self.new (Answered a)) }
        ensures refused { IfErr result
            (λ e. MayFail self.old (Step (E.event event.now)) self.new e) }
        ensures unchanged { OnErr result (self.new ≡ self.old) }
        ensures spares { OnOk result
            ((region : ℕ) → E.event event.now ≡ Sweep region
            → SparesReached self.old.trail.current self.new.trail.current) }
        ensures live { OnOk result
            (E.event event.now ≡ Finish → ReachesLive self.new.trail.current) }
        ensures finds { OnOk result
            (E.event event.now ≡ Finish
            → FindsSnapshot self.old.trail.past self.new.trail.current) }
    {
        if self.place >= LAST_PLACE {
            return Err(Refusal::ChronicleFull);
        }
        // By this law the record leads back to the state before.
        undo_restores();
        let (answer, left) = apply_sort(&mut self.world, event)?;
        remember(&mut self.pins, &self.world, &mut self.records, left);
        self.place += 1;
        Ok(answer)
    }

    /// Undoes the last `n` retained steps and returns the new place. Pins above it are lost. Fails with TooFar if fewer are
    /// retained. Takes no memory.
    pub fn rewind(&mut self, n: u64) -> Result<u64, Refusal>
        ensures done { IfOk result (λ p. acted self.old (Rewind n) ≡ (self.new, Place p)) }
        ensures refused { IfErr result (λ e. acted self.old (Rewind n) ≡ (self.new, Refused e)) }
        ensures unchanged { OnErr result (self.new ≡ self.old) }
    {
        let retained = self.retained_count();
        if n > retained {
            return Err(Refusal::TooFar { asked: n, retained });
        }
        let to = self.place() - n;
        self.lose(to);
        for _done in 0..n {
            self.undo_last();
        }
        Ok(self.place())
    }

    // Loses the pins above a place.
    fn lose(&mut self, to: u64)
        ensures { self.new ≡ record self.old { pins = after_rewind to self.old.pins } }
    {
        lose_above(&mut self.pins, to);
    }

    // Undoes the last step.
    fn undo_last(&mut self)
        requires some { 0 < retained self.old.trail }
        requires below { AreAllBelow self.old.trail.place self.old.pins }
        ensures { self.new ≡ record self.old { trail = rewound 1 self.old.trail } }
    {
        match self.records.pop_front() {
            Some(left) => {
                undo(&mut self.world, left);
                self.place -= 1;
            }
            None => unreachable!(),
        }
    }

    /// Takes a step and returns its reply, as `act` does.
    #[inline(always)]
    pub fn reply_to<E: ApplyEvent>(&mut self, event: &E) -> Reply
        ensures reply { MayReply self.old (Step (E.event event.now)) self.new result }
        ensures small { IsSmall result }
    {
        match self.step_sort(event) {
            Ok(answer) => Reply::Answered(answer),
            Err(refusal) => Reply::Refused(refusal),
        }
    }

    /// Does an action and returns its reply.
    #[inline(always)]
    pub fn act(&mut self, action: &Action) -> Reply
        ensures reply { MayReply self.old action.now self.new result }
        ensures small { IsSmall result }
    {
        match action {
            Action::Step(event) => self.reply_to(&AnyEvent(event)),
            Action::Rewind(n) => match self.rewind(*n) {
                Ok(place) => Reply::Place(place),
                Err(refusal) => Reply::Refused(refusal),
            },
            Action::OpenPin(at) => match self.open_pin(*at) {
                Ok(PinAt { pin, at }) => Reply::Pinned { pin, at },
                Err(refusal) => Reply::Refused(refusal),
            },
            Action::NextPiece { pin, time } => match self.piece(*pin, *time) {
                Ok(piece) => Reply::Part(piece),
                Err(refusal) => Reply::Refused(refusal),
            },
            Action::ClosePin(pin) => match self.close_pin(*pin) {
                Ok(()) => Reply::Closed,
                Err(refusal) => Reply::Refused(refusal),
            },
        }
    }

    /// Returns the number of steps that lead to the current state.
    pub fn place(&self) -> u64
        ensures value { result ≡ self.now.trail.place }
        ensures trail { IsTrail self.now.keep self.now.trail }
    {
        self.place
    }

    /// Returns the number of steps that can be undone: at most `keep`.
    pub fn retained_count(&self) -> u64
        ensures { result ≡ retained self.now.trail }
    {
        self.records.len() as u64
    }

    /// Returns the current state.
    pub fn world(&self) -> &World
        ensures value { result.now ≡ self.now.trail.current }
        ensures legal { IsLegal self.now.trail.current }
    {
        &self.world
    }
}

/// States that dumps leave the trail of every list of actions as it is without them.
pub fn dumps_leave_trail()
    ensures { (m : Machine) (actions : List (Action × Allocation)) → LeavesTrail m actions }
{}

/// States that a pin that isn't lost keeps its place and its image under every action.
pub fn pins_keep_images()
    ensures { (m : Machine) (a : Action × Allocation) (pin : ℕ) → KeepsImage m a pin }
{}

/// States that a step that is answered and then a rewind of one lead back to the state and the place before.
pub fn step_leads_back()
    ensures { (m : Machine) (e : Event) (n : Machine) (a : Answer) → LeadsBack m e n a }
{}

/// States what each answered step of a machine whose trail is legal keeps, as `step` does: a sweep leaves each object that the
/// registers reach as it was; after a finish all that they reach is live, and so is what they reached when the cycle began, if
/// that state is still retained.
pub fn steps_keep_reached()
    ensures { (m : Machine) (e : Event) (n : Machine) (a : Answer) → IsTrail m.keep m.trail
        → MayReply m (Step e) n (Answered a) → KeepsReached e m.trail n.trail.current }
{}

/// States that a legal trail is legal after every list of actions, so that `steps_keep_reached` speaks of each of its steps.
pub fn trails_stay_legal()
    ensures { (m : Machine) (actions : List (Action × Allocation)) → KeepsTrail m actions }
{}

/// States that nothing in the dump of a legal heap is cut off, whatever the size of identifiers.
pub fn dump_is_whole()
    ensures { (ids : IdSize) (w : HeapState) (time : ℕ) → DumpIsWhole ids w time }
{}

/// States that the pieces of a pin, whatever else is done between them, are a beginning of the text of its image, and all of
/// it once the last piece was given.
pub fn dumps_are_text()
    ensures { (m : Machine) (actions : List (Action × Allocation)) (pin time : ℕ)
        → GivesText m actions pin time }
{}

/// States what holds after every list of actions. To undo the last retained step restores the whole state before it, to
/// rewind `n` retained steps, at once or in parts, gives the state `n` steps ago, and a pin that is opened shows the state at
/// its place. In the list, steps and rewinds go as without its dumps. The pieces of a pin, also if it is closed, lost or left
/// in the middle, are a beginning of the text of its image, which it keeps, and all of it once its last piece was given.
pub fn headline()
    ensures { (m : Machine) (actions : List (Action × Allocation)) → Headline m actions }
{}
