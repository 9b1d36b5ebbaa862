//! The calls of the marker, and the undoing of each.
ghost use Rattle.std.specs.Prelude.{ℕ, take, false, IsTrue, ◌≡◌, ◌+◌, ◌-◌, ◌<◌, ◌≤◌, ◌++◌, ◌∷◌, ◌==◌, ◌&&◌, [], not, length, reverse, slice_get, slice_index, List, None, Some, true, Contains, IsSome, IfSome, IsSomeAnd, fold, IfOk, IfErr, OnOk, OnErr, if◌then◌else◌};
ghost use Rattle.heap_class.specs.Refusals.{IsAnswered};
ghost use Rattle.heap_class.specs.Classes.{Class};
ghost use Rattle.heap_class.specs.Kinds.{is_reference};
ghost use Rattle.heap_class.specs.declared.Kind.{Kind};
ghost use Rattle.heap_class.specs.declared.Refusal.TheVariants.{NoMemory};
ghost use Rattle.heap_region.specs.Regions.{object_at, object_of};
ghost use Rattle.heap_region.specs.Legal.{EachObject};
ghost use Rattle.heap_mark.specs.MarkSteps.{MarkState, shaded, unshaded, is_marking, children_of, snap_refusal, snapped, unsnapped, mark_refusal, marked, unmarked, drain_refusal, drained_once, undrained, finish_refusal, finished, unfinished, dead_count};
ghost use Rattle.heap_mark.specs.Marker.{references_among, MarkerState, work, after_work, pool_with, idle_marker, IsNullOrNames, IsGraySound, HasSlots, IsIdle};

use crate::Phase;
use crate::finish::{first_pending, turn_all, turn_all_back};
use heap_class::{Classes, Items, Kind, ObjKind, ObjRef, Refusal};
use heap_region::Regions;
use std::alloc::Global;
use std::marker::Model;
use std::mem;

/// The outcome of `mark`, as `unmark` needs it.
#[derive(Clone, Copy, PartialEq, Eq)]
pub struct Marked {
    /// The id of the object that was taken off the gray stack.
    pub parent: u64,
    /// The number of its children that were marked and pushed.
    pub pushed: u64,
}

/// The log of a cycle that has ended, moved whole.
pub type CycleLog = Items<u64>;

/// The outcome of `finish`.
#[derive(Drop)]
pub struct Finished {
    /// The number of objects that aren't live now.
    pub condemned: u64,
    /// The log of the cycle, as `unfinish` needs it.
    pub log: CycleLog,
}

/// The marker: a stack of gray ids with room for every object, a log of overwritten references with the number of its entries
/// that were drained, and the phase. The marks themselves are bits of the objects.
#[derive(Drop)]
pub struct Marker {
    alloc: Global,
    // The gray stack, its top last.
    gray: Vec<u64>,
    log: Vec<u64>,
    drained: u64,
    phase: Phase,
}

impl Model for Marker {
    ghost use Rattle.std.specs.Prelude.{reverse, vec_capacity, ◌≤◌, length};
    ghost use Rattle.heap_mark.specs.Marker.{MarkerState};

    ghost Value = { MarkerState };

    ghost view = { λ m.
        record {
          gray = reverse m.gray.items;
          room = vec_capacity m.gray;
          log = m.log.items;
          drained = m.drained;
          phase = m.phase;
        } };

    ghost invariant = { λ m. m.drained ≤ length m.log.items };
}

impl Marker {
    /// Creates an idle marker with room for `room` gray ids. Fails with NoMemory if that room can't be reserved.
    pub fn new(alloc: Global, room: u64) -> Result<Marker, Refusal>
        ensures idle { IfOk result (λ m. m ≡ idle_marker room) }
        ensures refused { IfErr result (λ e. e ≡ NoMemory) }
    {
        Ok(Marker {
            alloc,
            gray: Vec::with_capacity(alloc, room as usize)?,
            log: Vec::new(alloc),
            drained: 0,
            phase: Phase::Idle,
        })
    }

    /// Returns the phase: whether a cycle runs.
    #[inline(always)]
    pub fn phase(&self) -> Phase
        ensures { result ≡ self.now.phase }
    {
        self.phase
    }

    /// Returns the ids of the gray objects. The last is the next to be marked.
    pub fn gray(&self) -> &[u64]
        ensures { reverse result.now ≡ self.now.gray }
    {
        &self.gray
    }

    /// Returns the ids that the barrier logged, the oldest first.
    pub fn log(&self) -> &[u64]
        ensures { result.now ≡ self.now.log }
    {
        &self.log
    }

    /// Returns the number of entries of the log that were drained.
    pub fn drain_count(&self) -> u64
        ensures value { result ≡ self.now.drained }
        ensures limit { result ≤ length self.now.log }
    {
        self.drained
    }

    /// Begins a cycle: marks and pushes the objects that the roots name, in order, each once. Skips null; each other root must
    /// name an object. Returns the number of objects. Fails with AlreadyMarking if a cycle runs. Takes no memory.
    pub fn snap(&mut self, regions: &mut Regions, roots: &[u64]) -> Result<u64, Refusal>
        requires sound { IsGraySound regions.old.regions self.old }
        requires roots { (x : ℕ) → Contains roots.now x → IsNullOrNames regions.old.regions x }
        ensures answered { IsAnswered (snap_refusal (work regions.old self.old)) false result }
        ensures marker { OnOk result
            (self.new ≡ after_work (snapped roots.now (work regions.old self.old)) self.old) }
        ensures regions { OnOk result
            (regions.new ≡ pool_with (snapped roots.now (work regions.old self.old)) regions.old) }
        ensures pushed { IfOk result (λ n. n ≡ length self.new.gray) }
        ensures unchanged { OnErr result ((self.new ≡ self.old) × (regions.new ≡ regions.old)) }
    {
        if self.phase.is_marking() {
            return Err(Refusal::AlreadyMarking);
        }
        self.phase = Phase::Marking;
        self.shade_all(regions, roots);
        Ok(self.gray.len() as u64)
    }

    /// Undoes `snap`, which must have led to this state: no object is marked, nothing is gray and no cycle runs. Takes no
    /// memory.
    pub fn unsnap(&mut self, regions: &mut Regions)
        requires snapped { (before : MarkState) × (roots : List ℕ) × IsIdle before
            × (work regions.old self.old ≡ snapped roots before) }
        ensures marker { self.new ≡ after_work (unsnapped (work regions.old self.old)) self.old }
        ensures regions { regions.new
            ≡ pool_with (unsnapped (work regions.old self.old)) regions.old }
        ensures back { (before : MarkState) (roots : List ℕ) → IsIdle before
            → work regions.old self.old ≡ snapped roots before
            → work regions.new self.new ≡ before }
    {
        let count = self.gray.len() as u64;
        self.unshade(regions, count);
        self.phase = Phase::Idle;
    }

    /// Pops the object at the top of the gray stack, and marks and pushes its unmarked children in slot order. Gray ids and the
    /// references of their objects must name objects. Fails with NotMarking if no cycle runs, or with NothingToMark if nothing
    /// is gray. Takes no memory.
    pub fn mark(&mut self, regions: &mut Regions, classes: &Classes) -> Result<Marked, Refusal>
        requires sound { IsGraySound regions.old.regions self.old }
        requires slots { (x : ℕ) → Contains self.old.gray x
            → IfSome (object_of regions.old.regions x)
            (λ o. HasSlots classes.now o.kind (length o.words)) }
        requires children { (x : ℕ) → Contains self.old.gray x → (y : ℕ)
            → Contains (children_of classes.now regions.old.regions x) y
            → IsSome (object_of regions.old.regions y) }
        ensures answered { IsAnswered (mark_refusal (work regions.old self.old)) false result }
        ensures marker { OnOk result
            (self.new ≡ after_work (marked classes.now (work regions.old self.old)) self.old) }
        ensures regions { OnOk result
            (regions.new ≡ pool_with (marked classes.now (work regions.old self.old)) regions.old) }
        ensures parent { IfOk result (λ p. p.parent ≡ slice_index self.old.gray 0) }
        ensures pushed { IfOk result
            (λ p. p.pushed ≡ length self.new.gray + 1 - length self.old.gray) }
        ensures unchanged { OnErr result ((self.new ≡ self.old) × (regions.new ≡ regions.old)) }
    {
        if !self.phase.is_marking() {
            return Err(Refusal::NotMarking);
        }
        let Some(parent) = self.gray.pop() else {
            return Err(Refusal::NothingToMark);
        };
        let before = self.gray.len();
        self.shade_children(regions, classes, parent);
        let pushed = (self.gray.len() - before) as u64;
        Ok(Marked { parent, pushed })
    }

    /// Undoes `mark`: unmarks the `pushed` newest gray objects and takes them off the stack, and pushes the parent again. At
    /// least `pushed` objects must be gray. Takes no memory.
    pub fn unmark(&mut self, regions: &mut Regions, parent: u64, pushed: u64)
        requires sound { IsGraySound regions.old.regions self.old }
        requires within { pushed ≤ length self.old.gray }
        requires given { IsGraySound (unmarked parent pushed (work regions.old self.old)).regions
            (after_work (unmarked parent pushed (work regions.old self.old)) self.old) }
        ensures marker { self.new
            ≡ after_work (unmarked parent pushed (work regions.old self.old)) self.old }
        ensures regions { regions.new
            ≡ pool_with (unmarked parent pushed (work regions.old self.old)) regions.old }
        ensures back { (before : MarkState) (classes : List Class) → mark_refusal before ≡ None
            → work regions.old self.old ≡ marked classes before
            → parent ≡ slice_index before.gray 0
            → pushed ≡ length self.old.gray + 1 - length before.gray
            → work regions.new self.new ≡ before }
    {
        self.unshade(regions, pushed);
        // Its contract says that the regions are whole.
        let _count = regions.count();
        self.gray.push_reserved(parent);
    }

    /// Marks and pushes the object that the next entry of the log names, if it is unmarked. Each entry must name an object.
    /// Returns the number of objects pushed, 0 or 1. Fails with NotMarking if no cycle runs, or with NothingToDrain if no entry
    /// is left. Takes no memory.
    pub fn drain(&mut self, regions: &mut Regions) -> Result<u64, Refusal>
        requires sound { IsGraySound regions.old.regions self.old }
        requires entries { (x : ℕ) → Contains self.old.log x
            → IsSome (object_of regions.old.regions x) }
        ensures answered { IsAnswered (drain_refusal (work regions.old self.old)) false result }
        ensures marker { OnOk result
            (self.new ≡ after_work (drained_once (work regions.old self.old)) self.old) }
        ensures regions { OnOk result
            (regions.new ≡ pool_with (drained_once (work regions.old self.old)) regions.old) }
        ensures pushed { IfOk result (λ n. n ≡ length self.new.gray - length self.old.gray) }
        ensures unchanged { OnErr result ((self.new ≡ self.old) × (regions.new ≡ regions.old)) }
    {
        if !self.phase.is_marking() {
            return Err(Refusal::NotMarking);
        }
        if self.drained >= self.log.len() as u64 {
            return Err(Refusal::NothingToDrain);
        }
        let id = self.log[self.drained as usize];
        self.drained += 1;
        let before = self.gray.len();
        self.shade(regions, id);
        Ok((self.gray.len() - before) as u64)
    }

    /// Undoes `drain`: unmarks the `pushed` newest gray objects and takes them off the stack, and makes the last drained entry
    /// the next one again. An entry must have been drained, and at least `pushed` objects must be gray. Takes no memory.
    pub fn undrain(&mut self, regions: &mut Regions, pushed: u64)
        requires sound { IsGraySound regions.old.regions self.old }
        requires within { pushed ≤ length self.old.gray }
        requires drained { 0 < self.old.drained }
        ensures marker { self.new
            ≡ after_work (undrained pushed (work regions.old self.old)) self.old }
        ensures regions { regions.new
            ≡ pool_with (undrained pushed (work regions.old self.old)) regions.old }
        ensures back { (before : MarkState) → work regions.old self.old ≡ drained_once before
            → pushed ≡ length self.old.gray - length before.gray
            → work regions.new self.new ≡ before }
    {
        self.unshade(regions, pushed);
        self.drained -= 1;
    }

    /// Ends the cycle: the marked objects are live, the others aren't, none is marked, and every region in use waits to be
    /// swept. Returns the number of objects that aren't live, and the log. Fails with NotMarking if no cycle runs, with NotDone
    /// if an object is gray or an entry of the log is left, or with SweepPending and the lowest region that waits to be swept,
    /// if one does. Takes no memory.
    pub fn finish(&mut self, regions: &mut Regions) -> Result<Finished, Refusal>
        requires { finish_refusal (work regions.old self.old) ≡ None
            → EachObject regions.old.regions (λ at o. o.live ≡ true) }
        ensures answered { IsAnswered (finish_refusal (work regions.old self.old)) false result }
        ensures marker { OnOk result
            (self.new ≡ after_work (finished (work regions.old self.old)) self.old) }
        ensures regions { OnOk result
            (regions.new ≡ pool_with (finished (work regions.old self.old)) regions.old) }
        ensures condemned { IfOk result (λ f. f.condemned ≡ dead_count regions.new.regions) }
        ensures log { IfOk result (λ f. f.log ≡ self.old.log) }
        ensures unchanged { OnErr result ((self.new ≡ self.old) × (regions.new ≡ regions.old)) }
    {
        if !self.phase.is_marking() {
            return Err(Refusal::NotMarking);
        }
        let gray = self.gray.len() as u64;
        let undrained = self.log.len() as u64 - self.drained;
        if gray > 0 || undrained > 0 {
            return Err(Refusal::NotDone { gray, undrained });
        }
        if let Some(region) = first_pending(regions) {
            return Err(Refusal::SweepPending { region });
        }
        let condemned = turn_all(regions);
        let ids = mem::replace(&mut self.log, Vec::new(self.alloc));
        (self.drained, self.phase) = (0, Phase::Idle);
        Ok(Finished {
            condemned,
            log: CycleLog::from_vec(ids),
        })
    }

    /// Undoes `finish`, given the log that it returned: marks the objects that are live, makes all of them live, lets no region
    /// wait to be swept, and has the log drained. Takes no memory.
    pub fn unfinish(&mut self, regions: &mut Regions, log: CycleLog)
        requires { (before : MarkState) × (finish_refusal before ≡ None)
            × EachObject before.regions (λ at o. o.live ≡ true)
            × (regions.old.regions ≡ (finished before).regions) }
        ensures marker { self.new
            ≡ after_work (unfinished log (work regions.old self.old)) self.old }
        ensures regions { regions.new
            ≡ pool_with (unfinished log (work regions.old self.old)) regions.old }
        ensures back { (before : MarkState) → finish_refusal before ≡ None
            → EachObject before.regions (λ at o. o.live ≡ true) → before.drained ≤ length before.log
            → log ≡ before.log → work regions.old self.old ≡ finished before
            → work regions.new self.new ≡ before }
    {
        turn_all_back(regions);
        self.drained = log.len();
        self.log = log.into_vec();
        self.phase = Phase::Marking;
    }

    /// Appends an overwritten reference to the log if a cycle runs and the reference isn't null. Tells whether it did. Fails
    /// with NoMemory if the log can't grow, and changes nothing then.
    #[inline(always)]
    pub fn log_old(&mut self, old: u64) -> Result<bool, Refusal>
        ensures logged { IfOk result (λ b. b ≡ (is_marking self.old.phase && not (old == 0))) }
        ensures log { IfOk result
            (λ b. self.new
            ≡ (if b then record self.old { log = self.old.log ++ old ∷ [] } else self.old)) }
        ensures refused { IfErr result
            (λ e. (e ≡ NoMemory) × ((is_marking self.old.phase && not (old == 0)) ≡ true)) }
        ensures unchanged { OnErr result (self.new ≡ self.old) }
    {
        if !self.phase.is_marking() || old == 0 {
            return Ok(false);
        }
        self.log.push(old)?;
        Ok(true)
    }

    /// Undoes `log_old`, given the flag that it returned. If it is true, an entry must be left to drain. Takes no memory.
    pub fn unlog_old(&mut self, logged: bool)
        requires entry { IsTrue logged → self.old.drained < length self.old.log }
        ensures log { self.new
            ≡ (if logged then record self.old { log = take (length self.old.log - 1) self.old.log }
            else self.old) }
        ensures back { (before : MarkerState) (old : ℕ)
            → self.old ≡ (if logged then record before { log = before.log ++ old ∷ [] } else before)
            → self.new ≡ before }
    {
        if logged {
            self.log.pop();
        }
    }

    // Marks and pushes the object that the id names, if it is unmarked. Skips null.
    #[inline(always)]
    fn shade(&mut self, regions: &mut Regions, id: u64)
        requires sound { IsGraySound regions.old.regions self.old }
        requires names { IsNullOrNames regions.old.regions id }
        ensures marker { self.new ≡ after_work (shaded (work regions.old self.old) id) self.old }
        ensures regions { regions.new
            ≡ pool_with (shaded (work regions.old self.old) id) regions.old }
    {
        if id == 0 {
            return;
        }
        let at = regions.place(id);
        let (_, is_marked) = regions.bits(at);
        if is_marked {
            return;
        }
        // The stack has room for the ids of all cells of that many regions.
        let _count = regions.count();
        regions.set_mark(at, true);
        self.gray.push_reserved(id);
    }

    // Shades the objects that the ids name, one after another.
    fn shade_all(&mut self, regions: &mut Regions, ids: &[u64])
        requires sound { IsGraySound regions.old.regions self.old }
        requires names { (x : ℕ) → Contains ids.now x → IsNullOrNames regions.old.regions x }
        ensures marker { self.new
            ≡ after_work (fold shaded (work regions.old self.old) ids.now) self.old }
        ensures regions { regions.new
            ≡ pool_with (fold shaded (work regions.old self.old) ids.now) regions.old }
    {
        for id in ids {
            self.shade(regions, *id);
        }
    }

    // Shades the objects that the references of an object name, in slot order.
    #[tactic(auto, using(crate::proofs::Children::children_by_kind), unfolding(heap_region::specs::Regions::object_of))]
    fn shade_children(&mut self, regions: &mut Regions, classes: &Classes, parent: u64)
        requires sound { IsGraySound regions.old.regions self.old }
        requires slots { IsSomeAnd (object_of regions.old.regions parent)
            (λ o. HasSlots classes.now o.kind (length o.words)) }
        requires children { (y : ℕ)
            → Contains (children_of classes.now regions.old.regions parent) y
            → IsSome (object_of regions.old.regions y) }
        ensures marker { self.new
            ≡ after_work (fold shaded (work regions.old self.old)
            (children_of classes.now regions.old.regions parent)) self.old }
        ensures regions { regions.new
            ≡ pool_with (fold shaded (work regions.old self.old)
            (children_of classes.now regions.old.regions parent)) regions.old }
    {
        let at = regions.place(parent);
        match regions.kind(at) {
            ObjKind::Instance(class) => self.shade_fields(regions, at, classes.slots(class as u64)),
            ObjKind::Array(_) => self.shade_elements(regions, at),
            ObjKind::Prim(_) => {}
        }
    }

    // Shades the objects that the reference slots of an object name, by the kinds of its slots.
    fn shade_fields(&mut self, regions: &mut Regions, at: ObjRef, kinds: &[Kind])
        requires sound { IsGraySound regions.old.regions self.old }
        requires slots { IsSomeAnd (object_at regions.old.regions at)
            (λ o. length o.words ≡ length kinds.now) }
        requires names { IfSome (object_at regions.old.regions at)
            (λ o. (slot : ℕ) (kind : Kind) → slice_get kinds.now slot ≡ Some kind
            → is_reference kind ≡ true
            → IsNullOrNames regions.old.regions (slice_index o.words slot)) }
        ensures marker { IfSome (object_at regions.old.regions at)
            (λ o. self.new
            ≡ after_work (fold shaded (work regions.old self.old)
            (references_among kinds.now o.words)) self.old) }
        ensures regions { IfSome (object_at regions.old.regions at)
            (λ o. regions.new
            ≡ pool_with (fold shaded (work regions.old self.old)
            (references_among kinds.now o.words)) regions.old) }
    {
        for (slot, kind) in kinds.iter().enumerate() {
            if kind.is_reference() {
                self.shade(regions, regions.word(at, slot as u64));
            }
        }
    }

    // Shades the objects that the slots of an array of references name.
    fn shade_elements(&mut self, regions: &mut Regions, at: ObjRef)
        requires sound { IsGraySound regions.old.regions self.old }
        requires names { IsSomeAnd (object_at regions.old.regions at)
            (λ o. (y : ℕ) → Contains o.words y → IsNullOrNames regions.old.regions y) }
        ensures marker { IfSome (object_at regions.old.regions at)
            (λ o. self.new
            ≡ after_work (fold shaded (work regions.old self.old) o.words) self.old) }
        ensures regions { IfSome (object_at regions.old.regions at)
            (λ o. regions.new
            ≡ pool_with (fold shaded (work regions.old self.old) o.words) regions.old) }
    {
        for slot in 0..regions.len(at) {
            self.shade(regions, regions.word(at, slot));
        }
    }

    // Unmarks the `count` newest gray objects and takes them off the stack.
    fn unshade(&mut self, regions: &mut Regions, count: u64)
        requires within { count ≤ length self.old.gray }
        requires names { (x : ℕ) → Contains self.old.gray x
            → IsSome (object_of regions.old.regions x) }
        ensures marker { self.new
            ≡ after_work (unshaded count (work regions.old self.old)) self.old }
        ensures regions { regions.new
            ≡ pool_with (unshaded count (work regions.old self.old)) regions.old }
    {
        for _step in 0..count {
            self.unshade_top(regions);
        }
    }

    // Unmarks the object at the top of the gray stack and pops it.
    fn unshade_top(&mut self, regions: &mut Regions)
        requires within { 0 < length self.old.gray }
        requires names { IsSome (object_of regions.old.regions (slice_index self.old.gray 0)) }
        ensures marker { self.new ≡ after_work (unshaded 1 (work regions.old self.old)) self.old }
        ensures regions { regions.new
            ≡ pool_with (unshaded 1 (work regions.old self.old)) regions.old }
    {
        let Some(id) = self.gray.pop() else {
            unreachable!();
        };
        let at = regions.place(id);
        regions.set_mark(at, false);
    }
}
