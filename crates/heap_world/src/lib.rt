//! The whole state of the heap, the rules that it keeps, and the effect of each event.
#![tactic(auto)]

ghost use Rattle.std.specs.Prelude.{◌≡◌, ◌≢◌, ◌⊎◌, ◌+◌, ◌-◌, ◌*◌, ◌<◌, ◌≤◌, ◌↔◌, ◌&&◌, ℕ, nat_lt, length, reverse, take, replicate, Some, None, true, false, IsTrue, Contains, IsSome, IfSome, IfOk, IfErr, OnOk, OnErr, slice_get, slice_set};
ghost use Rattle.heap_class.specs.Classes.{instance_class, is_instance_class, slots_of};
ghost use Rattle.heap_class.specs.Limits.{class_limit};
ghost use Rattle.heap_class.specs.Refusals.{IsAnswered};
ghost use Rattle.heap_class.specs.declared.IdSize.TheVariants.{Eight};
ghost use Rattle.heap_class.specs.declared.ObjKind.TheVariants.{Instance};
ghost use Rattle.heap_class.specs.declared.Refusal.TheVariants.{NoMemory, NullRegister, BadSlot, HeapFull};
ghost use Rattle.heap_region.specs.Regions.{object_at, ref_of, slot_kinds, with_word};
ghost use Rattle.heap_region.specs.Pool.{new_place, is_fresh, unallocated};
ghost use Rattle.heap_world.specs.Limits.{AreHeapSettings, AreLimits, AreNarrowSettings, HeapSettings, mutator_limit, narrow_limits, registers_each, wide_limits, with_area};
ghost use Rattle.heap_world.specs.State.{HeapState, opening_state, is_register, register, with_register, pool_of, with_pool, place_in, slot_kind};
ghost use Rattle.heap_world.specs.Legal.{IsLegal, MayHold};
ghost use Rattle.heap_world.specs.Events.{is_full, new_array_refusal, new_refusal, after_new, put_refusal, after_put, IsNewClass, IsNewObject, IsSlotAt};

mod arrays;
mod marking;
mod references;
mod sweeping;

use heap_class::{
    ClassLimits, ClassNo, Classes, IdSize, Kind, KindClass, NewClass, ObjKind, ObjRef, Refusal,
    WIDEST_CLASSES,
};
use heap_mark::{Marker, Phase};
use heap_region::Regions;
use std::alloc::Global;
use std::marker::Model;

/// The largest number of regions of a wide heap.
pub const REGION_LIMIT: u64 = 65536;

/// The largest number of mutators of a heap.
pub const MUTATOR_LIMIT: u64 = 16;

/// The number of registers of each mutator.
pub const REGISTERS_EACH: u64 = 8;

/// The largest number of elements of an array in a heap without an area.
pub const ARRAY_LIMIT: u64 = 1024;

/// The largest number of elements of an array in a heap with an area.
pub const LARGE_ARRAY_LIMIT: u64 = 2_097_147;

/// The largest number of steps that can be undone in a wide heap.
pub const KEEP_LIMIT: u64 = 16_777_216;

/// What a heap allows. No event changes it.
#[derive(Clone, Copy)]
pub struct Limits {
    /// What it allows of its classes and their names.
    pub classes: ClassLimits,
    /// The largest number of open pins, lost ones included: at most 64.
    pub pins: u64,
    /// The largest number of elements of an array: at most 2,097,147.
    pub elements: u64,
    /// The number of regions of the area, in which arrays of more than 1,024 elements lie.
    pub area: u64,
}

/// What a heap allows that isn't wide: 256 classes, names of 64 letters, digits and `_$/[;.`, and 4 pins.
pub const NARROW_LIMITS: Limits = Limits {
    classes: ClassLimits {
        classes: 256,
        name_bytes: 64,
        any_sign: false,
    },
    pins: 4,
    elements: ARRAY_LIMIT,
    area: 0,
};

/// What a wide heap allows: 4,096 classes, names of 255 bytes that print a sign, except the colon, and 64 pins.
pub const WIDE_LIMITS: Limits = Limits {
    classes: WIDEST_CLASSES,
    pins: 64,
    elements: ARRAY_LIMIT,
    area: 0,
};

/// The largest number of regions of a heap that isn't wide.
pub const NARROW_REGIONS: u64 = 256;

/// The largest number of steps that can be undone in a heap that isn't wide.
pub const NARROW_KEEP: u64 = 65536;

// The largest number of cells of a region.
const CELLS_EACH: u64 = 256;

/// The settings of a heap: 1 to 256 regions, in a wide heap 1 to 65,536; 1 to 16 mutators; 1 to 65,536 steps that can be undone,
/// in a wide heap 1 to 2^24; the size of the ids in its dumps; and what it allows of classes, their names and pins.
#[derive(Clone, Copy)]
pub struct Config {
    regions: u64,
    mutators: u64,
    keep: u64,
    ids: IdSize,
    limits: Limits,
}

impl Model for Config {
    ghost use Rattle.std.specs.Prelude.{◌<◌};
    ghost use Rattle.heap_world.specs.Limits.{AreHeapSettings, AreLimits, HeapSettings};

    ghost Value = { HeapSettings };

    ghost view = { λ c.
        record {
          regions = c.regions;
          mutators = c.mutators;
          keep = c.keep;
          ids = c.ids;
          limits = c.limits;
        } };

    ghost inverse = { λ c.
        record {
          regions = c.regions;
          mutators = c.mutators;
          keep = c.keep;
          ids = c.ids;
          limits = c.limits;
        } };

    ghost invariant = { λ c. AreHeapSettings c.regions c.mutators c.keep × AreLimits c.limits
        × (c.limits.area < c.regions) };
}

impl Config {
    /// Creates settings of a heap that isn't wide, with ids of 8 bytes. None if a number is outside its limits: 1 to 256
    /// regions, 1 to 16 mutators and 1 to 65,536 steps that can be undone.
    pub fn new(regions: u64, mutators: u64, keep: u64) -> Option<Config>
        ensures given { IfSome result
            (λ c. c
            ≡ record {
              regions = regions;
              mutators = mutators;
              keep = keep;
              ids = Eight;
              limits = narrow_limits;
            }) }
        ensures within { IsSome result ↔ AreNarrowSettings regions mutators keep }
    {
        let sized = 1 <= regions
            && regions <= NARROW_REGIONS
            && 1 <= mutators
            && mutators <= MUTATOR_LIMIT;
        if !sized || keep == 0 || keep > NARROW_KEEP {
            return None;
        }
        Some(Config {
            regions,
            mutators,
            keep,
            ids: IdSize::Eight,
            limits: NARROW_LIMITS,
        })
    }

    /// Creates settings of a wide heap, with ids of 8 bytes. None if a number is outside its limits: 1 to 65,536 regions, 1 to
    /// 16 mutators and 1 to 2^24 steps that can be undone.
    pub fn wide(regions: u64, mutators: u64, keep: u64) -> Option<Config>
        ensures given { IfSome result
            (λ c. c
            ≡ record {
              regions = regions;
              mutators = mutators;
              keep = keep;
              ids = Eight;
              limits = wide_limits;
            }) }
        ensures within { IsSome result ↔ AreHeapSettings regions mutators keep }
    {
        let sized = 1 <= regions
            && regions <= REGION_LIMIT
            && 1 <= mutators
            && mutators <= MUTATOR_LIMIT;
        if !sized || keep == 0 || keep > KEEP_LIMIT {
            return None;
        }
        Some(Config {
            regions,
            mutators,
            keep,
            ids: IdSize::Eight,
            limits: WIDE_LIMITS,
        })
    }

    /// Returns the same settings with ids of another size.
    pub fn with_ids(self, ids: IdSize) -> Config
        ensures { result ≡ record self { ids = ids } }
    {
        Config { ids, ..self }
    }

    /// Returns the same settings with an area: the last regions, in which arrays of 1,025 to 2,097,147 elements lie. None if
    /// there is no region besides, or the area has none.
    pub fn with_area(self, area: u64) -> Option<Config>
        ensures given { IfSome result
            (λ c. c ≡ record self { limits = with_area area self.limits }) }
        ensures within { IsSome result ↔ ((1 ≤ area) × (area < self.regions)) }
    {
        if area == 0 || area >= self.regions {
            return None;
        }
        let limits = Limits {
            elements: LARGE_ARRAY_LIMIT,
            area,
            ..self.limits
        };
        Some(Config { limits, ..self })
    }

    /// Returns the number of regions: 1 to 256, in a wide heap 1 to 65,536.
    pub fn regions(&self) -> u64
        ensures value { result ≡ self.now.regions }
        ensures limits { AreHeapSettings self.now.regions self.now.mutators self.now.keep }
    {
        self.regions
    }

    /// Returns the number of mutators, 1 to 16.
    pub fn mutators(&self) -> u64
        ensures value { result ≡ self.now.mutators }
    {
        self.mutators
    }

    /// Returns the number of steps that can be undone: 1 to 65,536, in a wide heap 1 to 2^24.
    pub fn keep(&self) -> u64
        ensures value { result ≡ self.now.keep }
        ensures limits { AreHeapSettings self.now.regions self.now.mutators self.now.keep }
    {
        self.keep
    }

    /// Returns what the heap allows of classes, their names and pins.
    pub fn limits(&self) -> Limits
        ensures value { result ≡ self.now.limits }
        ensures within { AreLimits self.now.limits }
        ensures area { self.now.limits.area < self.now.regions }
    {
        self.limits
    }

    /// Returns the size of the ids in dumps.
    pub fn ids(&self) -> IdSize
        ensures { result ≡ self.now.ids }
    {
        self.ids
    }
}

/// The outcome of making an object, as `unmake` needs it.
#[derive(Clone, Copy)]
pub struct Created {
    /// Whether its region was taken from the pool.
    pub fresh: bool,
    /// The place of the object.
    pub at: ObjRef,
    /// The id of the object.
    pub id: u64,
    /// The old word of the register.
    pub old: u64,
}

/// The outcome of writing a value, as `unput` needs it.
#[derive(Clone, Copy)]
pub struct Overwritten {
    /// The place of the object.
    pub at: ObjRef,
    /// The old word of the slot.
    pub old: u64,
}

/// The outcome of writing a reference, as `unstore` needs it.
#[derive(Clone, Copy)]
pub struct Replaced {
    /// The place of the object.
    pub at: ObjRef,
    /// The old word of the slot.
    pub old: u64,
    /// Whether the old word was logged.
    pub logged: bool,
}

/// The outcome of reading a slot.
#[derive(Clone, Copy)]
pub struct Loaded {
    /// The word of the slot.
    pub word: u64,
    /// Whether the word is a reference, which went to the register.
    pub reference: bool,
    /// The old word of that register.
    pub old: u64,
}

// Returns `count` null registers. Fails with NoMemory if the allocation fails.
fn nulls(alloc: Global, count: usize) -> Result<Vec<u64>, Refusal>
    ensures null { IfOk result (λ v. v.items ≡ replicate count 0) }
    ensures refused { IfErr result (λ e. e ≡ NoMemory) }
{
    match vec![in alloc; 0; count] {
        Ok(registers) => Ok(registers),
        Err(_) => Err(Refusal::NoMemory),
    }
}

// Tells whether mutator `m` has a register `r`.
#[inline(always)]
fn is_register(registers: &[u64], m: u64, r: u64) -> bool
    requires { length registers.now ≤ mutator_limit * registers_each }
    ensures { result ≡ (nat_lt r 8 && nat_lt (8 * m + r) (length registers.now)) }
{
    r < REGISTERS_EACH && m < MUTATOR_LIMIT && REGISTERS_EACH * m + r < registers.len() as u64
}

// Writes a word to register `r` of mutator `m`.
#[inline(always)]
fn write_register(registers: &mut Vec<u64>, m: u64, r: u64, word: u64)
    requires { IsTrue (nat_lt r 8 && nat_lt (8 * m + r) (length registers.old.items)) }
    ensures { registers.new.items ≡ slice_set registers.old.items (8 * m + r) word }
{
    registers[(REGISTERS_EACH * m + r) as usize] = word;
}

// Returns the kind of a slot among these kinds, or None if there is no such slot.
#[inline(always)]
fn kind_at(kinds: &[Kind], slot: u64) -> Option<Kind>
    ensures { result ≡ slice_get kinds.now slot }
{
    kinds.get(slot as usize).copied()
}

// Returns the kind of a slot if all `len` slots have one kind, or None if there is no such slot.
#[inline(always)]
fn kind_within(kind: Kind, len: u64, slot: u64) -> Option<Kind>
    ensures { result ≡ slice_get (replicate len kind) slot }
{
    if slot < len { Some(kind) } else { None }
}

/// The heap. Contracts see its whole state.
#[derive(Drop)]
pub struct World {
    limits: Limits,
    classes: Classes,
    regions: Regions,
    registers: Vec<u64>,
    // The stack of the marker has room for the ids of all objects.
    marker: Marker,
}

impl Model for World {
    ghost use Rattle.heap_world.specs.State.{HeapState};
    ghost use Rattle.heap_world.specs.HeapParts.{heap_of_parts, IsSoundHeap};

    ghost Value = { HeapState };

    ghost view = { λ w. heap_of_parts w.limits w.classes w.regions w.registers.items w.marker };

    ghost invariant = { λ w. IsSoundHeap
        (heap_of_parts w.limits w.classes w.regions w.registers.items w.marker) w.marker.room };
}

impl World {
    /// Creates a heap: no class, each region empty, each register null. Reserves room for the gray stack. Fails with NoMemory
    /// if an allocation fails.
    pub fn new(alloc: Global, config: Config) -> Result<World, Refusal>
        ensures opened { IfOk result
            (λ w. w ≡ opening_state config.limits config.regions config.mutators) }
        ensures refused { IfErr result (λ e. e ≡ NoMemory) }
    {
        let count = config.regions();
        let mutators = config.mutators();
        let limits = config.limits();
        let regions = Regions::new(alloc, count, limits.area)?;
        let registers = nulls(alloc, (REGISTERS_EACH * mutators) as usize)?;
        let marker = Marker::new(alloc, CELLS_EACH * count)?;
        Ok(World {
            limits,
            classes: Classes::new(alloc),
            regions,
            registers,
            marker,
        })
    }

    /// Returns the phase: whether a cycle runs.
    #[inline(always)]
    pub fn phase(&self) -> Phase
        ensures value { result ≡ self.now.phase }
        ensures legal { IsLegal self.now }
    {
        self.marker.phase()
    }

    /// Returns what the heap allows of classes, their names and pins.
    pub fn limits(&self) -> Limits
        ensures value { result ≡ self.now.limits }
        ensures within { AreLimits self.now.limits }
    {
        self.limits
    }

    /// Returns the classes.
    pub fn classes(&self) -> &Classes
        ensures { result.now ≡ self.now.classes }
    {
        &self.classes
    }

    /// Returns the regions and the pool.
    pub fn regions(&self) -> &Regions
        ensures { result.now ≡ pool_of self.now }
    {
        &self.regions
    }

    /// Returns the registers, mutator by mutator, 8 each.
    pub fn registers(&self) -> &[u64]
        ensures value { result.now ≡ self.now.registers }
        ensures limit { length self.now.registers ≤ mutator_limit * registers_each }
        ensures legal { IsLegal self.now }
    {
        &self.registers
    }

    /// Tells whether mutator `m` has a register `r`.
    #[inline(always)]
    pub(crate) fn has_register(&self, m: u64, r: u64) -> bool
        ensures { result ≡ is_register self.now m r }
    {
        is_register(&self.registers, m, r)
    }

    /// Returns the word of register `r` of mutator `m`, which must be there.
    #[inline(always)]
    pub fn register(&self, m: u64, r: u64) -> u64
        requires { IsTrue (is_register self.now m r) }
        ensures { result ≡ register self.now m r }
    {
        self.registers[(REGISTERS_EACH * m + r) as usize]
    }

    /// Returns the ids of the gray objects. The last is the next to be marked.
    pub fn gray(&self) -> &[u64]
        ensures { reverse result.now ≡ self.now.gray }
    {
        self.marker.gray()
    }

    /// Returns the ids that the barrier logged, the oldest first.
    pub fn log(&self) -> &[u64]
        ensures { result.now ≡ self.now.log }
    {
        self.marker.log()
    }

    /// Returns the number of entries of the log that were drained.
    pub fn drain_count(&self) -> u64
        ensures value { result ≡ self.now.drained }
        ensures limit { result ≤ length self.now.log }
    {
        self.marker.drain_count()
    }

    /// Defines an instance class, and returns its number. Fails with NoClass, ClassLimit, BadName, DuplicateName or FieldLimit,
    /// in this order, and then with NoMemory if an allocation fails.
    pub fn define_class(&mut self, class: NewClass<'_>) -> Result<ClassNo, Refusal>
        ensures { IsNewClass
            (instance_class class.entry.name.now class.entry.sup class.entry.fields.now) self.old
            self.new result }
    {
        self.classes.define(self.limits.classes, class)
    }

    /// Undoes the last definition of a class, which must be there. The heap must be legal afterwards. Takes no memory.
    pub fn undefine_class(&mut self)
        requires there { 0 < length self.old.classes }
        requires legal { IsLegal
            (record self.old { classes = take (length self.old.classes - 1) self.old.classes }) }
        ensures { self.new
            ≡ record self.old { classes = take (length self.old.classes - 1) self.old.classes } }
    {
        self.classes.undefine_last()
    }

    /// Makes an instance of a class in register `r` of mutator `m`. Fails with BadRegister, NoClass, WrongKind (an array class)
    /// or HeapFull, in this order, and then with NoMemory if a region's storage can't be allocated.
    #[inline(always)]
    pub fn new_instance(&mut self, m: u64, r: u64, class: ClassNo) -> Result<Created, Refusal>
        ensures { IsNewObject m r (Instance class) (length (slots_of self.old.classes class))
            (new_refusal m r class self.old) self.old self.new result }
    {
        let len = self.instance_len(m, r, class)?;
        self.make(m, r, ObjKind::Instance(class as KindClass), len)
    }

    /// Undoes the making of an object: frees its cell and writes the old word to register `r` of mutator `m`. Object and
    /// register must be there. The heap must be legal afterwards. Takes no memory.
    pub fn unmake(&mut self, at: ObjRef, fresh: bool, m: u64, r: u64, old: u64)
        requires there { IsSome (object_at self.old.regions at) }
        requires register { IsTrue (is_register self.old m r) }
        requires legal { IsLegal
            (with_register m r old (with_pool (unallocated at fresh (pool_of self.old)) self.old)) }
        ensures { self.new
            ≡ with_register m r old (with_pool (unallocated at fresh (pool_of self.old)) self.old) }
    {
        self.regions.unalloc(at, fresh);
        write_register(&mut self.registers, m, r, old);
    }

    /// Writes a value slot of the object in register `target` of mutator `m`. Fails with BadRegister, NullRegister, BadSlot,
    /// WrongKind (a reference slot) or OutOfRange, in this order. Takes no memory.
    #[inline(always)]
    pub fn put(
        &mut self,
        m: u64,
        target: u64,
        slot: u64,
        value: u64,
    ) -> Result<Overwritten, Refusal>
        ensures answered { IsAnswered (put_refusal m target slot value self.old) false result }
        ensures written { OnOk result (self.new ≡ after_put m target slot value self.old) }
        ensures slot { IfOk result (λ p. IsSlotAt self.old m target slot p.at p.old) }
        ensures unchanged { OnErr result (self.new ≡ self.old) }
    {
        let at = self.put_place(m, target, slot, value)?;
        let old = self.regions.word(at, slot);
        self.regions.set_word(at, slot, value);
        Ok(Overwritten { at, old })
    }

    /// Undoes `put`: writes the old word to the slot, which must be there. The heap must be legal afterwards. Takes no memory.
    pub fn unput(&mut self, at: ObjRef, slot: u64, old: u64)
        requires there { IsSome (object_at self.old.regions at) }
        requires within { IfSome (object_at self.old.regions at) (λ o. slot < length o.words) }
        requires legal { IsLegal
            (record self.old { regions = with_word at slot old self.old.regions }) }
        ensures { self.new ≡ record self.old { regions = with_word at slot old self.old.regions } }
    {
        self.regions.set_word(at, slot, old)
    }

    // Checks that an object of a class may be asked for in a register. Fails with BadRegister or NoClass.
    #[inline(always)]
    fn allow_class(&self, m: u64, r: u64, class: ClassNo) -> Result<(), Refusal>
        ensures register { OnOk result (IsTrue (is_register self.now m r)) }
        ensures class { OnOk result (class < length self.now.classes) }
        ensures limit { OnOk result (class < class_limit) }
        ensures instance { IfErr result (λ e. new_refusal m r class self.now ≡ Some e) }
        ensures array { (len : ℕ)
            → IfErr result (λ e. new_array_refusal m r class len self.now ≡ Some e) }
    {
        if !self.has_register(m, r) {
            return Err(Refusal::BadRegister);
        }
        if class >= self.classes.len() {
            return Err(Refusal::NoClass);
        }
        Ok(())
    }

    // Returns the number of slots of an instance of the class. Fails with BadRegister, NoClass or WrongKind.
    #[inline(always)]
    fn instance_len(&self, m: u64, r: u64, class: ClassNo) -> Result<u64, Refusal>
        ensures register { OnOk result (IsTrue (is_register self.now m r)) }
        ensures class { OnOk result (is_instance_class self.now.classes class ≡ true) }
        ensures limit { OnOk result (class < class_limit) }
        ensures refused { IfErr result (λ e. new_refusal m r class self.now ≡ Some e) }
        ensures value { IfOk result (λ n. n ≡ length (slots_of self.now.classes class)) }
    {
        self.allow_class(m, r, class)?;
        if !self.classes.is_instance(class) {
            return Err(Refusal::WrongKind);
        }
        Ok(self.classes.slots(class).len() as u64)
    }

    // Makes an object of a kind that exists, with `len` slots, in a register. Fails with HeapFull or NoMemory.
    #[inline(always)]
    fn make(&mut self, m: u64, r: u64, kind: ObjKind, len: u64) -> Result<Created, Refusal>
        requires { MayHold self.old m r kind len }
        ensures room { OnOk result (is_full len self.old ≡ false) }
        ensures refused { IfErr result
            (λ e. ((e ≡ HeapFull) × (is_full len self.old ≡ true))
            ⊎ ((e ≡ NoMemory) × (is_fresh len (pool_of self.old) ≡ true))) }
        ensures made { OnOk result (self.new ≡ after_new m r kind len self.old) }
        ensures placed { IfOk result
            (λ c. new_place len (pool_of self.old) ≡ Some (c.at, c.fresh)) }
        ensures held { IfOk result
            (λ c. (c.id ≡ register self.new m r) × (c.old ≡ register self.old m r)) }
        ensures unchanged { OnErr result (self.new ≡ self.old) }
    {
        let mark = self.marker.phase().is_marking();
        let old = self.register(m, r);
        let placed = self.regions.alloc(kind, len, mark)?;
        write_register(&mut self.registers, m, r, placed.id);
        Ok(Created {
            fresh: placed.fresh,
            at: placed.at,
            id: placed.id,
            old,
        })
    }

    // Returns the kind of a slot of the object in the cell, or None if it has no such slot.
    #[inline(always)]
    fn slot_kind_at(&self, at: ObjRef, slot: u64) -> Option<Kind>
        requires { IsSome (object_at self.now.regions at) }
        ensures { IfSome (object_at self.now.regions at)
            (λ o. result ≡ slice_get (slot_kinds self.now.classes o) slot) }
    {
        match self.regions.kind(at) {
            ObjKind::Instance(class) => kind_at(self.classes.slots(class as u64), slot),
            ObjKind::Array(_) => kind_within(Kind::Object, self.regions.len(at), slot),
            ObjKind::Prim(kind) => kind_within(kind, self.regions.len(at), slot),
        }
    }

    // Returns the place of the object with an id that a register holds, and the kind of a slot of it. Fails with NullRegister
    // or BadSlot.
    #[inline(always)]
    fn slot_named(&self, id: u64, slot: u64) -> Result<(ObjRef, Kind), Refusal>
        requires { Contains self.now.registers id }
        ensures slot { IfOk result (λ p. (id ≢ 0) × (slot_kind self.now id slot ≡ Some p.1)) }
        ensures placed { IfOk result (λ p. ref_of self.now.regions id ≡ Some p.0) }
        ensures refused { IfErr result
            (λ e. ((e ≡ NullRegister) × (id ≡ 0))
            ⊎ ((e ≡ BadSlot) × (id ≢ 0) × (slot_kind self.now id slot ≡ None))) }
    {
        if id == 0 {
            return Err(Refusal::NullRegister);
        }
        let at = self.regions.place(id);
        match self.slot_kind_at(at, slot) {
            Some(kind) => Ok((at, kind)),
            None => Err(Refusal::BadSlot),
        }
    }

    // Returns the place of the object whose slot may be given the value. Fails as `put` does.
    #[inline(always)]
    fn put_place(&self, m: u64, target: u64, slot: u64, value: u64) -> Result<ObjRef, Refusal>
        ensures accepted { OnOk result (put_refusal m target slot value self.now ≡ None) }
        ensures refused { IfErr result (λ e. put_refusal m target slot value self.now ≡ Some e) }
        ensures placed { IfOk result (λ at. place_in self.now m target ≡ Some at) }
    {
        if !self.has_register(m, target) {
            return Err(Refusal::BadRegister);
        }
        let (at, kind) = self.slot_named(self.register(m, target), slot)?;
        if kind.is_reference() {
            return Err(Refusal::WrongKind);
        }
        if !kind.holds(value) {
            return Err(Refusal::OutOfRange);
        }
        Ok(at)
    }
}
