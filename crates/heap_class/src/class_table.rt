//! Classes in order of definition, with their slots and names.

ghost use Rattle.std.specs.Prelude.{◌≡◌, ◌<◌, ◌≤◌, ◌+◌, ◌-◌, [], List, length, take, Some, None, IfSome, slice_get, true, Bool, not, ◌||◌, map, IsTrue};
ghost use Rattle.std.specs.Option.{option_map_or};
ghost use Rattle.std.specs.List.{list_any};
ghost use Rattle.std.specs.Str.{bytes_eq};
ghost use Rattle.heap_class.specs.Entries.{AreSizes};
ghost use Rattle.heap_class.specs.Limits.{AreClassLimits, class_limit, name_limit, slot_limit, name_count_limit};
ghost use Rattle.heap_class.specs.Classes.{IsClassTable, IsDefined, all_distinct, class_refusal, instance_class, array_class, is_instance_class, is_array_class, slots_of, instance_size, name_of, fields_of, sup_of, name_id, name_table};

use crate::names::{
    Names, are_distinct, are_valid_names, name_in, place_names, slots_over, total_width,
};
use crate::{ClassLimits, ClassNo, Field, Fields, IdSize, Kind, Name, Refusal, SLOT_LIMIT};
use std::alloc::Global;
use std::marker::Model;

// An own field of a class. Its name is kept as a place among the names.
#[derive(Clone, Copy)]
pub(crate) struct OwnField {
    pub(crate) name: usize,
    pub(crate) kind: Kind,
}

// The sizes of a class's instances in bytes, for identifiers of four bytes and of eight.
#[derive(Clone, Copy)]
struct Sizes {
    of_four: u16,
    of_eight: u16,
}

impl Sizes {
    // Returns the sizes of instances with these slots.
    fn of(slots: &[Kind]) -> Sizes
        requires { length slots.now ≤ slot_limit }
        ensures { AreSizes slots.now result }
    {
        Sizes {
            of_four: total_width(IdSize::Four, slots) as u16,
            of_eight: total_width(IdSize::Eight, slots) as u16,
        }
    }
}

// A class. Names are kept as places among the names.
#[derive(Drop)]
struct ClassEntry {
    name: usize,
    sup: Option<ClassNo>,
    fields: Vec<OwnField>,
    is_array: bool,
    // The kinds of its own fields, then its super's slots.
    slots: Vec<Kind>,
    sizes: Sizes,
    // The number of names before the class was defined.
    names_before: usize,
}

/// An instance class that is to be defined.
#[derive(Clone, Copy)]
pub struct NewClass<'a> {
    /// The name of the class.
    pub name: &'a Name,
    /// The number of its super.
    pub sup: Option<ClassNo>,
    /// Its own fields.
    pub fields: &'a Fields,
}

/// The classes of a heap, in order of definition. Contracts see the list.
#[derive(Drop)]
pub struct Classes {
    alloc: Global,
    // The distinct names of classes and fields, in order of first use.
    names: Names,
    entries: Vec<ClassEntry>,
}

impl Model for Classes {
    ghost use Rattle.std.specs.Prelude.{List, map};
    ghost use Rattle.heap_class.specs.Classes.{Class};

    ghost Value = { List Class };

    ghost use Rattle.indexmap.specs.IndexMap.{keys};
    ghost use Rattle.heap_class.specs.Entries.{class_of_entry, IsNumberedTable};

    ghost view = { λ a. map (class_of_entry (keys a.names)) a.entries.items };

    ghost invariant = { λ a. IsNumberedTable a.names.entries a.entries.items };
}

impl Classes {
    /// Creates an empty list of classes. Takes no memory.
    pub fn new(alloc: Global) -> Classes
        ensures { result ≡ [] }
    {
        Classes {
            alloc,
            names: Names::new(alloc),
            entries: Vec::new(alloc),
        }
    }

    /// Returns the number of classes: at most 256, in a wide heap at most 4,096.
    pub fn len(&self) -> u64
        ensures value { result ≡ length self.now }
        ensures table { IsClassTable [] self.now }
        ensures limit { length self.now ≤ class_limit }
    {
        self.entries.len() as u64
    }

    // Tells whether the super, if there is one, is an instance class.
    fn has_super(&self, sup: Option<ClassNo>) -> bool
        ensures { result ≡ option_map_or (is_instance_class self.now) sup true }
    {
        match sup {
            Some(class) => self.is_instance(class),
            None => true,
        }
    }

    // Tells whether a class has the name.
    fn has_class(&self, name: &Name) -> bool
        ensures { result ≡ list_any (λ d. bytes_eq d.name name.now) self.now }
    {
        match self.names.get(name) {
            Some(class) => class.is_some(),
            None => false,
        }
    }

    // Tells whether a class has the name, or two of the fields share one.
    fn has_duplicate(&self, name: &Name, fields: &[Field]) -> bool
        ensures { result
            ≡ (list_any (λ d. bytes_eq d.name name.now) self.now
            || not (all_distinct (map (λ f. f.name) fields.now))) }
    {
        self.has_class(name) || !are_distinct(fields)
    }

    // Returns the slots that a class with this super inherits.
    fn slots_above(&self, sup: Option<ClassNo>) -> &[Kind]
        requires { option_map_or (is_instance_class self.now) sup true ≡ true }
        ensures value { result.now ≡ option_map_or (slots_of self.now) sup [] }
        ensures limit { length result.now ≤ slot_limit }
    {
        match sup {
            Some(class) => self.slots(class),
            None => &[],
        }
    }

    // Returns the first refusal of a new class, or None if it is accepted.
    fn refusal(
        &self,
        limits: ClassLimits,
        name: &Name,
        sup: Option<ClassNo>,
        fields: &[Field],
    ) -> Option<Refusal>
        ensures { (is_array : Bool)
            → result
            ≡ class_refusal limits self.now
            (record { name = name.now; sup = sup; fields = fields.now; is_array = is_array }) }
    {
        if !self.has_super(sup) {
            return Some(Refusal::NoClass);
        }
        if self.entries.len() as u64 >= limits.classes {
            return Some(Refusal::ClassLimit);
        }
        if !are_valid_names(limits, name, fields) {
            return Some(Refusal::BadName);
        }
        if self.has_duplicate(name, fields) {
            return Some(Refusal::DuplicateName);
        }
        if fields.len() > SLOT_LIMIT - self.slots_above(sup).len() {
            return Some(Refusal::FieldLimit);
        }
        None
    }

    // Adds a class, unless it is refused. Makes each growth before anything changes.
    fn add(
        &mut self,
        limits: ClassLimits,
        name: &Name,
        sup: Option<ClassNo>,
        fields: &[Field],
        is_array: bool,
    ) -> Result<ClassNo, Refusal>
        requires limits { AreClassLimits limits }
        requires bare { IsTrue is_array → (sup ≡ None) × (fields.now ≡ []) }
        ensures { IsDefined limits
            (record { name = name.now; sup = sup; fields = fields.now; is_array = is_array })
            self.old self.new result }
    {
        if let Some(refusal) = self.refusal(limits, name, sup, fields) {
            return Err(refusal);
        }
        let slots = slots_over(self.alloc, fields, self.slots_above(sup))?;
        let sizes = Sizes::of(slots.as_slice());
        self.entries.reserve(1)?;
        let number = self.entries.len() as u64;
        let names_before = self.names.len();
        let (name, fields) = place_names(self.alloc, &mut self.names, name, fields)?;
        self.names[name] = Some(number);
        self.entries.push_reserved(ClassEntry {
            name,
            sup,
            fields,
            is_array,
            slots,
            sizes,
            names_before,
        });
        Ok(number)
    }

    /// Defines an instance class in a heap with these limits, and returns its number. Fails with NoClass, ClassLimit,
    /// BadName, DuplicateName or FieldLimit, in this order, and then with NoMemory if an allocation fails.
    pub fn define(&mut self, limits: ClassLimits, class: NewClass<'_>) -> Result<ClassNo, Refusal>
        requires { AreClassLimits limits }
        ensures { IsDefined limits
            (instance_class class.entry.name.now class.entry.sup class.entry.fields.now) self.old
            self.new result }
    {
        self.add(
            limits,
            class.name,
            class.sup,
            class.fields.as_slice(),
            false,
        )
    }

    /// Defines an array class in a heap with these limits, and returns its number. Fails with ClassLimit, BadName or
    /// DuplicateName, in this order, and then with NoMemory if an allocation fails.
    pub fn define_array(&mut self, limits: ClassLimits, name: &Name) -> Result<ClassNo, Refusal>
        requires { AreClassLimits limits }
        ensures { IsDefined limits (array_class name.now) self.old self.new result }
    {
        self.add(limits, name, None, &[], true)
    }

    /// Undoes the last definition, which must be there. Takes no memory.
    pub fn undefine_last(&mut self)
        requires { 0 < length self.old }
        ensures { self.new ≡ take (length self.old - 1) self.old }
    {
        if let Some(last) = self.entries.pop() {
            self.names[last.name] = None;
            self.names.truncate(last.names_before);
        }
    }

    /// Tells whether the number is that of an instance class.
    #[tactic(auto, using(crate::proofs::Readers::read_classes), unfolding(crate::specs::Classes::is_instance_class))]
    pub fn is_instance(&self, class: ClassNo) -> bool
        ensures { result ≡ is_instance_class self.now class }
    {
        match self.entries.as_slice().get(class as usize) {
            Some(entry) => !entry.is_array,
            None => false,
        }
    }

    /// Tells whether the number is that of an array class.
    #[tactic(auto, using(crate::proofs::Readers::read_classes), unfolding(crate::specs::Classes::is_array_class))]
    pub fn is_array(&self, class: ClassNo) -> bool
        ensures { result ≡ is_array_class self.now class }
    {
        match self.entries.as_slice().get(class as usize) {
            Some(entry) => entry.is_array,
            None => false,
        }
    }

    /// Returns the kinds of a class's slots: those of its own fields, then its super's slots. The class must be below `len`.
    pub fn slots(&self, class: ClassNo) -> &[Kind]
        requires { class < length self.now }
        ensures value { result.now ≡ slots_of self.now class }
        ensures limit { length result.now ≤ slot_limit }
    {
        self.entries[class as usize].slots.as_slice()
    }

    /// Returns the size of the class's instances in a dump, in bytes. The class must be below `len`.
    pub fn instance_size(&self, ids: IdSize, class: ClassNo) -> u64
        requires { class < length self.now }
        ensures { result ≡ instance_size ids self.now class }
    {
        let sizes = self.entries[class as usize].sizes;
        match ids {
            IdSize::Four => sizes.of_four as u64,
            IdSize::Eight => sizes.of_eight as u64,
        }
    }

    /// Returns the name of a class, of 1 to 64 bytes, in a wide heap of 1 to 255. The class must be below `len`.
    pub fn name(&self, class: ClassNo) -> &[u8]
        requires { class < length self.now }
        ensures value { result.now ≡ name_of self.now class }
        ensures limit { length result.now ≤ name_limit }
    {
        name_in(&self.names, self.entries[class as usize].name)
    }

    /// Returns the super of a class, or None if it has none. The class must be below `len`.
    pub fn sup(&self, class: ClassNo) -> Option<ClassNo>
        requires { class < length self.now }
        ensures value { result ≡ sup_of self.now class }
        ensures before { IfSome result (λ s. s < class) }
    {
        self.entries[class as usize].sup
    }

    /// Returns the number of a class's own fields: at most 64. The class must be below `len`.
    pub fn field_count(&self, class: ClassNo) -> u64
        requires { class < length self.now }
        ensures value { result ≡ length (fields_of self.now class) }
        ensures limit { result ≤ slot_limit }
    {
        self.entries[class as usize].fields.len() as u64
    }

    /// Returns the kind of an own field of a class. The class must have the field.
    pub fn field_kind(&self, class: ClassNo, field: u64) -> Kind
        requires { field < length (fields_of self.now class) }
        ensures { IfSome (slice_get (fields_of self.now class) field) (λ f. result ≡ f.kind) }
    {
        self.entries[class as usize].fields[field as usize].kind
    }

    /// Returns the number of distinct names of classes and fields.
    pub fn name_count(&self) -> u64
        ensures value { result ≡ length (name_table self.now) }
        ensures limit { result ≤ name_count_limit }
    {
        self.names.len() as u64
    }

    // Returns the number of distinct names of the first `count` classes.
    pub(crate) fn name_count_of_first(&self, count: u64) -> u64
        requires { count ≤ length self.now }
        ensures value { result ≡ length (name_table (take count self.now)) }
        ensures limit { result ≤ name_count_limit }
    {
        match self.entries.as_slice().get(count as usize) {
            Some(entry) => entry.names_before as u64,
            None => self.name_count(),
        }
    }

    /// Returns the name with the id `index + 1`. Names have ids in order of first use. `index` must be below `name_count`.
    pub fn name_at(&self, index: u64) -> &[u8]
        requires { index < length (name_table self.now) }
        ensures value { slice_get (name_table self.now) index ≡ Some result.now }
        ensures limit { length result.now ≤ name_limit }
    {
        name_in(&self.names, index as usize)
    }

    /// Returns the id of a class's name. The class must be below `len`.
    pub fn class_name_id(&self, class: ClassNo) -> u64
        requires { class < length self.now }
        ensures { result ≡ name_id self.now (name_of self.now class) }
    {
        self.entries[class as usize].name as u64 + 1
    }

    /// Returns the id of the name of an own field of a class. The class must have the field.
    pub fn field_name_id(&self, class: ClassNo, field: u64) -> u64
        requires { field < length (fields_of self.now class) }
        ensures { IfSome (slice_get (fields_of self.now class) field)
            (λ f. result ≡ name_id self.now f.name) }
    {
        self.entries[class as usize].fields[field as usize].name as u64 + 1
    }
}
