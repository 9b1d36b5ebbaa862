//! The first classes of a heap, lent for reading.
ghost use Rattle.std.specs.Prelude.{◌≡◌, ◌<◌, ◌≤◌, [], length, take, Some, IfSome, slice_get};
ghost use Rattle.heap_class.specs.Limits.{class_limit, name_limit, slot_limit, name_count_limit};
ghost use Rattle.heap_class.specs.Classes.{IsClassTable, slots_of, instance_size, is_array_class, name_of, fields_of, sup_of, name_id, name_table};

use crate::{ClassNo, Classes, IdSize, Kind};
use std::marker::Model;

/// The first classes of a heap, all of them or fewer. Contracts see the list.
#[derive(Drop)]
pub struct FirstClasses<'a> {
    classes: &'a Classes,
    count: u64,
}

impl<'a> Model for FirstClasses<'a> {
    ghost use Rattle.std.specs.Prelude.{◌≤◌, List, length, take};
    ghost use Rattle.heap_class.specs.Classes.{Class};

    ghost Value = { List Class };

    ghost view = { λ f. take f.count f.classes.now };

    ghost invariant = { λ f. f.count ≤ length f.classes.now };
}

impl Classes {
    /// Returns all classes.
    pub fn all(&self) -> FirstClasses<'_>
        ensures { result ≡ self.now }
    {
        FirstClasses {
            classes: self,
            count: self.len(),
        }
    }

    /// Returns the first `count` classes. `count` must be at most `len`.
    pub fn first(&self, count: u64) -> FirstClasses<'_>
        requires { count ≤ length self.now }
        ensures { result ≡ take count self.now }
    {
        FirstClasses {
            classes: self,
            count,
        }
    }
}

impl<'a> FirstClasses<'a> {
    /// Returns the number of classes: at most 256, in a wide heap at most 4,096.
    pub fn len(&self) -> u64
        ensures value { result ≡ length self.now }
        ensures table { IsClassTable [] self.now }
        ensures limit { length self.now ≤ class_limit }
    {
        // Its contract says that `define` would accept these classes.
        let _all = self.classes.len();
        self.count
    }

    /// Returns the kinds of a class's slots: those of its own fields, then its super's slots. The class must be below `len`.
    pub fn slots(&self, class: ClassNo) -> &[Kind]
        requires { class < length self.now }
        ensures value { result.now ≡ slots_of self.now class }
        ensures limit { length result.now ≤ slot_limit }
    {
        self.classes.slots(class)
    }

    /// Returns the size of the class's instances in a dump, in bytes. The class must be below `len`.
    pub fn instance_size(&self, ids: IdSize, class: ClassNo) -> u64
        requires { class < length self.now }
        ensures { result ≡ instance_size ids self.now class }
    {
        self.classes.instance_size(ids, class)
    }

    /// Returns the name of a class, of 1 to 64 bytes, in a wide heap of 1 to 255. The class must be below `len`.
    pub fn name(&self, class: ClassNo) -> &[u8]
        requires { class < length self.now }
        ensures value { result.now ≡ name_of self.now class }
        ensures limit { length result.now ≤ name_limit }
    {
        self.classes.name(class)
    }

    /// Returns the super of a class, or None if it has none. The class must be below `len`.
    pub fn sup(&self, class: ClassNo) -> Option<ClassNo>
        requires { class < length self.now }
        ensures value { result ≡ sup_of self.now class }
        ensures before { IfSome result (λ s. s < class) }
    {
        self.classes.sup(class)
    }

    /// Tells whether a class is an array class. The class must be below `len`.
    pub fn is_array(&self, class: ClassNo) -> bool
        requires { class < length self.now }
        ensures { result ≡ is_array_class self.now class }
    {
        self.classes.is_array(class)
    }

    /// Returns the number of a class's own fields: at most 64. The class must be below `len`.
    pub fn field_count(&self, class: ClassNo) -> u64
        requires { class < length self.now }
        ensures value { result ≡ length (fields_of self.now class) }
        ensures limit { result ≤ slot_limit }
    {
        self.classes.field_count(class)
    }

    /// Returns the kind of an own field of a class. The class must have the field.
    pub fn field_kind(&self, class: ClassNo, field: u64) -> Kind
        requires { field < length (fields_of self.now class) }
        ensures { IfSome (slice_get (fields_of self.now class) field) (λ f. result ≡ f.kind) }
    {
        self.classes.field_kind(class, field)
    }

    /// Returns the number of distinct names of these classes and their fields.
    pub fn name_count(&self) -> u64
        ensures value { result ≡ length (name_table self.now) }
        ensures limit { result ≤ name_count_limit }
    {
        self.classes.name_count_of_first(self.count)
    }

    /// Returns the name with the id `index + 1`. Names have ids in order of first use. `index` must be below `name_count`.
    pub fn name_at(&self, index: u64) -> &[u8]
        requires { index < length (name_table self.now) }
        ensures value { slice_get (name_table self.now) index ≡ Some result.now }
        ensures limit { length result.now ≤ name_limit }
    {
        self.classes.name_at(index)
    }

    /// Returns the id of a class's name. The class must be below `len`.
    pub fn class_name_id(&self, class: ClassNo) -> u64
        requires { class < length self.now }
        ensures { result ≡ name_id self.now (name_of self.now class) }
    {
        self.classes.class_name_id(class)
    }

    /// Returns the id of the name of an own field of a class. The class must have the field.
    pub fn field_name_id(&self, class: ClassNo, field: u64) -> u64
        requires { field < length (fields_of self.now class) }
        ensures { IfSome (slice_get (fields_of self.now class) field)
            (λ f. result ≡ name_id self.now f.name) }
    {
        self.classes.field_name_id(class, field)
    }
}
