//! The numbers of a second dump's objects in a heap that has those of a first.
ghost use Rattle.std.specs.Prelude.{◌≡◌, Some};
ghost use Rattle.hprof_reader.specs.SubRecords.{sub_record};
ghost use Rattle.hprof_lines.specs.Passes.{id_of};
ghost use Rattle.hprof_pair.specs.Dumps.{dump_told};
ghost use Rattle.hprof_pair.specs.Pairs.{first_named, fresh_number, heap_number, id_number, is_like, like_number, named_number, pair_told, second_named, second_shape, stayed};

use crate::dump::Dump;
use crate::shapes::{Shape, class_in, is_same_shape, shape_in};
use heap_class::ClassNo;
use hprof_lines::{SlotValue, names_object, number_of};
use hprof_reader::SubRecord;
use hprof_session::PLACES;
use indexmap::IndexSet;

/// Two dumps of one program.
#[derive(Clone, Copy)]
pub struct Pair<'s, 'a, 'b> {
    /// The first dump.
    pub first: Dump<'s, 'a>,
    /// The second dump.
    pub second: Dump<'s, 'b>,
    /// The number in the heap of each class of the second dump, if it has one.
    pub classes: &'s [Option<ClassNo>],
    /// The numbers of the objects of the first dump that are found again.
    pub found: &'s IndexSet<u64>,
}

impl Pair<'_, '_, '_> {
    /// Returns the class and size in the heap of object n of the second dump, if it can be made.
    pub(crate) fn second_shape(&self, n: u64) -> Option<Shape>
        ensures { result ≡ second_shape (pair_told self.now) n }
    {
        match self.second.shape(n) {
            Some(shape) => shape_in(self.classes, shape),
            None => None,
        }
    }

    // Returns the number of the object of the first dump that object n of the second may be: that of static fields of this class,
    // or that with this id.
    #[tactic(auto, unfolding(crate::specs::Pairs::like_number))]
    fn like_number(&self, n: u64) -> Option<u64>
        ensures { result ≡ like_number (pair_told self.now) n }
    {
        let _most = self.second.all.statics.len();
        if self.second.is_static(n) {
            let number = self.second.all.plan.kinds.len() as u64 + n;
            return match class_in(self.classes, number) {
                Some(class) => {
                    let before = self.first.all.plan.kinds.len() as u64;
                    Some(class.saturating_sub(before))
                }
                None => None,
            };
        }
        match self.second.sub(n) {
            Some(sub) => match id_of(sub) {
                Some(id) => self.id_number(id),
                None => None,
            },
            None => None,
        }
    }

    // Returns the number of the object with this id in the first dump.
    fn id_number(&self, id: u64) -> Option<u64>
        ensures { result ≡ id_number (dump_told self.now.first) id }
    {
        let _most = self.first.all.objects.len();
        match self.first.all.objects.index_of(id) {
            Some(i) => Some(self.first.all.statics.len() as u64 + i as u64),
            None => None,
        }
    }

    // Returns the number of the object of the first dump that object n of the second is, if it stayed: with its id, class and size.
    #[tactic(auto, unfolding(crate::specs::Pairs::stayed))]
    fn stayed(&self, n: u64, shape: Shape) -> Option<u64>
        requires { second_shape (pair_told self.now) n ≡ Some shape }
        ensures { result ≡ stayed (pair_told self.now) n }
    {
        match self.like_number(n) {
            Some(m) => if self.is_like(shape, m) {
                Some(m)
            } else {
                None
            },
            None => None,
        }
    }

    // Tells whether object m of the first dump is found again and has this class and size.
    fn is_like(&self, shape: Shape, m: u64) -> bool
        ensures { result ≡ is_like (pair_told self.now) shape m }
    {
        if !self.found.contains(&m) {
            return false;
        }
        match self.first.shape(m) {
            Some(old) => is_same_shape(shape, old),
            None => false,
        }
    }

    /// Returns the number in the heap of object n of the second dump, if it stayed or is made.
    #[tactic(auto, unfolding(crate::specs::Pairs::heap_number))]
    pub(crate) fn heap_number(&self, n: u64) -> Option<u64>
        ensures { result ≡ heap_number (pair_told self.now) n }
    {
        match self.second_shape(n) {
            Some(shape) => match self.stayed(n, shape) {
                Some(m) => Some(m),
                None => self.fresh_number(n),
            },
            None => None,
        }
    }

    // Returns a number behind those of the first dump, if there is a place for such an object.
    fn fresh_number(&self, n: u64) -> Option<u64>
        ensures { result ≡ fresh_number (pair_told self.now) n }
    {
        let number = self.first.count().saturating_add(n);
        if number < PLACES { Some(number) } else { None }
    }

    /// Returns the number in the heap of the object with this id in the second dump.
    pub(crate) fn named_number(&self, id: u64) -> Option<u64>
        ensures { result ≡ named_number (pair_told self.now) id }
    {
        match number_of(&self.second.all, id) {
            Some(n) => self.heap_number(n),
            None => None,
        }
    }

    /// Returns the number of the object that a slot names in the first dump.
    pub(crate) fn first_named(&self, value: SlotValue) -> Option<u64>
        ensures { result ≡ first_named (pair_told self.now) value }
    {
        if names_object(value) {
            number_of(&self.first.all, value.value)
        } else {
            None
        }
    }

    /// Returns the number in the heap of the object that a slot names in the second dump.
    pub(crate) fn second_named(&self, value: SlotValue) -> Option<u64>
        ensures { result ≡ second_named (pair_told self.now) value }
    {
        if names_object(value) {
            self.named_number(value.value)
        } else {
            None
        }
    }
}

// Returns the id of an object.
fn id_of(sub: &SubRecord<'_>) -> Option<u64>
    ensures { result ≡ id_of (sub_record sub.now) }
{
    match sub {
        SubRecord::Instance(it) => Some(it.id),
        SubRecord::ObjectArray(it) => Some(it.id),
        SubRecord::PrimArray(it) => Some(it.id),
        SubRecord::Root(_) => None,
        SubRecord::Class(_) => None,
    }
}
