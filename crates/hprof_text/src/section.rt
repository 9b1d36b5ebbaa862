//! The sections of a dump, and their items.
ghost use Rattle.std.specs.Prelude.{◌≡◌, ◌<◌, ◌≤◌, Some, IfSome, length, map, slice_get};
ghost use Rattle.std.specs.Option.{option_to_list};
ghost use Rattle.heap_class.specs.Limits.{class_limit};
ghost use Rattle.hprof_text.specs.declared.section.Section.TheVariants.{Numbered};
ghost use Rattle.hprof_text.specs.Cursors.{sections_from};
ghost use Rattle.hprof_text.specs.Records.{sub_record_bytes, IsOfClasses};
ghost use Rattle.hprof_text.specs.Sizes.{class_size_limit};
ghost use Rattle.hprof_text.specs.Text.{sections, after, items_of};

use crate::View;
use crate::records::class_id;
use crate::sizes::{class_size, root_size};
use heap_class::{ClassNo, FirstClasses, IdSize};
use hprof_records::tags::{ROOT_STICKY_CLASS, ROOT_UNKNOWN};

/// A section whose items have numbers.
#[derive(Clone, Copy)]
pub enum NumberedSection {
    /// The sub-record of each class.
    ClassDumps,
    /// The root of each class.
    ClassRoots,
    /// The root of each register, unless it is null.
    RegisterRoots,
}

/// The sub-record of an item.
#[derive(Clone, Copy)]
pub enum SubRecord {
    /// The CLASS DUMP of a class.
    ClassDump(ClassNo),
    /// The root with this tag of the object or class with this id.
    Root(u8, u64),
}

/// A section of a dump.
#[derive(Clone, Copy)]
pub enum Section {
    /// Items that have numbers.
    Numbered(NumberedSection),
    /// The sub-record of each object. Objects have places, and no numbers.
    Objects,
}

impl Section {
    /// Returns the first section.
    pub fn first() -> Section
        ensures { sections ≡ sections_from (Some result) }
    {
        Section::Numbered(NumberedSection::ClassDumps)
    }

    /// Returns the section after this one.
    pub fn next(self) -> Option<Section>
        ensures { after self ≡ sections_from result }
    {
        match self {
            Section::Numbered(NumberedSection::ClassDumps) => {
                Some(Section::Numbered(NumberedSection::ClassRoots))
            }
            Section::Numbered(NumberedSection::ClassRoots) => Some(Section::Objects),
            Section::Objects => Some(Section::Numbered(NumberedSection::RegisterRoots)),
            Section::Numbered(NumberedSection::RegisterRoots) => None,
        }
    }
}

impl NumberedSection {
    /// Counts a view's items.
    #[tactic(auto, using(crate::proofs::Sections::items_counted))]
    pub fn count<V: View>(self, view: &V) -> u64
        ensures value { result
            ≡ length (items_of (V.ids view.now) (V.image view.now) (Numbered self)) }
        ensures limit { result ≤ class_limit }
    {
        let classes = view.classes();
        match self {
            NumberedSection::ClassDumps => classes.len(),
            NumberedSection::ClassRoots => classes.len(),
            NumberedSection::RegisterRoots => view.registers().len() as u64,
        }
    }

    /// Returns the sub-record of a view's item, or None if it has none.
    #[tactic(auto, using(crate::proofs::Sections::items_counted, crate::proofs::Sections::class_dump_there, crate::proofs::Sections::class_root_there, crate::proofs::Sections::null_there, crate::proofs::Sections::register_root_there))]
    pub fn item<V: View>(self, view: &V, number: u64) -> Option<SubRecord>
        requires { number < length (items_of (V.ids view.now) (V.image view.now) (Numbered self)) }
        ensures value { slice_get (items_of (V.ids view.now) (V.image view.now) (Numbered self))
            number
            ≡ Some (map (sub_record_bytes (V.ids view.now) (V.image view.now).classes)
            (option_to_list result)) }
        ensures known { IfSome result (IsOfClasses (V.image view.now).classes) }
    {
        // Its contract says that what the view shows is within the limits of a dump.
        let _classes = view.classes();
        match self {
            NumberedSection::ClassDumps => Some(SubRecord::ClassDump(number)),
            NumberedSection::ClassRoots => Some(SubRecord::Root(
                ROOT_STICKY_CLASS,
                class_id(number),
            )),
            NumberedSection::RegisterRoots => {
                let register = view.registers()[number as usize];
                if register == 0 {
                    None
                } else {
                    Some(SubRecord::Root(ROOT_UNKNOWN, register))
                }
            }
        }
    }
}

impl SubRecord {
    /// Returns the size of this sub-record in bytes.
    #[tactic(auto, using(crate::proofs::Lengths::class_dump_length, crate::proofs::Lengths::root_length))]
    pub fn size(self, ids: IdSize, classes: &FirstClasses<'_>) -> u64
        requires { IsOfClasses classes.now self }
        ensures value { result ≡ length (sub_record_bytes ids classes.now self) }
        ensures limit { (0 < result) × (result ≤ class_size_limit) }
    {
        match self {
            SubRecord::ClassDump(class) => class_size(ids, classes, class),
            SubRecord::Root(..) => root_size(ids),
        }
    }
}
