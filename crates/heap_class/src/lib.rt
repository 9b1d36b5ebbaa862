//! Kinds, classes and their slots, names, references to objects, and refusals.
#![tactic(auto)]

ghost use Rattle.std.specs.Prelude.{◌≡◌, ◌<◌, ◌==◌, ℕ, List, IfOk, true, nat_lt};
ghost use Rattle.std.specs.Str.{bytes_eq};
ghost use Rattle.heap_class.specs.Kinds.{id_bytes, width_of, type_code, kind_word, value_limit, is_reference};
ghost use Rattle.heap_class.specs.declared.Refusal.TheVariants.{NoMemory};
ghost use Rattle.heap_class.specs.Table.{refusal_number, refusal_name};

mod class_table;
mod first_classes;
mod items;
mod names;

pub use class_table::{Classes, NewClass};
pub use first_classes::FirstClasses;
pub use items::Items;
use std::alloc::{AllocError, AllocFailed, Global};
use std::hash::{Hash, Hasher};
use std::marker::Model;

/// The largest number of slots of a class, inherited ones included.
pub const SLOT_LIMIT: usize = 64;

/// What a heap allows of its classes and their names.
#[derive(Clone, Copy)]
pub struct ClassLimits {
    /// The largest number of classes: at most 4,096.
    pub classes: u64,
    /// The largest number of bytes of a name: at most 255.
    pub name_bytes: u64,
    /// Whether a name may have each byte that prints a sign, except the colon. Without it a name has letters, digits and
    /// `_$/[;.`.
    pub any_sign: bool,
}

/// What a heap allows at most of its classes and their names.
pub const WIDEST_CLASSES: ClassLimits = ClassLimits {
    classes: 4096,
    name_bytes: 255,
    any_sign: true,
};

/// The kind of a slot.
#[derive(Clone, Copy, PartialEq, Eq, Debug)]
pub enum Kind {
    /// A reference to an object, or null.
    Object,
    /// A truth value: 0 or 1. One byte in a dump.
    Boolean,
    /// A character of 16 bits.
    Char,
    /// The bits of a floating-point number of 32 bits.
    Float,
    /// The bits of a floating-point number of 64 bits.
    Double,
    /// A number of 8 bits.
    Byte,
    /// A number of 16 bits.
    Short,
    /// A number of 32 bits.
    Int,
    /// A number of 64 bits.
    Long,
}

/// All kinds of slots, by their codes in a dump.
pub const KINDS: [Kind; 9] = [
    Kind::Object,
    Kind::Boolean,
    Kind::Char,
    Kind::Float,
    Kind::Double,
    Kind::Byte,
    Kind::Short,
    Kind::Int,
    Kind::Long,
];

/// The size of an identifier in a dump.
#[derive(Clone, Copy, PartialEq, Eq, Debug)]
pub enum IdSize {
    /// Four bytes.
    Four,
    /// Eight bytes.
    Eight,
}

/// The number of a class, in order of definition from 0.
pub type ClassNo = u64;

/// The number of a class in the kind of an object: two bytes, of which its header has room for no more.
pub type KindClass = u16;

/// The kind of an object.
#[derive(Clone, Copy, PartialEq, Eq, Debug)]
pub enum ObjKind {
    /// An instance of this class.
    Instance(KindClass),
    /// An array of references, of this array class.
    Array(KindClass),
    /// An array of values of this kind, which isn't Object.
    Prim(Kind),
}

/// The place of an object: a region and a cell of it.
#[derive(Clone, Copy, PartialEq, Eq, Debug)]
pub struct ObjRef {
    /// The number of the region, from 0.
    pub region: u16,
    /// The number of the cell in its region, from 0.
    pub cell: u16,
}

/// The reason why a pin is lost.
#[derive(Clone, Copy, PartialEq, Eq, Debug)]
pub enum LostCause {
    /// A rewind went behind the place of the pin.
    Rewound,
    /// An allocation for the pin failed.
    Memory,
    /// The pin isn't open, or all numbers of pins are used.
    Closed,
}

/// The reason why a call was refused.
#[derive(Clone, Copy, PartialEq, Eq, Debug)]
pub enum Refusal {
    /// An allocation failed.
    NoMemory,
    /// There is no such class, or the super is an array class.
    NoClass,
    /// The heap has as many classes as it may have: 256, or 4,096 if it is wide.
    ClassLimit,
    /// A name is empty, has more bytes than it may have (64, or 255 in a wide heap), or has a byte that no name may have.
    BadName,
    /// A class has this name, or two of the fields have one name.
    DuplicateName,
    /// The class would have more than 64 slots, inherited ones included.
    FieldLimit,
    /// There is no such mutator or register.
    BadRegister,
    /// The register is null.
    NullRegister,
    /// The object has no such slot.
    BadSlot,
    /// The class, slot or kind is of the wrong kind for this call.
    WrongKind,
    /// The value isn't one of the slot's kind.
    OutOfRange,
    /// An array would have more than 1,024 elements.
    TooLarge,
    /// No region has a free cell of the size, and the pool is empty.
    HeapFull,
    /// A cycle runs already.
    AlreadyMarking,
    /// No cycle runs.
    NotMarking,
    /// No object is gray.
    NothingToMark,
    /// No entry of the log is left to drain.
    NothingToDrain,
    /// The cycle can't finish: this many objects are gray, and this many entries of the log are left to drain.
    NotDone { gray: u64, undrained: u64 },
    /// The cycle can't finish: this region, the lowest such, waits to be swept.
    SweepPending { region: u64 },
    /// There is no region of this number, or it doesn't wait to be swept.
    NothingToSweep { region: u64 },
    /// More steps were to be undone than are retained.
    TooFar { asked: u64, retained: u64 },
    /// There is no such pin.
    NoPin,
    /// The pin is lost, for this cause.
    Lost { cause: LostCause },
    /// The place isn't retained.
    NotRetained,
    /// As many pins are open as may be (4, or 64 in a wide heap), or all numbers of pins are used.
    PinLimit,
    /// The chronicle has 1,000,000 entries.
    ChronicleFull,
}

impl Refusal {
    /// Returns the number of the refusal, 1 to 26.
    pub fn number(self) -> u64
        ensures { result ≡ refusal_number self }
    {
        match self {
            Refusal::NoMemory => 1,
            Refusal::NoClass => 2,
            Refusal::ClassLimit => 3,
            Refusal::BadName => 4,
            Refusal::DuplicateName => 5,
            Refusal::FieldLimit => 6,
            Refusal::BadRegister => 7,
            Refusal::NullRegister => 8,
            Refusal::BadSlot => 9,
            Refusal::WrongKind => 10,
            Refusal::OutOfRange => 11,
            Refusal::TooLarge => 12,
            Refusal::HeapFull => 13,
            Refusal::AlreadyMarking => 14,
            Refusal::NotMarking => 15,
            Refusal::NothingToMark => 16,
            Refusal::NothingToDrain => 17,
            Refusal::NotDone { .. } => 18,
            Refusal::SweepPending { .. } => 19,
            Refusal::NothingToSweep { .. } => 20,
            Refusal::TooFar { .. } => 21,
            Refusal::NoPin => 22,
            Refusal::Lost { .. } => 23,
            Refusal::NotRetained => 24,
            Refusal::PinLimit => 25,
            Refusal::ChronicleFull => 26,
        }
    }

    /// Returns the name of the refusal, as replies have it.
    pub fn name(self) -> &'static str
        ensures { result.now ≡ refusal_name self }
    {
        match self {
            Refusal::NoMemory => "NoMemory",
            Refusal::NoClass => "NoClass",
            Refusal::ClassLimit => "ClassLimit",
            Refusal::BadName => "BadName",
            Refusal::DuplicateName => "DuplicateName",
            Refusal::FieldLimit => "FieldLimit",
            Refusal::BadRegister => "BadRegister",
            Refusal::NullRegister => "NullRegister",
            Refusal::BadSlot => "BadSlot",
            Refusal::WrongKind => "WrongKind",
            Refusal::OutOfRange => "OutOfRange",
            Refusal::TooLarge => "TooLarge",
            Refusal::HeapFull => "HeapFull",
            Refusal::AlreadyMarking => "AlreadyMarking",
            Refusal::NotMarking => "NotMarking",
            Refusal::NothingToMark => "NothingToMark",
            Refusal::NothingToDrain => "NothingToDrain",
            Refusal::NotDone { .. } => "NotDone",
            Refusal::SweepPending { .. } => "SweepPending",
            Refusal::NothingToSweep { .. } => "NothingToSweep",
            Refusal::TooFar { .. } => "TooFar",
            Refusal::NoPin => "NoPin",
            Refusal::Lost { .. } => "Lost",
            Refusal::NotRetained => "NotRetained",
            Refusal::PinLimit => "PinLimit",
            Refusal::ChronicleFull => "ChronicleFull",
        }
    }
}

impl From<AllocError> for Refusal {
    ghost use Rattle.std.specs.Prelude.{◌≡◌};
    ghost use Rattle.heap_class.specs.declared.Refusal.TheVariants.{NoMemory};

    ghost from_gives = { λ _ e. e ≡ NoMemory };

    fn from(_e: AllocError) -> Refusal {
        Refusal::NoMemory
    }
}

impl<T: Drop> From<AllocFailed<T>> for Refusal {
    ghost use Rattle.std.specs.Prelude.{◌≡◌};
    ghost use Rattle.heap_class.specs.declared.Refusal.TheVariants.{NoMemory};

    ghost from_gives = { λ _ e. e ≡ NoMemory };

    fn from(_e: AllocFailed<T>) -> Refusal {
        Refusal::NoMemory
    }
}

/// A name. Contracts see the list of its bytes.
#[derive(Drop)]
pub struct Name {
    bytes: Vec<u8>,
}

impl Model for Name {
    ghost use Rattle.std.specs.Prelude.{ℕ, List};

    ghost Value = { List ℕ };

    ghost view = { λ n. n.bytes.items };
}

impl Name {
    /// Returns the name with these bytes. Any bytes are taken: `define` checks them.
    pub fn from_vec(bytes: Vec<u8>) -> Name
        ensures { result ≡ bytes.items }
    {
        Name { bytes }
    }

    /// Returns a name with a copy of these bytes. Fails if the allocation fails.
    pub fn new(alloc: Global, bytes: &[u8]) -> Result<Name, AllocError>
        ensures { IfOk result (λ n. n ≡ bytes.now) }
    {
        let bytes = bytes.to_vec(alloc)?;
        Ok(Name { bytes })
    }

    /// Returns the bytes of the name.
    pub fn as_bytes(&self) -> &[u8]
        ensures { result.now ≡ self.now }
    {
        self.bytes.as_slice()
    }

    /// Returns a copy of the name. Fails if the allocation fails.
    pub fn duplicate(&self, alloc: Global) -> Result<Name, AllocError>
        ensures { IfOk result (λ n. n ≡ self.now) }
    {
        Name::new(alloc, self.as_bytes())
    }
}

impl PartialEq for Name {
    ghost use Rattle.std.specs.Str.{bytes_eq};
    ghost use Rattle.std.specs.Cmp.{partial_equiv_from_equiv};
    ghost use Rattle.std.specs.Cmp.Lexicographic.{nat_list_eq_equiv};

    ghost eq = { bytes_eq };

    ghost laws = { partial_equiv_from_equiv nat_list_eq_equiv };

    fn eq(&self, other: &Name) -> bool {
        self.as_bytes() == other.as_bytes()
    }
}

impl Eq for Name {
    ghost use Rattle.std.specs.Cmp.Lexicographic.{nat_list_eq_equiv};

    ghost laws = { nat_list_eq_equiv };
}

impl Hash for Name {
    ghost use Rattle.std.proofs.Common.{rules};
    ghost use Rattle.std.specs.Hash as fed;
    ghost use Rattle.std.specs.Cmp.Rules.{hashing};

    ghost hash_input = { fed.slice fed.u8 };

    ghost respects_eq = { Prim.search (hashing, rules) };

    fn hash<H: Hasher>(&self, state: &mut H) {
        self.as_bytes().hash(state);
    }
}

/// A named slot of a class.
#[derive(Drop)]
pub struct Field {
    /// The name of the field.
    pub name: Name,
    /// The kind of its slot.
    pub kind: Kind,
}

impl PartialEq for Field {
    ghost use Rattle.std.specs.Cmp.{partial_equiv_from_equiv};
    ghost use Rattle.heap_class.specs.Equal.{field_eq, field_equiv};

    ghost eq = { field_eq };

    ghost laws = { partial_equiv_from_equiv field_equiv };

    fn eq(&self, other: &Field) -> bool {
        self.name == other.name && self.kind.type_code() == other.kind.type_code()
    }
}

impl Eq for Field {
    ghost use Rattle.heap_class.specs.Equal.{field_equiv};

    ghost laws = { field_equiv };
}

/// A class's own fields, in order.
pub type Fields = Items<Field>;

impl IdSize {
    /// Returns the size of an identifier in bytes: 4 or 8.
    pub fn bytes(self) -> u64
        ensures { result ≡ id_bytes self }
    {
        match self {
            IdSize::Four => 4,
            IdSize::Eight => 8,
        }
    }
}

impl Kind {
    /// Returns the size of a value in a dump, in bytes: 1 to 8.
    pub fn width(self, ids: IdSize) -> u64
        ensures { result ≡ width_of ids self }
    {
        match self {
            Kind::Object => ids.bytes(),
            Kind::Boolean | Kind::Byte => 1,
            Kind::Char | Kind::Short => 2,
            Kind::Float | Kind::Int => 4,
            Kind::Double | Kind::Long => 8,
        }
    }

    /// Returns the byte that names the kind in a dump.
    pub fn type_code(self) -> u8
        ensures { result ≡ type_code self }
    {
        match self {
            Kind::Object => 2,
            Kind::Boolean => 4,
            Kind::Char => 5,
            Kind::Float => 6,
            Kind::Double => 7,
            Kind::Byte => 8,
            Kind::Short => 9,
            Kind::Int => 10,
            Kind::Long => 11,
        }
    }

    /// Returns the word that names the kind in a session.
    pub fn word(self) -> &'static str
        ensures { result.now ≡ kind_word self }
    {
        match self {
            Kind::Object => "object",
            Kind::Boolean => "boolean",
            Kind::Char => "char",
            Kind::Float => "float",
            Kind::Double => "double",
            Kind::Byte => "byte",
            Kind::Short => "short",
            Kind::Int => "int",
            Kind::Long => "long",
        }
    }

    /// Tells whether the number is a value of the kind. Kinds of n bytes have the values below 2^(8n), Boolean has 0 and 1.
    pub fn holds(self, value: u64) -> bool
        ensures { result ≡ nat_lt value (value_limit self) }
    {
        match self {
            Kind::Boolean => value < 2,
            Kind::Byte => value < 0x100,
            Kind::Char | Kind::Short => value < 0x1_0000,
            Kind::Float | Kind::Int => value < 0x1_0000_0000,
            Kind::Object | Kind::Double | Kind::Long => true,
        }
    }

    /// Tells whether slots of this kind hold references.
    pub fn is_reference(self) -> bool
        ensures { result ≡ is_reference self }
    {
        match self {
            Kind::Object => true,
            _ => false,
        }
    }
}
