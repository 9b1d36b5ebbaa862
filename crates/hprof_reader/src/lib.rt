//! The records of a dump, read one after another: HPROF, JAVA PROFILE 1.0.2 (the format comment of OpenJDK's heapDumper.cpp).
#![tactic(auto)]

mod class_dumps;
mod fault;
mod fields;
mod header;
mod kinds;
mod numbers;
mod read_back;
mod records;
mod sub_records;

pub use class_dumps::{ClassDump, ClassHead, Entry, Table};
pub use fault::Fault;
pub use fields::{OwnField, StaticField, own_field_at, static_field_at};
pub use header::{Header, header_at};
pub use hprof_records::tags;
pub use read_back::sub_records_are_read;
pub use records::{Record, record_at};
pub use sub_records::{Instance, ObjectArray, PrimArray, Root, SubRecord, sub_record_at};
